//! Terms that are rule types by themselves, or are made from parts.
ghost use Rattle.std.specs.Prelude.{◌≡◌, ◌≤◌, Some, IsSome, IfOk, IfErr};
ghost use Rattle.lego_term.specs.Levels.{fixed_level, variable_level};
ghost use Rattle.lego_term.specs.Trees.{Univ, Pi, Sigma, Fst, Snd, instantiate, loose};
ghost use Rattle.lego_laws.specs.Entries.{Entry, entry_of};
ghost use Rattle.lego_inference.specs.declared.fault.TypeFault.TheVariants.{Memory};
ghost use Rattle.lego_inference.specs.Entries.{laws_entries};
ghost use Rattle.lego_inference.specs.private.Judging.{IsMade};
ghost use Rattle.lego_rule_types.specs.private.Finding.{IsSortOfProduct};

use crate::scope::Setting;
use lego_inference::TypeFault;
use lego_term::{Binder, Level, Node, Term, fst, pi, prop, sigma, subst, univ};
use std::alloc::Global;

/// The type of a constant.
pub(crate) fn constant(setting: &Setting<'_>, number: u32) -> Result<Term, TypeFault>
    requires { IsSome (entry_of (laws_entries setting.now.signature.now) number) }
    ensures ok { IfOk result (λ ty. (e : Entry) × (entry_of (laws_entries setting.now.signature.now) number ≡ Some e) × (ty ≡ e.ty)) }
    ensures err { IfErr result (λ fault. fault ≡ Memory) }
{
    let Some(entry) = setting.signature.find(number) else {
        unreachable!()
    };
    Ok(entry.ty.share()?)
}

/// The type of `Prop`.
pub(crate) fn prop_type(alloc: Global) -> Result<Term, TypeFault>
    ensures ok { IfOk result (λ ty. ty ≡ Univ (fixed_level 0)) }
    ensures err { IfErr result (λ fault. fault ≡ Memory) }
{
    universe(
        alloc,
        Level {
            base: None,
            plus: 0,
        },
    )
}

/// The universe of a node's level variable.
pub(crate) fn own_universe(alloc: Global, node: u32) -> Result<Term, TypeFault>
    ensures ok { IfOk result (λ ty. ty ≡ Univ (variable_level node)) }
    ensures err { IfErr result (λ fault. fault ≡ Memory) }
{
    universe(
        alloc,
        Level {
            base: Some(node),
            plus: 0,
        },
    )
}

/// A universe, which passes no limit.
fn universe(alloc: Global, level: Level) -> Result<Term, TypeFault>
    ensures ok { IfOk result (λ ty. ty ≡ Univ level) }
    ensures err { IfErr result (λ fault. fault ≡ Memory) }
{
    match univ(alloc, level) {
        Ok(ty) => Ok(ty),
        Err(_) => Err(TypeFault::Memory),
    }
}

/// The type of a product whose body's type has this head form: it is a proposition where its body
/// is, and else in the universe of its own level variable.
pub(crate) fn product_type(alloc: Global, body_sort: &Term, node: u32) -> Result<Term, TypeFault>
    ensures ok { IfOk result (IsSortOfProduct body_sort.now node) }
    ensures err { IfErr result (λ fault. fault ≡ Memory) }
{
    match body_sort.view() {
        Node::Prop => match prop(alloc) {
            Ok(ty) => Ok(ty),
            Err(_) => Err(TypeFault::Memory),
        },
        _ => own_universe(alloc, node),
    }
}

/// The body with the value put in.
pub(crate) fn instance(alloc: Global, body: &Term, value: &Term) -> Result<Term, TypeFault>
    requires { loose value.now ≤ 65536 }
    ensures { IsMade (instantiate body.now value.now) result }
{
    let _depth = body.depth();
    Ok(subst(alloc, body, value)?)
}

/// The product of a domain and a body.
pub(crate) fn product(
    alloc: Global,
    binder: Binder,
    domain: &Term,
    body: &Term,
) -> Result<Term, TypeFault>
    ensures { IsMade (Pi binder domain.now body.now) result }
{
    Ok(pi(alloc, binder, domain, body)?)
}

/// The Sigma type of a domain and a body.
pub(crate) fn sigma_former(
    alloc: Global,
    binder: Binder,
    domain: &Term,
    body: &Term,
) -> Result<Term, TypeFault>
    ensures { IsMade (Sigma binder domain.now body.now) result }
{
    Ok(sigma(alloc, binder, domain, body)?)
}

/// The type of the second component of a pair, where the whole term is that component.
pub(crate) fn second_component(
    alloc: Global,
    whole: &Term,
    of: &Term,
    body: &Term,
) -> Result<Term, TypeFault>
    requires whole { whole.now ≡ Snd of.now }
    requires room { loose of.now ≤ 65536 }
    ensures { IsMade (instantiate body.now (Fst of.now)) result }
{
    let _size = whole.size();
    let _depth = whole.depth();
    let Ok(first) = fst(alloc, of) else {
        return Err(TypeFault::Memory);
    };
    instance(alloc, body, &first)
}

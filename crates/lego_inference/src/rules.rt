//! The rules without premises of their own, Ax, T and var, and the ends of Pi1, Pi2 and Sigma.
ghost use Rattle.std.specs.Prelude.{◌≡◌, ◌<◌, ◌≤◌, ◌++◌, suc, length, slice_get, IsSome, IfOk, IfErr, OnOk};
ghost use Rattle.lego_term.specs.Levels.{fixed_level};
ghost use Rattle.lego_term.specs.Trees.{Core, Univ, lift};
ghost use Rattle.lego_laws.specs.Entries.{Entry, entry_of};
ghost use Rattle.lego_laws.specs.RuleTypeLaws.{AreScoped};
ghost use Rattle.lego_inference.specs.Entries.{laws_entries};
ghost use Rattle.lego_inference.specs.Locals.{types_of};
ghost use Rattle.lego_inference.specs.declared.fault.TypeFault.TheVariants.{Memory};
ghost use Rattle.lego_inference.specs.private.Gathering.{asked_of_former, asked_of_product, product_sort, FindsUniverse};

use crate::fault::TypeFault;
use crate::gathered::Gathered;
use crate::locals::Locals;
use crate::setting::Setting;
use lego_term::{Level, Term, lift as lifted, prop, univ};
use std::alloc::Global;

/// The level variable of a product or a Sigma type, and the sorts of its domain and its body.
#[derive(Debug, Clone, Copy, PartialEq, Eq)]
pub(crate) struct Formed {
    pub(crate) own: Level,
    pub(crate) domain: Option<Level>,
    pub(crate) body: Option<Level>,
}

/// Rule var, of a local variable.
pub(crate) fn variable(
    setting: &Setting<'_>,
    locals: &Locals,
    index: u32,
) -> Result<Term, TypeFault>
    requires within { index < length locals.now }
    requires scoped { AreScoped (types_of locals.now) }
    ensures ok { IfOk result (λ ty. (a : Core) × (slice_get (types_of locals.now) index ≡ Some a) × (ty ≡ lift 0 (suc index) a)) }
    ensures err { IfErr result (λ fault. fault ≡ Memory) }
{
    let Some(ty) = locals.ty(index) else {
        unreachable!()
    };
    let _count = locals.len();
    match lifted(setting.alloc, ty, 0, index + 1) {
        Ok(ty) => Ok(ty),
        Err(_) => Err(TypeFault::Memory),
    }
}

/// Rule var, of a constant.
pub(crate) fn constant(setting: &Setting<'_>, number: u32) -> Result<Term, TypeFault>
    requires { IsSome (entry_of (laws_entries setting.now.signature.now) number) }
    ensures ok { IfOk result (λ ty. (e : Entry) × (entry_of (laws_entries setting.now.signature.now) number ≡ Some e) × (ty ≡ e.ty)) }
    ensures err { IfErr result (λ fault. fault ≡ Memory) }
{
    let Some(entry) = setting.signature.find(number) else {
        unreachable!()
    };
    Ok(entry.ty.share()?)
}

/// Rule Ax: the type of `Prop`.
pub(crate) fn prop_type(alloc: Global) -> Result<Term, TypeFault>
    ensures ok { IfOk result (λ ty. ty ≡ Univ (fixed_level 0)) }
    ensures err { IfErr result (λ fault. fault ≡ Memory) }
{
    universe(
        alloc,
        Level {
            base: None,
            plus: 0,
        },
    )
}

/// Rule T: the type of a universe is the universe of the node's level variable, which is above it.
pub(crate) fn universe_type(
    setting: &Setting<'_>,
    level: Level,
    found: &mut Gathered,
) -> Result<Term, TypeFault>
    requires { level.plus ≤ 1000000 }
    ensures { FindsUniverse level setting.now.asked.place found.old found.new result }
{
    let own = found.take_level()?;
    let raised = Level {
        base: level.base,
        plus: level.plus + 1,
    };
    found.ask(raised, own, setting.asked.place)?;
    universe(setting.alloc, own)
}

/// The end of Pi1 and Pi2: a product is a proposition where its body is, and else in the universe of
/// its own level variable, which is at least both sorts.
pub(crate) fn product_type(
    setting: &Setting<'_>,
    formed: Formed,
    found: &mut Gathered,
) -> Result<Term, TypeFault>
    ensures ok { IfOk result (λ ty. ty ≡ product_sort formed) }
    ensures added { OnOk result (found.new.constraints.items ≡ found.old.constraints.items ++ asked_of_product formed setting.now.asked.place) }
    ensures levels { OnOk result (found.new.levels ≡ found.old.levels) }
    ensures err { IfErr result (λ fault. fault ≡ Memory) }
{
    if formed.body.is_none() {
        return match prop(setting.alloc) {
            Ok(ty) => Ok(ty),
            Err(_) => Err(TypeFault::Memory),
        };
    }
    sigma_type(setting, formed, found)
}

/// The end of Sigma: the universe of the node's own level variable, which is at least both sorts.
pub(crate) fn sigma_type(
    setting: &Setting<'_>,
    formed: Formed,
    found: &mut Gathered,
) -> Result<Term, TypeFault>
    ensures ok { IfOk result (λ ty. ty ≡ Univ formed.own) }
    ensures added { OnOk result (found.new.constraints.items ≡ found.old.constraints.items ++ asked_of_former formed setting.now.asked.place) }
    ensures levels { OnOk result (found.new.levels ≡ found.old.levels) }
    ensures err { IfErr result (λ fault. fault ≡ Memory) }
{
    let place = setting.asked.place;
    found.bound(formed.domain, formed.own, place)?;
    found.bound(formed.body, formed.own, place)?;
    universe(setting.alloc, formed.own)
}

/// A universe, which passes no limit.
fn universe(alloc: Global, level: Level) -> Result<Term, TypeFault>
    ensures ok { IfOk result (λ ty. ty ≡ Univ level) }
    ensures err { IfErr result (λ fault. fault ≡ Memory) }
{
    match univ(alloc, level) {
        Ok(ty) => Ok(ty),
        Err(_) => Err(TypeFault::Memory),
    }
}

//! Rule types by the form of the term.
//!
//! - `Prop : Type(0)`. A universe and a Sigma type are in the universe of their own level variable.
//! - A variable has its type, and a constant that of its entry.
//! - `{x:A}B` is in `Prop` where the head form of B's rule type is `Prop`, and else in the universe
//!   of its own level variable.
//! - `[x:A]M : {x:A}B` where M : B.
//! - `M N : B[N]` where the head form of M's rule type is `{x:A}B`.
//! - `(M, N : <x:A>B) : <x:A>B`.
//! - `M.1 : A` and `M.2 : B[M.1]` where the head form of M's rule type is `<x:A>B`.
//! - `[x=M]N` has the rule type of N[M].
//!
//! A part whose rule type isn't used is not looked at; only its nodes are counted.
ghost use Rattle.std.specs.Prelude.{◌≡◌, OnOk};
ghost use Rattle.lego_term.specs.Trees.{Pi, Lam, App, Fst, Snd, Let};
ghost use Rattle.lego_laws.specs.Places.{APair};
ghost use Rattle.lego_inference.specs.Entries.{laws_entries};
ghost use Rattle.lego_inference.specs.Locals.{site_of};
ghost use Rattle.lego_rule_types.specs.private.Finding.{IsPlaced, Finds, FindsHead, FindsFormer, sigma_tree};

use crate::head::{Former, head_of, product_in, sigma_in};
use crate::made::{
    constant, instance, own_universe, product, product_type, prop_type, second_component,
    sigma_former,
};
use crate::nodes::behind;
use crate::scope::{Setting, variable};
use lego_inference::{Locals, TypeFault};
use lego_term::{Binder, Mark, Node, Term};

/// The rule type of the term, whose nodes are numbered from `first` on.
#[cycle(rule)]
pub(crate) fn rule(
    setting: &Setting<'_>,
    locals: &mut Locals,
    m: &Term,
    first: u32,
) -> Result<Option<Term>, TypeFault>
    requires { IsPlaced (laws_entries setting.now.signature.now) (site_of locals.old first) m.now }
    ensures found { Finds (laws_entries setting.now.signature.now) setting.now.limit (site_of locals.old first) m.now result }
    ensures kept { OnOk result (locals.new ≡ locals.old) }
{
    match m.view() {
        Node::Prop => Ok(Some(prop_type(setting.alloc)?)),
        Node::Univ(_) => Ok(Some(own_universe(setting.alloc, first)?)),
        Node::Sigma(_, _, _) => Ok(Some(own_universe(setting.alloc, first)?)),
        Node::Var(index) => Ok(Some(variable(setting.alloc, locals, index)?)),
        Node::Const(number) => Ok(Some(constant(setting, number)?)),
        Node::Pair(binder, domain, body, _, _) => {
            Ok(Some(sigma_former(setting.alloc, binder, domain, body)?))
        }
        Node::Pi(binder, domain, body) => {
            product_rule(setting, locals, binder, domain, body, first)
        }
        Node::Lam(binder, domain, body) => {
            abstraction(setting, locals, binder, domain, body, first)
        }
        Node::App(mark, function, argument) => {
            application(setting, locals, mark, function, argument, first)
        }
        Node::Fst(of) => first_projection(setting, locals, of, first),
        Node::Snd(of) => second_projection(setting, locals, m, of, first),
        Node::Local(binder, value, body) => local(setting, locals, binder, value, body, first),
    }
}

/// The head form of the term's rule type.
#[cycle(rule)]
fn head_at(
    setting: &Setting<'_>,
    locals: &mut Locals,
    m: &Term,
    first: u32,
) -> Result<Option<Term>, TypeFault>
    requires { IsPlaced (laws_entries setting.now.signature.now) (site_of locals.old first) m.now }
    ensures found { FindsHead (laws_entries setting.now.signature.now) setting.now.limit (site_of locals.old first) m.now result }
    ensures kept { OnOk result (locals.new ≡ locals.old) }
{
    let Some(ty) = rule(setting, locals, m, first)? else {
        return Ok(None);
    };
    let form = head_of(setting, locals, &ty)?;
    Ok(Some(form))
}

/// A product, by the head form of its body's rule type.
#[cycle(rule)]
fn product_rule(
    setting: &Setting<'_>,
    locals: &mut Locals,
    binder: Binder,
    domain: &Term,
    body: &Term,
    first: u32,
) -> Result<Option<Term>, TypeFault>
    requires { IsPlaced (laws_entries setting.now.signature.now) (site_of locals.old first) (Pi binder domain.now body.now) }
    ensures found { Finds (laws_entries setting.now.signature.now) setting.now.limit (site_of locals.old first) (Pi binder domain.now body.now) result }
    ensures kept { OnOk result (locals.new ≡ locals.old) }
{
    let next = behind(setting.alloc, domain, first + 1)?;
    locals.push(binder, domain)?;
    let found = head_at(setting, locals, body, next)?;
    locals.pop();
    let Some(sort) = found else {
        return Ok(None);
    };
    let ty = product_type(setting.alloc, &sort, first)?;
    Ok(Some(ty))
}

/// A function, by its body's rule type.
#[cycle(rule)]
fn abstraction(
    setting: &Setting<'_>,
    locals: &mut Locals,
    binder: Binder,
    domain: &Term,
    body: &Term,
    first: u32,
) -> Result<Option<Term>, TypeFault>
    requires { IsPlaced (laws_entries setting.now.signature.now) (site_of locals.old first) (Lam binder domain.now body.now) }
    ensures found { Finds (laws_entries setting.now.signature.now) setting.now.limit (site_of locals.old first) (Lam binder domain.now body.now) result }
    ensures kept { OnOk result (locals.new ≡ locals.old) }
{
    let next = behind(setting.alloc, domain, first)?;
    locals.push(binder, domain)?;
    let found = rule(setting, locals, body, next)?;
    locals.pop();
    let Some(codomain) = found else {
        return Ok(None);
    };
    let ty = product(setting.alloc, binder, domain, &codomain)?;
    Ok(Some(ty))
}

/// An application, by the product that its function's rule type comes to.
#[cycle(rule)]
fn application(
    setting: &Setting<'_>,
    locals: &mut Locals,
    mark: Mark,
    function: &Term,
    argument: &Term,
    first: u32,
) -> Result<Option<Term>, TypeFault>
    requires { IsPlaced (laws_entries setting.now.signature.now) (site_of locals.old first) (App mark function.now argument.now) }
    ensures found { Finds (laws_entries setting.now.signature.now) setting.now.limit (site_of locals.old first) (App mark function.now argument.now) result }
    ensures kept { OnOk result (locals.new ≡ locals.old) }
{
    let Some(form) = head_at(setting, locals, function, first)? else {
        return Ok(None);
    };
    let Some(former) = product_in(&form)? else {
        return Ok(None);
    };
    let ty = instance(setting.alloc, &former.body, argument)?;
    Ok(Some(ty))
}

/// The Sigma type that a pair's rule type comes to.
#[cycle(rule)]
fn projected(
    setting: &Setting<'_>,
    locals: &mut Locals,
    of: &Term,
    first: u32,
) -> Result<Option<Former>, TypeFault>
    requires { IsPlaced (laws_entries setting.now.signature.now) (site_of locals.old first) of.now }
    ensures found { FindsFormer sigma_tree APair (laws_entries setting.now.signature.now) setting.now.limit (site_of locals.old first) of.now result }
    ensures kept { OnOk result (locals.new ≡ locals.old) }
{
    let Some(form) = head_at(setting, locals, of, first)? else {
        return Ok(None);
    };
    sigma_in(&form)
}

/// A first component.
#[cycle(rule)]
fn first_projection(
    setting: &Setting<'_>,
    locals: &mut Locals,
    of: &Term,
    first: u32,
) -> Result<Option<Term>, TypeFault>
    requires { IsPlaced (laws_entries setting.now.signature.now) (site_of locals.old first) (Fst of.now) }
    ensures found { Finds (laws_entries setting.now.signature.now) setting.now.limit (site_of locals.old first) (Fst of.now) result }
    ensures kept { OnOk result (locals.new ≡ locals.old) }
{
    let Some(former) = projected(setting, locals, of, first)? else {
        return Ok(None);
    };
    Ok(Some(former.domain))
}

/// A second component, which is the whole term.
#[cycle(rule)]
fn second_projection(
    setting: &Setting<'_>,
    locals: &mut Locals,
    whole: &Term,
    of: &Term,
    first: u32,
) -> Result<Option<Term>, TypeFault>
    requires whole { whole.now ≡ Snd of.now }
    requires placed { IsPlaced (laws_entries setting.now.signature.now) (site_of locals.old first) (Snd of.now) }
    ensures found { Finds (laws_entries setting.now.signature.now) setting.now.limit (site_of locals.old first) (Snd of.now) result }
    ensures kept { OnOk result (locals.new ≡ locals.old) }
{
    let Some(former) = projected(setting, locals, of, first)? else {
        return Ok(None);
    };
    let ty = second_component(setting.alloc, whole, of, &former.body)?;
    Ok(Some(ty))
}

/// A local definition, by its body with the value put in.
#[cycle(rule)]
fn local(
    setting: &Setting<'_>,
    locals: &mut Locals,
    binder: Binder,
    value: &Term,
    body: &Term,
    first: u32,
) -> Result<Option<Term>, TypeFault>
    requires { IsPlaced (laws_entries setting.now.signature.now) (site_of locals.old first) (Let binder value.now body.now) }
    ensures found { Finds (laws_entries setting.now.signature.now) setting.now.limit (site_of locals.old first) (Let binder value.now body.now) result }
    ensures kept { OnOk result (locals.new ≡ locals.old) }
{
    let next = behind(setting.alloc, value, first)?;
    let with_value = instance(setting.alloc, body, value)?;
    rule(setting, locals, &with_value, next)
}

//! Head forms of rule types, and the refusal of one that is not as its place wants it.
ghost use Rattle.std.specs.Prelude.{◌≡◌, ◌≤◌, IfOk, IfErr};
ghost use Rattle.lego_term.specs.Trees.{loose};
ghost use Rattle.lego_laws.specs.Places.{AType, AFunction, APair};
ghost use Rattle.lego_laws.specs.Ranges.{sort_term};
ghost use Rattle.lego_inference.specs.declared.fault.TypeFault.TheVariants.{Memory};
ghost use Rattle.lego_inference.specs.Entries.{laws_entries};
ghost use Rattle.lego_inference.specs.Locals.{binders_of};
ghost use Rattle.lego_inference.specs.private.Judging.{FindsHead, product_of as product_tree, sigma_of as sigma_tree};
ghost use Rattle.lego_inference.specs.private.Wanting.{want_of, IsHeadOf, IsIn, Wrongs};

use crate::fault::TypeFault;
use crate::locals::Locals;
use crate::setting::{Setting, seen};
use lego_reduce::{ReduceFault, head};
use lego_term::{Binder, Level, Node, Term};

/// A product or a Sigma type.
#[derive(Drop)]
pub(crate) struct Former {
    pub(crate) binder: Binder,
    pub(crate) domain: Term,
    pub(crate) body: Term,
}

/// What is wanted of a head form.
#[derive(Debug, Clone, Copy, PartialEq, Eq)]
pub(crate) enum Wanted {
    Sort,
    Function,
    Pair,
}

/// The sort that the head form of the term's rule type is.
pub(crate) fn sort_of(
    setting: &Setting<'_>,
    locals: &Locals,
    term: &Term,
    ty: &Term,
) -> Result<Option<Level>, TypeFault>
    requires { loose ty.now ≤ 65536 }
    ensures { FindsHead sort_term (laws_entries setting.now.signature.now) setting.now.asked (binders_of locals.now) term.now AType ty.now result }
{
    let found = head_of(setting, locals, ty)?;
    sort_in(locals, term, ty, &found)
}

/// The sort, where this is the head form.
fn sort_in(
    locals: &Locals,
    term: &Term,
    ty: &Term,
    found: &Term,
) -> Result<Option<Level>, TypeFault>
    ensures { IsIn sort_term AType (binders_of locals.now) term.now ty.now found.now result }
{
    match found.view() {
        Node::Prop => Ok(None),
        Node::Univ(level) => Ok(Some(level)),
        _ => Err(wrong(Wanted::Sort, locals, term, ty)),
    }
}

/// The product that the head form of the term's rule type is.
pub(crate) fn product_of(
    setting: &Setting<'_>,
    locals: &Locals,
    term: &Term,
    ty: &Term,
) -> Result<Former, TypeFault>
    requires { loose ty.now ≤ 65536 }
    ensures { FindsHead product_tree (laws_entries setting.now.signature.now) setting.now.asked (binders_of locals.now) term.now AFunction ty.now result }
{
    let found = head_of(setting, locals, ty)?;
    product_in(locals, term, ty, &found)
}

/// The product, where this is the head form.
fn product_in(locals: &Locals, term: &Term, ty: &Term, found: &Term) -> Result<Former, TypeFault>
    ensures { IsIn product_tree AFunction (binders_of locals.now) term.now ty.now found.now result }
{
    match found.view() {
        Node::Pi(binder, domain, body) => shared(binder, domain, body),
        _ => Err(wrong(Wanted::Function, locals, term, ty)),
    }
}

/// The Sigma type that the head form of the term's rule type is.
pub(crate) fn sigma_of(
    setting: &Setting<'_>,
    locals: &Locals,
    term: &Term,
    ty: &Term,
) -> Result<Former, TypeFault>
    requires { loose ty.now ≤ 65536 }
    ensures { FindsHead sigma_tree (laws_entries setting.now.signature.now) setting.now.asked (binders_of locals.now) term.now APair ty.now result }
{
    let found = head_of(setting, locals, ty)?;
    sigma_in(locals, term, ty, &found)
}

/// The Sigma type, where this is the head form.
fn sigma_in(locals: &Locals, term: &Term, ty: &Term, found: &Term) -> Result<Former, TypeFault>
    ensures { IsIn sigma_tree APair (binders_of locals.now) term.now ty.now found.now result }
{
    match found.view() {
        Node::Sigma(binder, domain, body) => shared(binder, domain, body),
        _ => Err(wrong(Wanted::Pair, locals, term, ty)),
    }
}

/// The parts of a product or a Sigma type, shared.
fn shared(binder: Binder, domain: &Term, body: &Term) -> Result<Former, TypeFault>
    ensures ok { IfOk result (λ made. made ≡ record { binder = binder; domain = domain.now; body = body.now }) }
    ensures err { IfErr result (λ fault. fault ≡ Memory) }
{
    Ok(Former {
        binder,
        domain: domain.share()?,
        body: body.share()?,
    })
}

/// The head form of a rule type.
fn head_of(setting: &Setting<'_>, locals: &Locals, ty: &Term) -> Result<Term, TypeFault>
    requires { loose ty.now ≤ 65536 }
    ensures { IsHeadOf (laws_entries setting.now.signature.now) setting.now.asked.limit (binders_of locals.now) ty.now result }
{
    match head(
        setting.alloc,
        setting.signature.bodies(),
        ty,
        setting.asked.limit,
    ) {
        Ok(reduced) => Ok(reduced.term),
        Err(ReduceFault::Budget) => {
            let left = seen(locals, ty)?;
            Err(TypeFault::Budget { left, right: None })
        }
        Err(ReduceFault::TooLarge { size, depth }) => Err(TypeFault::TooLarge { size, depth }),
        Err(ReduceFault::Memory) => Err(TypeFault::Memory),
    }
}

/// The refusal of a term whose rule type has no such head form.
fn wrong(wanted: Wanted, locals: &Locals, term: &Term, ty: &Term) -> TypeFault
    ensures { Wrongs (want_of wanted) (binders_of locals.now) term.now ty.now result }
{
    let (Ok(term), Ok(got)) = (seen(locals, term), seen(locals, ty)) else {
        return TypeFault::Memory;
    };
    match wanted {
        Wanted::Sort => TypeFault::NotAType { term, got },
        Wanted::Function => TypeFault::NotAFunction { term, got },
        Wanted::Pair => TypeFault::NotAPair { term, got },
    }
}

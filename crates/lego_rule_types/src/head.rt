//! Head forms of rule types.
ghost use Rattle.std.specs.Prelude.{◌≡◌, ◌≤◌, Some, IfOk, IfErr};
ghost use Rattle.lego_term.specs.Trees.{loose};
ghost use Rattle.lego_laws.specs.Places.{AFunction, APair};
ghost use Rattle.lego_inference.specs.declared.fault.TypeFault.TheVariants.{Memory};
ghost use Rattle.lego_inference.specs.Entries.{laws_entries};
ghost use Rattle.lego_inference.specs.Locals.{binders_of};
ghost use Rattle.lego_inference.specs.private.Wanting.{IsHeadOf};
ghost use Rattle.lego_rule_types.specs.private.Finding.{product_tree, sigma_tree, IsIn};

use crate::scope::{Setting, seen};
use lego_inference::{Locals, TypeFault};
use lego_reduce::{ReduceFault, head};
use lego_term::{Binder, Node, Term};

/// A product or a Sigma type.
#[derive(Drop)]
pub(crate) struct Former {
    pub(crate) binder: Binder,
    pub(crate) domain: Term,
    pub(crate) body: Term,
}

/// The product, where the head form is one.
pub(crate) fn product_in(form: &Term) -> Result<Option<Former>, TypeFault>
    ensures { IsIn product_tree AFunction form.now result }
{
    match form.view() {
        Node::Pi(binder, domain, body) => shared(binder, domain, body),
        _ => Ok(None),
    }
}

/// The Sigma type, where the head form is one.
pub(crate) fn sigma_in(form: &Term) -> Result<Option<Former>, TypeFault>
    ensures { IsIn sigma_tree APair form.now result }
{
    match form.view() {
        Node::Sigma(binder, domain, body) => shared(binder, domain, body),
        _ => Ok(None),
    }
}

/// The parts of a product or a Sigma type, shared.
fn shared(binder: Binder, domain: &Term, body: &Term) -> Result<Option<Former>, TypeFault>
    ensures ok { IfOk result (λ made. made ≡ Some (record { binder = binder; domain = domain.now; body = body.now })) }
    ensures err { IfErr result (λ fault. fault ≡ Memory) }
{
    Ok(Some(Former {
        binder,
        domain: domain.share()?,
        body: body.share()?,
    }))
}

/// The head form of a rule type.
pub(crate) fn head_of(setting: &Setting<'_>, locals: &Locals, ty: &Term) -> Result<Term, TypeFault>
    requires { loose ty.now ≤ 65536 }
    ensures { IsHeadOf (laws_entries setting.now.signature.now) setting.now.limit (binders_of locals.now) ty.now result }
{
    match head(setting.alloc, setting.signature.bodies(), ty, setting.limit) {
        Ok(reduced) => Ok(reduced.term),
        Err(ReduceFault::Budget) => {
            let left = seen(setting.alloc, locals, ty)?;
            Err(TypeFault::Budget { left, right: None })
        }
        Err(ReduceFault::TooLarge { size, depth }) => Err(TypeFault::TooLarge { size, depth }),
        Err(ReduceFault::Memory) => Err(TypeFault::Memory),
    }
}

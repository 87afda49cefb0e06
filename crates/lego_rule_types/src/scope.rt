//! What a search works with, and the local variables where a term stands.
ghost use Rattle.std.specs.Prelude.{◌≡◌, ◌<◌, suc, length, reverse, slice_get, Some, IfOk, IfErr};
ghost use Rattle.lego_term.specs.Trees.{Core, lift};
ghost use Rattle.lego_laws.specs.RuleTypeLaws.{AreScoped};
ghost use Rattle.lego_inference.specs.declared.fault.TypeFault.TheVariants.{Memory};
ghost use Rattle.lego_inference.specs.Locals.{types_of, binders_of, seen_under};

use lego_inference::{Locals, Signature, TypeFault};
use lego_term::{Binder, List, Seen, Term, lift as lifted};
use std::alloc::{AllocError, Global};

/// What a search works with: the entries, and the most steps of one reduction.
#[derive(Drop)]
pub(crate) struct Setting<'a> {
    pub(crate) alloc: Global,
    pub(crate) signature: &'a Signature,
    pub(crate) limit: u64,
}

/// The same locals, shared.
pub(crate) fn copy_of(alloc: Global, locals: &Locals) -> Result<Locals, AllocError>
    ensures { IfOk result (λ copy. copy ≡ locals.now) }
{
    let mut copy = Locals::new(alloc);
    for at in 0..locals.len() {
        let (binder, ty) = locals.get(at);
        copy.push(binder, ty)?;
    }
    Ok(copy)
}

/// The binders, the outermost first.
fn binders(alloc: Global, locals: &Locals) -> Result<Vec<Binder>, AllocError>
    ensures { IfOk result (λ binders. binders.items ≡ reverse (binders_of locals.now)) }
{
    let mut binders = Vec::new(alloc);
    for at in 0..locals.len() {
        let (binder, _) = locals.get(at);
        binders.push(binder)?;
    }
    Ok(binders)
}

/// The term with the binders of the locals around it.
pub(crate) fn seen(alloc: Global, locals: &Locals, term: &Term) -> Result<Seen, AllocError>
    ensures { IfOk result (λ seen. seen ≡ seen_under (binders_of locals.now) term.now) }
{
    let under = List::of(binders(alloc, locals)?);
    let term = term.share()?;
    Ok(Seen { under, term })
}

/// The type of a local variable, by its index.
pub(crate) fn variable(alloc: Global, locals: &Locals, index: u32) -> Result<Term, TypeFault>
    requires within { index < length locals.now }
    requires scoped { AreScoped (types_of locals.now) }
    ensures ok { IfOk result (λ ty. (a : Core) × (slice_get (types_of locals.now) index ≡ Some a) × (ty ≡ lift 0 (suc index) a)) }
    ensures err { IfErr result (λ fault. fault ≡ Memory) }
{
    let (_, ty) = locals.get(locals.len() - 1 - index);
    match lifted(alloc, ty, 0, index + 1) {
        Ok(ty) => Ok(ty),
        Err(_) => Err(TypeFault::Memory),
    }
}

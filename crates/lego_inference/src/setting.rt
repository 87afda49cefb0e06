//! What a check works with.
ghost use Rattle.std.specs.Prelude.{◌≡◌, IfOk};
ghost use Rattle.lego_inference.specs.Locals.{binders_of, seen_under};

use crate::entry::At;
use crate::locals::Locals;
use crate::signature::Signature;
use lego_term::{List, Seen, Term};
use std::alloc::{AllocError, Global};

/// What a check works with: the entries, and where and within which limit it was asked for.
#[derive(Drop)]
pub(crate) struct Setting<'a> {
    pub(crate) alloc: Global,
    pub(crate) signature: &'a Signature,
    pub(crate) asked: At,
}

/// A binder with what stands at it and under it.
#[derive(Clone, Copy)]
pub(crate) struct Bound<'a> {
    pub(crate) binder: lego_term::Binder,
    pub(crate) domain: &'a Term,
    pub(crate) body: &'a Term,
}

/// The term with the binders of the locals around it.
pub(crate) fn seen(locals: &Locals, term: &Term) -> Result<Seen, AllocError>
    ensures { IfOk result (λ seen. seen ≡ seen_under (binders_of locals.now) term.now) }
{
    let under = List::of(locals.binders()?);
    let term = term.share()?;
    Ok(Seen { under, term })
}

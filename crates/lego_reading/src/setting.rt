//! What a reading works with.
ghost use Rattle.std.specs.Prelude.{◌≡◌, IfOk};
ghost use Rattle.lego_reading.specs.Failures.{seen_in};

use crate::scope::Scope;
use lego_base::Place;
use lego_context::Context;
use lego_term::{List, Seen, Term};
use std::alloc::{AllocError, Global};

/// What a reading works with: the context, the places of the written `Type`s, and the most steps
/// of one reduction.
#[derive(Clone, Copy)]
pub(crate) struct Setting<'a> {
    pub(crate) alloc: Global,
    pub(crate) context: &'a Context,
    pub(crate) places: &'a [Place],
    pub(crate) limit: u64,
}

/// A term with what is in scope as the binders around it.
pub(crate) fn seen(scope: &Scope, term: &Term) -> Result<Seen, AllocError>
    ensures { IfOk result (λ seen. seen ≡ seen_in scope.now term.now) }
{
    let under = List::of(scope.binders()?);
    let term = term.share()?;
    Ok(Seen { under, term })
}

//! The parts of a session, which commands change.
ghost use Rattle.lego_context.specs.Entries.{HasNoHole};
ghost use Rattle.lego_session.specs.private.Refusals.{IsRefusalOf};

use crate::refusal::{Cause, Refusal};
use lego_base::{Names, Place};
use lego_undo::{History, State};
use std::alloc::Global;

/// The present state, and what undoes the steps so far.
#[derive(Drop)]
pub(crate) struct Parts {
    pub alloc: Global,
    pub state: State,
    pub history: History,
}

impl Parts {
    /// The refusal for a cause, over the entries as they are.
    pub(crate) fn refusal(&self, names: &Names, place: Place, cause: Cause) -> Refusal
        requires { HasNoHole self.now.state.context.entries }
        ensures { IsRefusalOf names.now self.now.state.context.entries place cause result.place result.cause result.text }
    {
        Refusal::of(self.alloc, names, &self.state.context, place, cause)
    }
}

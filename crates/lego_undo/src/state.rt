//! States of a session.
ghost use Rattle.std.specs.Prelude.{◌≡◌, ◌↔◌, IfOk, IsTrue};
ghost use Rattle.lego_context.specs.Contexts.{IsContext};
ghost use Rattle.lego_context.specs.Forgetting.{CanBeForgotten, front_of};
ghost use Rattle.lego_undo.specs.Histories.{HasExtent, extent_of, front};
ghost use Rattle.lego_undo.specs.Changes.{IsFrontOf};

use crate::change::Extent;
use crate::same::begins_with;
use lego_context::Context;
use std::alloc::AllocError;

/// What commands change: the context.
#[derive(Drop)]
pub struct State {
    pub context: Context,
}

impl State {
    /// How much there is.
    pub fn extent(&self) -> Extent
        ensures exact { result ≡ extent_of self.now }
        ensures context { IsContext self.now.context }
    {
        Extent {
            entries: self.context.len(),
            universes: self.context.universes().len(),
            levels: self.context.levels(),
        }
    }

    /// An equal state, which shares the terms.
    pub fn copy(&self) -> Result<State, AllocError>
        ensures { IfOk result (λ state. state ≡ self.now) }
    {
        let context = self.context.copy()?;
        Ok(State { context })
    }

    /// Takes back what was added behind the extent. It takes no memory, and looks at nothing that
    /// stays.
    pub fn cut_to(&mut self, extent: Extent)
        requires { HasExtent extent self.old }
        ensures { self.new ≡ front extent self.old }
    {
        self.context
            .cut_to(extent.entries, extent.universes, extent.levels);
    }

    /// A state of the entries before a place, with the universes that they use. Its terms are
    /// shared.
    pub(crate) fn before(&self, at: usize) -> Result<State, AllocError>
        requires { CanBeForgotten self.now.context at }
        ensures { IfOk result (λ state. state ≡ record { context = front_of self.now.context at }) }
    {
        let mut context = self.context.copy()?;
        context.forget(at);
        Ok(State { context })
    }

    /// Whether the old state is so much of this one as its extent says.
    pub(crate) fn extends(&self, old: &State) -> bool
        ensures { IsTrue result ↔ IsFrontOf old.now self.now }
    {
        let (context, before) = (&self.context, &old.context);
        before.levels() <= context.levels()
            && begins_with(context.universes(), before.universes())
            && begins_with(context.entries(), before.entries())
    }
}

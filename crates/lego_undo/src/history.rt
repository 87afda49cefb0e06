//! The history of a session.
ghost use Rattle.std.specs.Prelude.{◌≡◌, ◌≤◌, ◌<◌, ◌++◌, [], ◌∷◌, length, take, OnOk, OnErr, IfErr};
ghost use Rattle.lego_context.specs.Forgetting.{CanBeForgotten, front_of};
ghost use Rattle.lego_undo.specs.Histories.{front, old_states, GoesWith, HasExtent};
ghost use Rattle.lego_undo.specs.Changes.{Notes, Undoes, IsTooFar};
ghost use Rattle.lego_undo.specs.private.Last.{UndoesLast};
ghost use Rattle.lego_undo.specs.declared.change.Change.TheVariants.{Cut, Whole};

use crate::change::{Change, Extent};
use crate::state::State;
use crate::undo_fault::UndoFault;
use std::alloc::{AllocError, Global};
use std::marker::Model;
use std::mem;

/// The changes of the steps that count for undoing, which contracts see as a list, the oldest
/// first. With the state behind the last step they give the state before each step.
#[derive(Drop)]
pub struct History {
    changes: Vec<Change>,
}

impl Model for History {
    ghost use Rattle.std.specs.Prelude.{List};
    ghost use Rattle.lego_undo.specs.declared.change.Change.{Change};
    ghost use Rattle.std.specs.Coded.{coded_list};
    ghost use Rattle.lego_undo.specs.private.ChangeCode.{change_code};

    ghost Value = { List Change };

    ghost coded = { coded_list change_code };

    ghost view = { λ h. h.changes.items };
}

impl History {
    /// No step.
    pub fn new(alloc: Global) -> History
        ensures { result ≡ [] }
    {
        History {
            changes: Vec::new(alloc),
        }
    }

    /// What undoes each step, the oldest first.
    pub fn changes(&self) -> &[Change]
        ensures { result.now ≡ self.now }
    {
        self.changes.as_slice()
    }

    /// How many steps are held.
    pub fn held(&self) -> u64
        ensures { result ≡ length self.now }
    {
        self.changes.len() as u64
    }

    /// Notes a step from `old` to `new`: as a cut where the old state is so much of the new one as
    /// its extent says, and else as a whole copy of the old state. Each old entry is compared, its
    /// terms node by node.
    ///
    /// # Errors
    ///
    /// Memory ran out; the history is then as before.
    pub fn note(&mut self, old: &State, new: &State) -> Result<(), AllocError>
        requires { GoesWith self.old old.now }
        ensures ok { OnOk result (Notes self.old old.now new.now self.new) }
        ensures err { OnErr result (self.new ≡ self.old) }
    {
        let change = if new.extends(old) {
            let extent = old.extent();
            Change::Cut { extent }
        } else {
            let state = old.copy()?;
            Change::Whole { state }
        };
        self.push(change)
    }

    /// Notes a step that added entries, universes or level variables behind an extent, which was
    /// the old state's. It is noted as a cut, and nothing is compared.
    ///
    /// # Errors
    ///
    /// Memory ran out; the history is then as before.
    pub fn note_growth(&mut self, new: &State, extent: Extent) -> Result<(), AllocError>
        requires within { HasExtent extent new.now }
        requires goes { GoesWith self.old (front extent new.now) }
        ensures ok { OnOk result (Notes self.old (front extent new.now) new.now self.new) }
        ensures cut { OnOk result (self.new ≡ self.old ++ Cut extent ∷ []) }
        ensures err { OnErr result (self.new ≡ self.old) }
    {
        let _extent = new.extent();
        self.push(Change::Cut { extent })
    }

    /// Keeps the entries before a place in the state, with the universes that they use, and notes
    /// that as a step. The old state moves into the history, and the new one is a copy that shares
    /// its terms.
    ///
    /// # Errors
    ///
    /// Memory ran out; state and history are then as before.
    pub fn forget(&mut self, state: &mut State, at: usize) -> Result<(), AllocError>
        requires within { at < length state.old.context.entries }
        requires alone { CanBeForgotten state.old.context at }
        requires goes { GoesWith self.old state.old }
        ensures state { OnOk result (state.new ≡ record { context = front_of state.old.context at }) }
        ensures ok { OnOk result (Notes self.old state.old state.new self.new) }
        ensures whole { OnOk result (self.new ≡ self.old ++ Whole state.old ∷ []) }
        ensures kept { OnErr result (state.new ≡ state.old) }
        ensures err { OnErr result (self.new ≡ self.old) }
    {
        let kept = state.before(at)?;
        // Room first, so that a refusal leaves the state as it was.
        self.changes.reserve(1)?;
        let old = mem::replace(state, kept);
        let Ok(()) = self.changes.push(Change::Whole { state: old }) else {
            unreachable!()
        };
        Ok(())
    }

    /// Takes the last n steps back, without memory.
    ///
    /// # Errors
    ///
    /// `TooFar` exactly where n is more than the steps held; state and history are then as
    /// before.
    pub fn undo(&mut self, state: &mut State, n: u64) -> Result<(), UndoFault>
        requires { GoesWith self.old state.old }
        ensures ok { OnOk result (Undoes self.old state.old n self.new state.new) }
        ensures cause { IfErr result (λ fault. IsTooFar self.old n fault) }
        ensures kept { OnErr result (state.new ≡ state.old) }
        ensures err { OnErr result (self.new ≡ self.old) }
    {
        let held = self.held();
        if n > held {
            return Err(UndoFault::TooFar { asked: n, held });
        }
        for _ in 0..n {
            self.undo_last(state);
        }
        Ok(())
    }

    /// Takes the last step back.
    fn undo_last(&mut self, state: &mut State)
        requires some { 0 < length self.old }
        requires goes { GoesWith self.old state.old }
        ensures { UndoesLast self.old state.old self.new state.new }
    {
        let Some(change) = self.changes.pop() else {
            unreachable!()
        };
        match change {
            Change::Cut { extent } => state.cut_to(extent),
            Change::Whole { state: old } => *state = old,
        }
    }

    /// Adds a change; without room for it the history stays.
    fn push(&mut self, change: Change) -> Result<(), AllocError>
        ensures ok { OnOk result (self.new ≡ self.old ++ change ∷ []) }
        ensures err { OnErr result (self.new ≡ self.old) }
    {
        self.changes.push(change)?;
        Ok(())
    }
}

//! A session: its state and its history, and the commands that change them.
ghost use Rattle.std.specs.Prelude.{◌≡◌, true, false, OnErr, IfOk, IfErr};
ghost use Rattle.lego_grammar.specs.Surface.{written_command};
ghost use Rattle.lego_grammar.specs.WrittenForm.{IsWrittenForm};
ghost use Rattle.lego_context.specs.Entries.{HasNoHole};
ghost use Rattle.lego_undo.specs.Histories.{old_states, GoesWith};
ghost use Rattle.lego_session.specs.Completeness.{IsTypedAct, IsOfLimits};
ghost use Rattle.lego_session.specs.Names.{IsKnownSession, AreBoundHeld};
ghost use Rattle.lego_session.specs.Reading.{is_built};
ghost use Rattle.lego_session.specs.Sessions.{empty_session, context_of, entries_of};
ghost use Rattle.lego_session.specs.Step.{Step, IsRefusal, IsFeasible, counts, bindings_of};
ghost use Rattle.lego_session.specs.private.Refusals.{IsRefusalOf};
ghost use Rattle.lego_session.specs.declared.refusal.Cause.TheVariants.{Memory};

use crate::commands::show::Form;
use crate::parts::Parts;
use crate::refusal::{Cause, Refusal};
use lego_base::{Names, Place};
use lego_context::Context;
use lego_grammar::{Act, Command};
use lego_inference::At;
use lego_term::List;
use lego_undo::{History, State};
use std::alloc::Global;
use std::marker::Model;

/// The answer to an accepted command; `step` says that it counts for Undo.
#[derive(Drop)]
pub struct Answer {
    pub step: bool,
    pub text: List<u8>,
}

/// A session, which contracts see as its present state and the list of the old ones.
#[derive(Drop)]
pub struct Session {
    parts: Parts,
}

impl Model for Session {
    ghost use Rattle.lego_session.specs.Sessions.{Session as TheSession};
    ghost use Rattle.lego_session.specs.private.Parts.{session_of, AreParts};
    ghost use Rattle.lego_session.specs.private.SessionCode.{session_code};

    ghost Value = { TheSession };

    ghost coded = { session_code };

    ghost view = { λ s. session_of s.parts };

    ghost invariant = { λ s. AreParts s.parts };
}

impl Session {
    /// A session with no entry and no step.
    pub fn new(alloc: Global) -> Session
        ensures { result ≡ empty_session }
    {
        Session {
            parts: Parts {
                alloc,
                state: State {
                    context: Context::new(alloc),
                },
                history: History::new(alloc),
            },
        }
    }

    /// The present state.
    pub fn state(&self) -> &State
        ensures { result.now ≡ self.now.now }
    {
        &self.parts.state
    }

    /// What undoes the steps so far.
    pub fn history(&self) -> &History
        ensures states { old_states result.now self.now.now ≡ self.now.history }
        ensures goes { GoesWith result.now self.now.now }
    {
        &self.parts.history
    }

    /// Runs one command of a form that is built: bindings, a term, `Hnf`, `Normal`, `Undo`,
    /// `Forget` or `Ctxt`. The command stands for a written form within the limits, as `parse`
    /// gives it. `limit` is the most steps of one comparison or reduction.
    ///
    /// # Errors
    ///
    /// A refusal, with its place, cause and text; the session is then as before.
    pub fn step(&mut self, names: &Names, command: &Command, limit: u64) -> Result<Answer, Refusal>
        requires form { IsWrittenForm command.now }
        requires built { is_built (written_command command.now).act ≡ true }
        ensures ok { IfOk result (λ answer. Step names.now limit self.old (written_command command.now) (record { refused = false; text = answer.text }) self.new) }
        ensures counts { IfOk result (λ answer. answer.step ≡ counts (written_command command.now).act) }
        ensures cause { IfErr result (λ refusal. IsRefusal names.now limit self.old (written_command command.now) refusal.place refusal.cause refusal.text) }
        ensures err { OnErr result (self.new ≡ self.old) }
        ensures complete { IfErr result (λ refusal. IsFeasible self.old (written_command command.now).act → refusal.cause ≡ Memory) }
        ensures typed { IfErr result (λ refusal. IsTypedAct (context_of self.old) (written_command command.now).act → IsOfLimits refusal.cause) }
        ensures known { IsKnownSession names.now self.old → AreBoundHeld names.now (bindings_of (written_command command.now).act) → IsKnownSession names.now self.new }
    {
        let asked = At {
            place: command.place,
            limit,
        };
        match &command.act {
            Act::Bind { bindings } => {
                self.parts
                    .bind(names, command.place, bindings.items(), limit)
            }
            Act::Hnf { term } => self.parts.show_form(names, Form::Head, term, asked),
            Act::Normal { term } => self.parts.show_form(names, Form::Normal, term, asked),
            Act::Show { term } => self.parts.show(names, term, asked),
            Act::Undo { count } => self.parts.undo(names, command.place, u64::from(*count)),
            Act::Forget { place, name } => self.parts.forget(names, *place, *name),
            Act::Ctxt => self.parts.show_context(names, command.place),
            _ => unreachable!(),
        }
    }

    /// The refusal for a cause, over the entries as they are.
    pub(crate) fn refusal(&self, names: &Names, place: Place, cause: Cause) -> Refusal
        ensures { IsRefusalOf names.now (entries_of self.now) place cause result.place result.cause result.text }
    {
        self.parts.refusal(names, place, cause)
    }

    /// The context, which has no hole.
    pub(crate) fn context(&self) -> &Context
        ensures exact { result.now ≡ context_of self.now }
        ensures no_hole { HasNoHole (entries_of self.now) }
    {
        &self.parts.state.context
    }
}

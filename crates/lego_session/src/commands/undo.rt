//! `Undo n`: the session before the last n steps is back.
ghost use Rattle.std.specs.Prelude.{◌≡◌, ◌++◌, ℕ, false, codes, decimal, OnErr, IfOk, IfErr};
ghost use Rattle.lego_context.specs.Entries.{HasNoHole};
ghost use Rattle.lego_undo.specs.Histories.{GoesWith};
ghost use Rattle.lego_grammar.specs.Written.{Undo};
ghost use Rattle.lego_session.specs.Step.{IsRefusal};
ghost use Rattle.lego_session.specs.commands.Undo.{TakesBack};
ghost use Rattle.lego_session.specs.private.Parts.{session_of};

use crate::parts::Parts;
use crate::refusal::{Cause, Refusal};
use crate::session::Answer;
use crate::text::push_number;
use lego_base::{Names, Place};
use lego_term::List;
use std::alloc::{AllocError, Global};

impl Parts {
    /// Takes the last steps back. The text takes its memory before.
    pub(crate) fn undo(
        &mut self,
        names: &Names,
        place: Place,
        count: u64,
    ) -> Result<Answer, Refusal>
        requires no_hole { HasNoHole self.old.state.context.entries }
        requires goes { GoesWith self.old.history self.old.state }
        ensures ok { IfOk result (λ answer. TakesBack (session_of self.old) count answer.text (session_of self.new)) }
        ensures counts { IfOk result (λ answer. answer.step ≡ false) }
        ensures cause { (limit : ℕ) → IfErr result (λ refusal. IsRefusal names.now limit (session_of self.old) (record { place = place; act = Undo count }) refusal.place refusal.cause refusal.text) }
        ensures err { OnErr result ((self.new.state ≡ self.old.state) × (self.new.history ≡ self.old.history)) }
        ensures still_goes { GoesWith self.new.history self.new.state }
    {
        let Ok(text) = undone_text(self.alloc, count) else {
            return Err(Refusal::memory(self.alloc, place));
        };
        match self.history.undo(&mut self.state, count) {
            Ok(()) => Ok(Answer {
                step: false,
                text: List::of(text),
            }),
            Err(fault) => Err(self.refusal(names, place, Cause::from(fault))),
        }
    }
}

/// The answer `undone n`.
fn undone_text(alloc: Global, count: u64) -> Result<Vec<u8>, AllocError>
    ensures { IfOk result (λ text. text.items ≡ codes "undone " ++ decimal count ++ codes "\n") }
{
    let mut text = Vec::from_slice(alloc, b"undone ")?;
    push_number(&mut text, count)?;
    text.extend_from_slice(b"\n")?;
    Ok(text)
}

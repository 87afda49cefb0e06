//! `Forget x`: the entries before the named one stay.
ghost use Rattle.std.specs.Prelude.{◌≡◌, ◌++◌, ℕ, true, codes, decimal, OnErr, IfOk, IfErr};
ghost use Rattle.lego_context.specs.Entries.{HasNoHole};
ghost use Rattle.lego_undo.specs.Histories.{GoesWith};
ghost use Rattle.lego_base.specs.declared.place.Place.{Place as ThePlace};
ghost use Rattle.lego_grammar.specs.Written.{Forget};
ghost use Rattle.lego_session.specs.Step.{IsRefusal};
ghost use Rattle.lego_session.specs.commands.Forget.{Forgets};
ghost use Rattle.lego_session.specs.private.Parts.{session_of};

use crate::parts::Parts;
use crate::refusal::{Cause, Refusal};
use crate::session::Answer;
use crate::text::push_number;
use lego_base::{Names, Place};
use lego_term::List;
use std::alloc::{AllocError, Global};

impl Parts {
    /// Keeps the entries before the named one; the name stands at the place.
    pub(crate) fn forget(
        &mut self,
        names: &Names,
        place: Place,
        name: u32,
    ) -> Result<Answer, Refusal>
        requires no_hole { HasNoHole self.old.state.context.entries }
        requires goes { GoesWith self.old.history self.old.state }
        ensures ok { IfOk result (λ answer. Forgets (session_of self.old) name answer.text (session_of self.new)) }
        ensures counts { IfOk result (λ answer. answer.step ≡ true) }
        ensures cause { (limit : ℕ) (first : ThePlace) → IfErr result (λ refusal. IsRefusal names.now limit (session_of self.old) (record { place = first; act = Forget (record { place = place; name = name }) }) refusal.place refusal.cause refusal.text) }
        ensures err { OnErr result ((self.new.state ≡ self.old.state) × (self.new.history ≡ self.old.history)) }
        ensures still_goes { GoesWith self.new.history self.new.state }
    {
        let Some(at) = self.state.context.position(name) else {
            return Err(self.refusal(names, place, Cause::UnknownName { name }));
        };
        let dropped = self.state.context.len() - at;
        let Ok(text) = forgot_text(self.alloc, dropped as u64) else {
            return Err(Refusal::memory(self.alloc, place));
        };
        let Ok(()) = self.history.forget(&mut self.state, at) else {
            return Err(Refusal::memory(self.alloc, place));
        };
        Ok(Answer {
            step: true,
            text: List::of(text),
        })
    }
}

/// The answer `forgot` and how many entries went.
fn forgot_text(alloc: Global, dropped: u64) -> Result<Vec<u8>, AllocError>
    ensures { IfOk result (λ text. text.items ≡ codes "forgot " ++ decimal dropped ++ codes "\n") }
{
    let mut text = Vec::from_slice(alloc, b"forgot ")?;
    push_number(&mut text, dropped)?;
    text.extend_from_slice(b"\n")?;
    Ok(text)
}

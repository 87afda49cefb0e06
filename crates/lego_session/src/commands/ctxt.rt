//! `Ctxt`: the line of each entry.
ghost use Rattle.std.specs.Prelude.{◌≡◌, [], false, IfOk, IfErr};
ghost use Rattle.lego_context.specs.Entries.{HasNoHole};
ghost use Rattle.lego_session.specs.commands.Ctxt.{ShowsContext};
ghost use Rattle.lego_session.specs.declared.refusal.Cause.TheVariants.{Memory};

use crate::parts::Parts;
use crate::refusal::Refusal;
use crate::session::Answer;
use crate::text::entry_lines;
use lego_base::{Names, Place};
use lego_term::List;
use std::alloc::AllocError;

impl Parts {
    /// Shows all entries.
    pub(crate) fn show_context(&self, names: &Names, place: Place) -> Result<Answer, Refusal>
        requires { HasNoHole self.now.state.context.entries }
        ensures ok { IfOk result (λ answer. ShowsContext names.now self.now.state.context answer.text) }
        ensures counts { IfOk result (λ answer. answer.step ≡ false) }
        ensures cause { IfErr result (λ refusal. (refusal.cause ≡ Memory) × (refusal.text ≡ [])) }
    {
        match self.all_lines(names) {
            Ok(text) => Ok(Answer {
                step: false,
                text: List::of(text),
            }),
            Err(_) => Err(Refusal::memory(self.alloc, place)),
        }
    }

    /// The line of each entry, at the least levels.
    fn all_lines(&self, names: &Names) -> Result<Vec<u8>, AllocError>
        requires { HasNoHole self.now.state.context.entries }
        ensures { IfOk result (λ text. ShowsContext names.now self.now.state.context text.items) }
    {
        let context = &self.state.context;
        let values = context.least()?;
        entry_lines(self.alloc, names, context, &values, 0)
    }
}

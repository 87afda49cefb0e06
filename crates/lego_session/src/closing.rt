//! What is written behind the answers: the refusal of what stands behind the last `;`, and the
//! development.
ghost use Rattle.std.specs.Prelude.{◌≡◌, ◌&&◌, [], false, IfOk, IfErr, OnOk, OnErr};
ghost use Rattle.lego_session.specs.Headline.{Headline};
ghost use Rattle.lego_session.specs.Names.{IsKnownSession};
ghost use Rattle.lego_session.specs.Refusals.{refusal_text};
ghost use Rattle.lego_session.specs.Runs.{ending_text, is_ending_refused, IsDeveloped};
ghost use Rattle.lego_session.specs.Sessions.{Session as TheSession, context_of};
ghost use Rattle.lego_session.specs.private.Gathered.{HasFailed};
ghost use Rattle.lego_session.specs.private.Pending.{ending_of};
ghost use Rattle.lego_session.specs.private.Progress.{IsFinished, IsCounted, IsClosed, IsClosedInPart};

use crate::gathered::Gathered;
use crate::pending::Rest;
use crate::progress::Progress;
use crate::refusal::Cause;
use crate::refusal_text::refusal_text;
use crate::status::Status;
use lego_base::{Names, Place, Sink};
use lego_context::Context;
use std::alloc::{AllocError, Global};

impl Rest {
    /// Whether it is refused.
    fn is_refused(self) -> bool
        ensures { result ≡ is_ending_refused (ending_of self) }
    {
        match self {
            Rest::Blank => false,
            Rest::Unended { .. } => true,
            Rest::OpenComment { .. } => true,
        }
    }

    /// The text of its refusal, if it is refused.
    fn refusal(self, alloc: Global, names: &Names) -> Result<Vec<u8>, AllocError>
        ensures { IfOk result (λ text. (s : TheSession) → text.items ≡ ending_text names.now s (ending_of self)) }
    {
        match self {
            Rest::Blank => Ok(Vec::new(alloc)),
            Rest::Unended { place } => refusal_of_rest(alloc, names, place, &Cause::Unended),
            Rest::OpenComment { place } => {
                refusal_of_rest(alloc, names, place, &Cause::OpenComment)
            }
        }
    }
}

/// The text of the refusal of what stands behind the last `;`. It names no entry, so any context
/// serves.
fn refusal_of_rest(
    alloc: Global,
    names: &Names,
    place: Place,
    cause: &Cause,
) -> Result<Vec<u8>, AllocError>
    ensures { IfOk result (λ text. text.items ≡ refusal_text names.now [] place cause.now) }
{
    refusal_text(alloc, names, &Context::new(alloc), place, cause)
}

impl Progress {
    /// Writes what follows the answers, and says how the run ended.
    pub(crate) fn finish<K: Sink>(
        &self,
        alloc: Global,
        rest: Rest,
        gathered: &mut Gathered,
        out: &mut K,
    ) -> Status
        requires known { IsKnownSession self.now.names self.now.session }
        requires sent { gathered.old.text.items ≡ [] }
        ensures finished { IsFinished self.now.options.stop self.now.names self.now.session self.now.refused (ending_of rest) (K.taken out.old) (K.taken out.new) result }
        ensures counted { IsCounted (K.faults out.old) (K.faults out.new) result }
    {
        match self.close(alloc, rest, gathered, out) {
            Err(status) => status,
            Ok(()) if self.refused || rest.is_refused() => Status::Refused,
            Ok(()) => Status::Accepted,
        }
    }

    /// Writes what follows the answers.
    fn close<K: Sink>(
        &self,
        alloc: Global,
        rest: Rest,
        gathered: &mut Gathered,
        out: &mut K,
    ) -> Result<(), Status>
        requires known { IsKnownSession self.now.names self.now.session }
        requires sent { gathered.old.text.items ≡ [] }
        ensures ok { OnOk result (IsClosed self.now.options.stop self.now.names self.now.session (ending_of rest) (K.taken out.old) (K.taken out.new)) }
        ensures err { OnErr result (IsClosedInPart self.now.options.stop self.now.names self.now.session (ending_of rest) (K.taken out.old) (K.taken out.new)) }
        ensures kept { OnOk result (K.faults out.new ≡ K.faults out.old) }
        ensures cause { IfErr result (λ status. HasFailed (K.faults out.old) (K.faults out.new) status) }
    {
        let Ok(refusal) = rest.refusal(alloc, &self.names) else {
            return Err(Status::Memory);
        };
        gathered.push(refusal.as_slice(), out)?;
        let Ok(development) = self.developed(alloc, rest) else {
            return Err(Status::Memory);
        };
        gathered.push(development.as_slice(), out)?;
        gathered.send(out)
    }

    /// The development; no text where `--stop` ends the run behind the last command.
    fn developed(&self, alloc: Global, rest: Rest) -> Result<Vec<u8>, AllocError>
        requires known { IsKnownSession self.now.names self.now.session }
        ensures developed { IfOk result (λ text. IsDeveloped self.now.options.stop self.now.names self.now.session (ending_of rest) text.items) }
        ensures headline { IfOk result (λ text. (self.now.options.stop && is_ending_refused (ending_of rest)) ≡ false → Headline self.now.names (context_of self.now.session) text.items) }
    {
        if self.options.stop && rest.is_refused() {
            return Ok(Vec::new(alloc));
        }
        self.session.development(alloc, &self.names)
    }
}

//! The progress of a run: each command is answered when its end was read.
ghost use Rattle.std.specs.Prelude.{◌≡◌, ◌<◌, ◌≤◌, ◌+◌, ◌++◌, ◌&&◌, [], ℕ, List as Items, length, IfSome, IfOk, IfErr, OnOk};
ghost use Rattle.lego_lexer.specs.Commands.{IsCommandText, Cuts};
ghost use Rattle.lego_session.specs.Names.{IsKnownSession};
ghost use Rattle.lego_session.specs.Answers.{Answers};
ghost use Rattle.lego_session.specs.Step.{Reply};
ghost use Rattle.lego_session.specs.private.Gathered.{HasFailed};
ghost use Rattle.lego_base.specs.Place.{behind};
ghost use Rattle.lego_session.specs.Texts.{first_place};
ghost use Rattle.lego_session.specs.private.Pending.{ending_of};
ghost use Rattle.lego_session.specs.private.Progress.{HasAnswered, HasAnsweredSome, IsNext, IsNextWithin, IsFlow, IsHalted, IsPassed, IsEnded, IsCounted, MayGoOn};

use crate::answers::{Answered, answer, refuse_long};
use crate::gathered::Gathered;
use crate::pending::{Pending, Rest, Taken};
use crate::session::Session;
use crate::status::Status;
use lego_base::{MAX_SCRIPT, Names, Sink};
use lego_lexer::MAX_COMMAND;
use lego_term::List;
use lego_words::Options;
use std::alloc::Global;

/// Whether a run goes on.
#[derive(Clone, Copy)]
pub(crate) enum Flow {
    /// More may be read.
    GoesOn,
    /// `--stop` ends the run at the command that was answered last.
    Stops,
}

/// What came of bytes.
#[derive(Drop)]
enum Next {
    /// All were taken, and no command has ended.
    More,
    /// So many were taken, the last of which ends a command, which is answered so.
    Answer { used: usize, text: List<u8> },
}

/// What the commands so far came to, and the bytes behind them.
#[derive(Drop)]
pub(crate) struct Progress {
    alloc: Global,
    pub options: Options,
    pending: Pending,
    pub names: Names,
    pub session: Session,
    /// Whether a command was refused.
    pub refused: bool,
}

impl Progress {
    /// No byte was read.
    pub(crate) fn new(alloc: Global, options: Options) -> Progress
        ensures fresh { HasAnswered result [] [] }
        ensures asked { result.options ≡ options }
    {
        let pending = Pending::new(alloc);
        let names = Names::new(alloc);
        let session = Session::new(alloc);
        Progress {
            alloc,
            options,
            pending,
            names,
            session,
            refused: false,
        }
    }

    /// What stands behind the last command, where no more bytes come.
    pub(crate) fn rest(&self) -> Rest
        ensures { (read : Items ℕ) (answers : Items Reply) (h : HasAnswered self.now read answers) → Cuts (behind first_place h.came) h.bytes [] (ending_of result) }
    {
        self.pending.rest()
    }

    /// Answers the command that has ended, which has so many bytes.
    fn answer(&mut self, count: usize) -> Option<Answered>
        requires known { IsKnownSession self.old.names self.old.session }
        requires line { self.old.pending.first.line + count ≤ 33554433 }
        requires column { self.old.pending.first.column + count ≤ 33554433 }
        requires text { count ≤ MAX_COMMAND → IsCommandText self.old.pending.kept.items }
        requires few { count ≤ MAX_COMMAND → length self.old.pending.kept.items ≤ count }
        ensures others { self.new ≡ record self.old { names = self.new.names; session = self.new.session } }
        ensures answered { IfSome result (λ a. (bytes : Items ℕ) → count ≡ length bytes → (count ≤ MAX_COMMAND → self.old.pending.kept.items ≡ bytes) → Answers self.old.options.steps self.old.names self.old.session (record { place = self.old.pending.first; bytes = bytes }) (record { refused = a.refused; text = a.text }) self.new.names self.new.session) }
        ensures still_known { IfSome result (λ a. IsKnownSession self.new.names self.new.session) }
    {
        let place = self.pending.first;
        if count > MAX_COMMAND {
            return refuse_long(&self.names, &self.session, place, count);
        }
        answer(
            self.alloc,
            &mut self.names,
            &mut self.session,
            self.options.steps,
            place,
            self.pending.kept.as_slice(),
        )
    }

    /// Whether `--stop` ends the run.
    fn stops(&self) -> bool
        ensures { result ≡ (self.now.options.stop && self.now.refused) }
    {
        self.options.stop && self.refused
    }

    /// Takes the next bytes up to the end of a command, which is answered, or all; `None` where
    /// memory ran out.
    fn answer_next(&mut self, bytes: &[u8]) -> Option<Next>
        requires some { HasAnsweredSome self.old }
        requires goes_on { MayGoOn self.old }
        requires few { self.old.pending.cutter.fed + length bytes.now ≤ MAX_SCRIPT }
        ensures next { IfSome result (λ next. (read : Items ℕ) (answers : Items Reply) → HasAnswered self.old read answers → IsNext self.new read answers bytes.now next) }
        ensures within { IfSome result (λ next. IsNextWithin bytes.now next) }
        ensures asked { self.new.options ≡ self.old.options }
    {
        let Ok(taken) = self.pending.take(bytes) else {
            return None;
        };
        match taken {
            Taken::More => Some(Next::More),
            Taken::Command { used, count } => {
                let answered = self.answer(count)?;
                self.refused |= answered.refused;
                Some(Next::Answer {
                    used,
                    text: answered.text,
                })
            }
        }
    }

    /// Answers the commands that end in a piece. Their answers are gathered.
    fn answer_piece<K: Sink>(
        &mut self,
        piece: &[u8],
        gathered: &mut Gathered,
        out: &mut K,
    ) -> Result<Flow, Status>
        requires some { HasAnsweredSome self.old }
        requires goes_on { MayGoOn self.old }
        requires few { self.old.pending.cutter.fed + length piece.now ≤ MAX_SCRIPT }
        requires sent { gathered.old.text.items ≡ [] }
        ensures ok { IfOk result (λ flow. (read : Items ℕ) (answers : Items Reply) → HasAnswered self.old read answers → IsFlow self.new read answers piece.now gathered.new.text.items (K.taken out.old) (K.taken out.new) flow) }
        ensures err { IfErr result (λ status. (read : Items ℕ) (answers : Items Reply) → HasAnswered self.old read answers → IsHalted self.old.options answers (read ++ piece.now) (K.taken out.old) (K.taken out.new)) }
        ensures kept { OnOk result (K.faults out.new ≡ K.faults out.old) }
        ensures cause { IfErr result (λ status. HasFailed (K.faults out.old) (K.faults out.new) status) }
        ensures asked { self.new.options ≡ self.old.options }
    {
        let mut at = 0;
        while at < piece.len() {
            let Some(next) = self.answer_next(&piece[at..]) else {
                return Err(Status::Memory);
            };
            match next {
                Next::More => return Ok(Flow::GoesOn),
                Next::Answer { used, text } => {
                    at += used;
                    gathered.push(text.items(), out)?;
                }
            }
            if self.stops() {
                return Ok(Flow::Stops);
            }
        }
        Ok(Flow::GoesOn)
    }

    /// Answers the commands that end in a piece, within the limit of bytes, and sends the answers.
    ///
    /// # Errors
    ///
    /// How the run ends here: `Refused` where `--stop` ends it, `TooLong` behind the limit,
    /// `WriteFault` or `Memory`.
    pub(crate) fn pass<K: Sink>(
        &mut self,
        piece: &[u8],
        gathered: &mut Gathered,
        out: &mut K,
    ) -> Result<(), Status>
        requires some { HasAnsweredSome self.old }
        requires goes_on { MayGoOn self.old }
        requires few { self.old.pending.cutter.fed ≤ MAX_SCRIPT }
        requires sent { gathered.old.text.items ≡ [] }
        ensures ok { OnOk result ((read : Items ℕ) (answers : Items Reply) → HasAnswered self.old read answers → IsPassed self.new read answers piece.now (K.taken out.old) (K.taken out.new)) }
        ensures err { IfErr result (λ status. (read : Items ℕ) (answers : Items Reply) → HasAnswered self.old read answers → IsEnded self.new read answers piece.now (K.taken out.old) (K.taken out.new) status) }
        ensures none { OnOk result (gathered.new.text.items ≡ []) }
        ensures kept { OnOk result (K.faults out.new ≡ K.faults out.old) }
        ensures cause { IfErr result (λ status. IsCounted (K.faults out.old) (K.faults out.new) status) }
        ensures asked { self.new.options ≡ self.old.options }
    {
        let room = MAX_SCRIPT.saturating_sub(self.pending.fed());
        let within = &piece[..piece.len().min(room)];
        let flow = match self.answer_piece(within, gathered, out) {
            Ok(flow) => flow,
            Err(status) => return Err(status),
        };
        if let Err(status) = gathered.send(out) {
            return Err(status);
        }
        match flow {
            Flow::Stops => Err(Status::Refused),
            Flow::GoesOn => {
                if within.len() < piece.len() {
                    let _rest = self.rest();
                    return Err(Status::TooLong);
                }
                Ok(())
            }
        }
    }
}

//! The answers to the bytes of commands.
ghost use Rattle.std.specs.Prelude.{◌≡◌, ◌≤◌, ◌<◌, ◌+◌, ℕ, List as Items, true, length, IfSome, IfNone};
ghost use Rattle.lego_lexer.specs.Commands.{IsCommandText};
ghost use Rattle.lego_grammar.specs.Surface.{written_command};
ghost use Rattle.lego_grammar.specs.WrittenForm.{IsWrittenForm};
ghost use Rattle.lego_session.specs.Answers.{Answers};
ghost use Rattle.lego_session.specs.Names.{AreBoundHeld, IsKnownSession};
ghost use Rattle.lego_session.specs.Reading.{is_built};
ghost use Rattle.lego_session.specs.Step.{Step, bindings_of};
ghost use Rattle.lego_session.specs.private.Unread.{IsWritten};

use crate::command_text::read_command;
use crate::refusal::{Cause, Refusal};
use crate::session::{Answer, Session};
use lego_base::{Names, Place};
use lego_grammar::Command;
use lego_term::List;
use std::alloc::Global;

/// What is written for a command, and whether it was refused.
#[derive(Drop)]
pub(crate) struct Answered {
    pub refused: bool,
    pub text: List<u8>,
}

/// Reads and runs one command, whose first byte stands at the place; `None` where memory
/// ran out.
pub(crate) fn answer(
    alloc: Global,
    names: &mut Names,
    session: &mut Session,
    limit: u64,
    place: Place,
    bytes: &[u8],
) -> Option<Answered>
    requires known { IsKnownSession names.old session.old }
    requires line { place.line + length bytes.now ≤ 33554433 }
    requires column { place.column + length bytes.now ≤ 33554433 }
    requires some { length bytes.now ≤ 16777216 }
    requires text { IsCommandText bytes.now }
    ensures answered { IfSome result (λ a. Answers limit names.old session.old (record { place = place; bytes = bytes.now }) (record { refused = a.refused; text = a.text }) names.new session.new) }
    ensures still_known { IfSome result (λ a. IsKnownSession names.new session.new) }
    ensures none { IfNone result (session.new ≡ session.old) }
{
    // So no more names are held than the limit.
    let _held = names.len();
    let outcome = read_command(alloc, names, place, bytes);
    // So each text has one number, and there are no more than the limit.
    let _count = names.len();
    match outcome {
        Ok(command) => run_command(names, session, limit, command),
        Err(unread) => written(Err(session.refusal(names, unread.place, unread.cause))),
    }
}

/// Refuses a command of so many bytes, which are too many.
pub(crate) fn refuse_long(
    names: &Names,
    session: &Session,
    place: Place,
    count: usize,
) -> Option<Answered>
    requires { 65536 < count }
    ensures { IfSome result (λ a. (limit : ℕ) (bytes : Items ℕ) → count ≡ length bytes → Answers limit names.now session.now (record { place = place; bytes = bytes }) (record { refused = a.refused; text = a.text }) names.now session.now) }
{
    let _count = names.len();
    let cause = Cause::LongCommand {
        bytes: count as u64,
    };
    written(Err(session.refusal(names, place, cause)))
}

/// Runs a command.
fn run_command(
    names: &Names,
    session: &mut Session,
    limit: u64,
    command: Command,
) -> Option<Answered>
    requires form { IsWrittenForm command }
    requires built { is_built (written_command command).act ≡ true }
    ensures answered { IfSome result (λ a. Step names.now limit session.old (written_command command) (record { refused = a.refused; text = a.text }) session.new) }
    ensures known { IsKnownSession names.now session.old → AreBoundHeld names.now (bindings_of (written_command command).act) → IsKnownSession names.now session.new }
    ensures none { IfNone result (session.new ≡ session.old) }
{
    let outcome = session.step(names, &command, limit);
    written(outcome)
}

/// What is written for a command.
fn written(outcome: Result<Answer, Refusal>) -> Option<Answered>
    ensures { IsWritten outcome result }
{
    match outcome {
        Ok(answer) => Some(Answered {
            refused: false,
            text: answer.text,
        }),
        Err(refusal) => match refusal.cause {
            Cause::Memory => None,
            _ => Some(Answered {
                refused: true,
                text: refusal.text,
            }),
        },
    }
}

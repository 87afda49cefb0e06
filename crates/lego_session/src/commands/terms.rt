//! The written terms of commands, read over the context.
ghost use Rattle.lego_grammar.specs.Surface.{written};
ghost use Rattle.lego_reading.specs.Calls.{CanBeRead};
ghost use Rattle.lego_session.specs.private.Binding.{ReadsAt};

use crate::refusal::Reason;
use lego_context::Context;
use lego_grammar::Surface;
use lego_inference::At;
use lego_reading::read;
use lego_term::Term;
use std::alloc::Global;

/// The core of a written term of the command or binding at a place. The context has a universe
/// more for each of its written `Type`s.
pub(crate) fn read_at(
    alloc: Global,
    context: &mut Context,
    s: &Surface,
    asked: At,
) -> Result<Term, Reason>
    requires { CanBeRead (written s.now) }
    ensures { ReadsAt context.old (written s.now) asked.limit asked.place context.new result }
{
    match read(alloc, context, s, asked) {
        Ok(core) => Ok(core),
        Err(fault) => Err(Reason::unread(asked.place, fault)),
    }
}

//! The text of a refusal.
ghost use Rattle.std.specs.Prelude.{◌≡◌, ◌++◌, decimal, IfOk};
ghost use Rattle.std.specs.Option.{option_copied};
ghost use Rattle.lego_context.specs.Entries.{HasNoHole};
ghost use Rattle.lego_print.specs.Refusals as print;
ghost use Rattle.lego_session.specs.Refusals.{heading, cycle_of, hidden_text, sides_text, counted_text, details_text, refusal_text};
ghost use Rattle.lego_session.specs.declared.refusal.Cause.TheVariants.{Mismatch};
ghost use Rattle.lego_session.specs.private.Items.{front_scope};

use crate::entries::Front;
use crate::refusal::Cause;
use crate::text::name_text;
use lego_base::{Names, Place};
use lego_context::Context;
use lego_inference::Counted;
use lego_level::Constraint;
use lego_print::{
    Details, Heading, Shown, details_text as print_details, refusal_lines, term_text, typing_text,
};
use lego_term::Seen;
use std::alloc::{AllocError, Global};

impl Cause {
    /// The heading; want of memory has none.
    fn heading(&self) -> Option<Heading>
        ensures { result ≡ heading self.now }
    {
        Some(match self {
            Cause::BadByte { .. } => Heading::BadByte,
            Cause::OpenComment => Heading::OpenComment,
            Cause::LongName => Heading::LongName,
            Cause::BigLevel => Heading::BigLevel,
            Cause::Unexpected { .. } => Heading::Unexpected,
            Cause::TooDeep => Heading::TooDeep,
            Cause::Unended => Heading::Unended,
            Cause::LongCommand { .. } => Heading::LongCommand,
            Cause::NamesFull => Heading::NamesFull,
            Cause::UnknownName { .. } => Heading::UnknownName,
            Cause::UnknownGoal { .. } => Heading::UnknownGoal,
            Cause::NameInUse { .. } => Heading::NameInUse,
            Cause::NotAType { .. } => Heading::NotAType,
            Cause::NotAFunction { .. } => Heading::NotAFunction,
            Cause::NotAPair { .. } => Heading::NotAPair,
            Cause::Mismatch { .. } => Heading::Mismatch,
            Cause::Universe { .. } => Heading::Universe,
            Cause::Budget { .. } => Heading::Budget,
            Cause::TooLarge { .. } => Heading::TooLarge,
            Cause::LevelTooBig { .. } => Heading::LevelTooBig,
            Cause::Full { .. } => Heading::Full,
            Cause::NotSigma { .. } => Heading::NotSigma,
            Cause::TooFar { .. } => Heading::TooFar,
            Cause::Memory => return None,
        })
    }

    /// The constraints whose lines follow the first line.
    fn cycle(&self) -> &[Constraint]
        ensures { result.now ≡ cycle_of self.now }
    {
        match self {
            Cause::Universe { cycle } => cycle.items(),
            _ => &[],
        }
    }
}

/// A term under the binders around it, with hidden levels.
fn hidden(alloc: Global, names: &Names, front: &Front, seen: &Seen) -> Result<Vec<u8>, AllocError>
    ensures { IfOk result (λ text. text.items ≡ hidden_text (front_scope names.now front.now) seen.now) }
{
    term_text(alloc, names, front, seen, Shown::Hidden)
}

/// A term with the type that it has and the one that is wanted.
fn mismatch(
    alloc: Global,
    names: &Names,
    front: &Front,
    term: &Seen,
    have: &Seen,
    want: &Seen,
) -> Result<Vec<u8>, AllocError>
    ensures { IfOk result (λ text. text.items ≡ details_text (front_scope names.now front.now) (Mismatch term.now have.now want.now)) }
{
    let term = hidden(alloc, names, front, term)?;
    let have = hidden(alloc, names, front, have)?;
    let want = hidden(alloc, names, front, want)?;
    let details = Details::Wanted(term.as_slice(), have.as_slice(), want.as_slice());
    print_details(alloc, details)
}

/// The left side, and a right side behind a comma, where there is one.
fn sides(
    alloc: Global,
    names: &Names,
    front: &Front,
    left: &Seen,
    right: Option<&Seen>,
) -> Result<Vec<u8>, AllocError>
    ensures { IfOk result (λ text. text.items ≡ sides_text (front_scope names.now front.now) left.now (option_copied right.entry)) }
{
    let left = hidden(alloc, names, front, left)?;
    let Some(right) = right else {
        return Ok(left);
    };
    let right = hidden(alloc, names, front, right)?;
    print_details(alloc, Details::Sides(left.as_slice(), right.as_slice()))
}

/// What is counted, and how many are held.
fn full(of: Counted, held: u32) -> Details<'static>
    ensures { print.details_text result ≡ counted_text of ++ decimal held }
{
    match of {
        Counted::Entries => Details::Entries(held),
        Counted::Levels => Details::Levels(held),
    }
}

/// The details of a cause.
fn details(
    alloc: Global,
    names: &Names,
    front: &Front,
    cause: &Cause,
) -> Result<Vec<u8>, AllocError>
    ensures { IfOk result (λ text. text.items ≡ details_text (front_scope names.now front.now) cause.now) }
{
    let details = match cause {
        Cause::BadByte { byte } => Details::Byte(*byte),
        Cause::Unexpected { token } => Details::Text(token.items()),
        Cause::LongCommand { bytes } => Details::Count(*bytes),
        Cause::UnknownName { name } => Details::Text(name_text(names, *name)),
        Cause::UnknownGoal { number } => Details::Goal(*number),
        Cause::NameInUse { name } => Details::Text(name_text(names, *name)),
        Cause::TooLarge { size, depth } => Details::Counts(*size, u64::from(*depth)),
        Cause::LevelTooBig { needed, .. } => Details::Count(*needed),
        Cause::Full { of, held } => full(*of, *held),
        Cause::TooFar { asked, held } => Details::Counts(*asked, *held),
        Cause::NotAType { term, got }
        | Cause::NotAFunction { term, got }
        | Cause::NotAPair { term, got } => {
            return typing_text(alloc, names, front, term, got, Shown::Hidden);
        }
        Cause::Mismatch { term, have, want } => {
            return mismatch(alloc, names, front, term, have, want);
        }
        Cause::Budget { left, right } => return sides(alloc, names, front, left, right.as_ref()),
        Cause::NotSigma { got } => return hidden(alloc, names, front, got),
        _ => Details::Nothing,
    };
    print_details(alloc, details)
}

/// The text of a refusal, with the names of the context's entries in scope. Want of memory has no
/// text.
pub(crate) fn refusal_text(
    alloc: Global,
    names: &Names,
    context: &Context,
    place: Place,
    cause: &Cause,
) -> Result<Vec<u8>, AllocError>
    requires { HasNoHole context.now.entries }
    ensures { IfOk result (λ text. text.items ≡ refusal_text names.now context.now.entries place cause.now) }
{
    let Some(heading) = cause.heading() else {
        return Ok(Vec::new(alloc));
    };
    let details = details(alloc, names, &Front::whole(context), cause)?;
    refusal_lines(alloc, place, heading, details.as_slice(), cause.cycle())
}

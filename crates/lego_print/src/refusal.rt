//! The texts of refusals.
ghost use Rattle.std.specs.Prelude.{◌≡◌, ◌<◌, ◌++◌, codes, decimal, OnOk, IfOk};
ghost use Rattle.lego_print.specs.Refusals.{hex_digit, byte_text, details_text, cause_text, refusal_text};

use crate::heading::Heading;
use crate::pieces::{push_counted, push_number, push_place};
use lego_base::Place;
use std::alloc::{AllocError, Global};

/// Details of a refusal that need no context.
#[derive(Clone, Copy)]
pub enum Details<'a> {
    Nothing,
    /// Of BadByte.
    Byte(u8),
    /// One piece: of Unexpected, UnknownName, NameInUse, Unsolved and NoModule; of Budget
    /// without a right side, Circular, NotSigma, Occurs and Solution.
    Text(&'a [u8]),
    /// Of LongCommand, LevelTooBig and GoalsOpen, and of NoGoal without a number.
    Count(u64),
    /// Of TooLarge and TooFar.
    Counts(u64, u64),
    /// Of UnknownGoal.
    Goal(u32),
    /// A goal and how many are left: of NoGoal with a number.
    GoalOf(u32, u32),
    /// A goal, how many names are given and how many products are found: of CannotIntro.
    Intro(u32, u32, u32),
    /// How many entries are held: of Full.
    Entries(u32),
    /// How many level variables are held: of Full.
    Levels(u32),
    /// A term and the type that it has: of NotAType, NotAFunction and NotAPair.
    Typing(&'a [u8], &'a [u8]),
    /// A term, the type that it has, and the one that is wanted: of Mismatch.
    Wanted(&'a [u8], &'a [u8], &'a [u8]),
    /// Two sides: of Budget with a right side, Clash, Scope and HigherOrder.
    Sides(&'a [u8], &'a [u8]),
}

/// A hexadecimal digit, with capital letters.
fn hex_digit(n: u8) -> u8
    requires { n < 16 }
    ensures { result ≡ hex_digit n }
{
    if n < 10 { b'0' + n } else { b'A' + (n - 10) }
}

/// Adds a byte as it is where it is printed, else `\x` and its two hexadecimal digits.
fn push_byte(text: &mut Vec<u8>, byte: u8) -> Result<(), AllocError>
    ensures { OnOk result (text.new.items ≡ text.old.items ++ byte_text byte) }
{
    if (0x21..=0x7E).contains(&byte) {
        return text.extend_from_slice(&[byte]);
    }
    text.extend_from_slice(b"\\x")?;
    text.extend_from_slice(&[hex_digit(byte / 16), hex_digit(byte % 16)])
}

/// Adds two numbers with a comma between them.
fn push_counts(text: &mut Vec<u8>, first: u64, second: u64) -> Result<(), AllocError>
    ensures { OnOk result (text.new.items ≡ text.old.items ++ (decimal first ++ codes ", " ++ decimal second)) }
{
    push_number(text, first)?;
    text.extend_from_slice(b", ")?;
    push_number(text, second)
}

/// Adds two pieces with one between them.
fn push_pieces(
    text: &mut Vec<u8>,
    left: &[u8],
    between: &[u8],
    right: &[u8],
) -> Result<(), AllocError>
    ensures { OnOk result (text.new.items ≡ text.old.items ++ (left.now ++ between.now ++ right.now)) }
{
    text.extend_from_slice(left)?;
    text.extend_from_slice(between)?;
    text.extend_from_slice(right)
}

/// Adds details.
fn push_details(text: &mut Vec<u8>, details: Details<'_>) -> Result<(), AllocError>
    ensures { OnOk result (text.new.items ≡ text.old.items ++ details_text details.entry) }
{
    match details {
        Details::Nothing => Ok(()),
        Details::Byte(byte) => push_byte(text, byte),
        Details::Text(piece) => text.extend_from_slice(piece),
        Details::Count(n) => push_number(text, n),
        Details::Counts(m, n) => push_counts(text, m, n),
        Details::Goal(n) => push_counted(text, b"?", n),
        Details::GoalOf(n, left) => {
            push_counted(text, b"?", n)?;
            push_counted(text, b", ", left)
        }
        Details::Intro(n, given, found) => {
            push_counted(text, b"?", n)?;
            push_counted(text, b" ", given)?;
            push_counted(text, b", ", found)
        }
        Details::Entries(held) => push_counted(text, b"entries ", held),
        Details::Levels(held) => push_counted(text, b"levels ", held),
        Details::Typing(term, got) => push_pieces(text, term, b" : ", got),
        Details::Wanted(term, have, want) => {
            push_pieces(text, term, b" : ", have)?;
            push_pieces(text, b"", b", wanted ", want)
        }
        Details::Sides(left, right) => push_pieces(text, left, b", ", right),
    }
}

/// The text of details that need no context.
pub fn details_text(alloc: Global, details: Details<'_>) -> Result<Vec<u8>, AllocError>
    ensures { IfOk result (λ text. text.items ≡ details_text details.entry) }
{
    let mut text = Vec::new(alloc);
    push_details(&mut text, details)?;
    Ok(text)
}

/// Adds the name of a refusal and its details.
pub(crate) fn push_cause(
    text: &mut Vec<u8>,
    heading: Heading,
    details: &[u8],
) -> Result<(), AllocError>
    ensures { OnOk result (text.new.items ≡ text.old.items ++ cause_text heading details.now) }
{
    text.extend_from_slice(heading.name())?;
    if details.is_empty() {
        return Ok(());
    }
    text.extend_from_slice(b" ")?;
    text.extend_from_slice(details)
}

/// The cause text of a refusal: its name and its details.
pub fn cause_text(alloc: Global, heading: Heading, details: &[u8]) -> Result<Vec<u8>, AllocError>
    ensures { IfOk result (λ text. text.items ≡ cause_text heading details.now) }
{
    let mut text = Vec::new(alloc);
    push_cause(&mut text, heading, details)?;
    Ok(text)
}

/// Adds the first line of a refusal, without its end.
pub(crate) fn push_refusal(
    text: &mut Vec<u8>,
    place: Place,
    heading: Heading,
    details: &[u8],
) -> Result<(), AllocError>
    ensures { OnOk result (text.new.items ≡ text.old.items ++ refusal_text place heading details.now) }
{
    text.extend_from_slice(b"refused ")?;
    push_place(text, place)?;
    text.extend_from_slice(b" ")?;
    push_number(text, u64::from(heading.number()))?;
    text.extend_from_slice(b" ")?;
    push_cause(text, heading, details)
}

/// The first line of a refusal, without its end.
pub fn refusal_text(
    alloc: Global,
    place: Place,
    heading: Heading,
    details: &[u8],
) -> Result<Vec<u8>, AllocError>
    ensures { IfOk result (λ text. text.items ≡ refusal_text place heading details.now) }
{
    let mut text = Vec::new(alloc);
    push_refusal(&mut text, place, heading, details)?;
    Ok(text)
}

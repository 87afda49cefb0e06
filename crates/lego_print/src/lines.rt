//! The lines behind the first line of a refusal: those of a cycle of constraints, and of tries.
ghost use Rattle.std.specs.Prelude.{◌≡◌, ◌++◌, codes, decimal, OnOk, IfOk};
ghost use Rattle.lego_print.specs.Lines.{plus_text, bound_text, origin_text, constraint_text, constraint_lines, refusal_lines, tried_text, try_text};

use crate::heading::Heading;
use crate::pieces::{push_counted, push_number, push_place};
use crate::refusal::{push_cause, push_refusal};
use lego_base::Place;
use lego_level::Constraint;
use lego_term::Level;
use std::alloc::{AllocError, Global};

/// What was tried: of NoFit the number of new arguments, of NoHypothesis the name of the
/// hypothesis.
#[derive(Clone, Copy)]
pub enum Tried<'a> {
    Arguments(u32),
    Hypothesis(&'a [u8]),
}

/// Adds a number behind `+`, where it is not 0.
fn push_plus(text: &mut Vec<u8>, plus: u32) -> Result<(), AllocError>
    ensures { OnOk result (text.new.items ≡ text.old.items ++ plus_text plus) }
{
    if plus == 0 {
        return Ok(());
    }
    push_counted(text, b"+", plus)
}

/// Adds a level of a constraint.
fn push_bound(text: &mut Vec<u8>, level: Level) -> Result<(), AllocError>
    ensures { OnOk result (text.new.items ≡ text.old.items ++ bound_text level.base level.plus) }
{
    match level.base {
        None => push_number(text, u64::from(level.plus)),
        Some(variable) => {
            push_counted(text, b"u", variable)?;
            push_plus(text, level.plus)
        }
    }
}

/// Adds where a constraint comes from.
fn push_origin(text: &mut Vec<u8>, place: Option<Place>) -> Result<(), AllocError>
    ensures { OnOk result (text.new.items ≡ text.old.items ++ origin_text place) }
{
    match place {
        Some(place) => push_place(text, place),
        None => text.extend_from_slice(b"implied"),
    }
}

/// Adds the line of a constraint of a cycle.
fn push_constraint(
    text: &mut Vec<u8>,
    place: Option<Place>,
    low: Level,
    high: Level,
) -> Result<(), AllocError>
    ensures { OnOk result (text.new.items ≡ text.old.items ++ constraint_text place low high) }
{
    text.extend_from_slice(b"  ")?;
    push_origin(text, place)?;
    text.extend_from_slice(b": ")?;
    push_bound(text, low)?;
    text.extend_from_slice(b" <= ")?;
    push_bound(text, high)?;
    text.extend_from_slice(b"\n")
}

/// The line of a constraint of a cycle, with its end: its place or `implied`, and its levels.
pub fn constraint_text(
    alloc: Global,
    place: Option<Place>,
    low: Level,
    high: Level,
) -> Result<Vec<u8>, AllocError>
    ensures { IfOk result (λ text. text.items ≡ constraint_text place low high) }
{
    let mut text = Vec::new(alloc);
    push_constraint(&mut text, place, low, high)?;
    Ok(text)
}

/// Adds the lines of the constraints of a cycle.
fn push_constraints(text: &mut Vec<u8>, cycle: &[Constraint]) -> Result<(), AllocError>
    ensures { OnOk result (text.new.items ≡ text.old.items ++ constraint_lines cycle.now) }
{
    for constraint in cycle {
        push_constraint(text, constraint.place, constraint.low, constraint.high)?;
    }
    Ok(())
}

/// A whole refusal: its first line with its end, and the line of each constraint of a cycle, which
/// Universe and a Solution of Universe have and others don't.
pub fn refusal_lines(
    alloc: Global,
    place: Place,
    heading: Heading,
    details: &[u8],
    cycle: &[Constraint],
) -> Result<Vec<u8>, AllocError>
    ensures { IfOk result (λ text. text.items ≡ refusal_lines place heading details.now cycle.now) }
{
    let mut text = Vec::new(alloc);
    push_refusal(&mut text, place, heading, details)?;
    text.extend_from_slice(b"\n")?;
    push_constraints(&mut text, cycle)?;
    Ok(text)
}

/// Adds what was tried.
fn push_tried(text: &mut Vec<u8>, tried: Tried<'_>) -> Result<(), AllocError>
    ensures { OnOk result (text.new.items ≡ text.old.items ++ tried_text tried.entry) }
{
    match tried {
        Tried::Arguments(number) => push_number(text, u64::from(number)),
        Tried::Hypothesis(name) => text.extend_from_slice(name),
    }
}

/// The line of a try that was refused, with its end: what was tried, and the cause text.
pub fn try_text(
    alloc: Global,
    tried: Tried<'_>,
    heading: Heading,
    details: &[u8],
) -> Result<Vec<u8>, AllocError>
    ensures { IfOk result (λ text. text.items ≡ try_text tried.entry heading details.now) }
{
    let mut text = Vec::from_slice(alloc, b"  ")?;
    push_tried(&mut text, tried)?;
    text.extend_from_slice(b": ")?;
    push_cause(&mut text, heading, details)?;
    text.extend_from_slice(b"\n")?;
    Ok(text)
}

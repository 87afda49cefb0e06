//! Pieces of texts. Each call adds one to a text.
ghost use Rattle.std.specs.Prelude.{◌≡◌, ◌++◌, if◌then◌else◌, codes, decimal, [], OnOk};
ghost use Rattle.lego_print.specs.Names.{name_text};
ghost use Rattle.lego_print.specs.Refusals.{place_text};
ghost use Rattle.lego_print.specs.Texts.{sign_text, argument_sign, level_text};
ghost use Rattle.lego_term.specs.Levels.{node_value};

use crate::shown::Shown;
use itoa::Buffer;
use lego_base::{Names, Place};
use lego_term::{Level, Mark};
use std::alloc::AllocError;

/// The text of a name, or nothing where the number is not held.
pub(crate) fn name_text(names: &Names, name: u32) -> &[u8]
    ensures { result.now ≡ name_text names.now name }
{
    if name < names.len() {
        names.text(name)
    } else {
        b""
    }
}

/// Adds the decimal digits of a number.
pub(crate) fn push_number(text: &mut Vec<u8>, number: u64) -> Result<(), AllocError>
    ensures { OnOk result (text.new.items ≡ text.old.items ++ decimal number) }
{
    let mut digits = Buffer::new();
    text.extend_from_slice(digits.format(number).as_bytes())
}

/// Adds a place: its line, a colon, its column.
pub(crate) fn push_place(text: &mut Vec<u8>, place: Place) -> Result<(), AllocError>
    ensures { OnOk result (text.new.items ≡ text.old.items ++ place_text place) }
{
    push_number(text, u64::from(place.line))?;
    text.extend_from_slice(b":")?;
    push_number(text, u64::from(place.column))
}

/// Adds a piece and a number.
pub(crate) fn push_counted(text: &mut Vec<u8>, piece: &[u8], number: u32) -> Result<(), AllocError>
    ensures { OnOk result (text.new.items ≡ text.old.items ++ (piece.now ++ decimal number)) }
{
    text.extend_from_slice(piece)?;
    push_number(text, u64::from(number))
}

/// Adds the bytes where the condition holds.
pub(crate) fn push_if(text: &mut Vec<u8>, condition: bool, bytes: &[u8]) -> Result<(), AllocError>
    ensures { OnOk result (text.new.items ≡ text.old.items ++ (if condition then bytes.now else [])) }
{
    if condition {
        text.extend_from_slice(bytes)
    } else {
        Ok(())
    }
}

/// The sign between the name of a binder and its domain.
pub(crate) fn sign(mark: Mark) -> &'static [u8]
    ensures { result.now ≡ sign_text mark }
{
    match mark {
        Mark::Plain => b":",
        Mark::Implicit => b"|",
    }
}

/// Adds what stands between a function and its argument.
pub(crate) fn push_argument_sign(text: &mut Vec<u8>, mark: Mark) -> Result<(), AllocError>
    ensures { OnOk result (text.new.items ≡ text.old.items ++ argument_sign mark) }
{
    match mark {
        Mark::Plain => text.extend_from_slice(b" "),
        Mark::Implicit => text.extend_from_slice(b"|"),
    }
}

/// The value of a node: of a variable, or 0 for no variable.
pub(crate) fn node_value(values: &[u64], base: Option<u32>) -> u64
    ensures { result ≡ node_value values.now base }
{
    match base {
        None => 0,
        Some(variable) => values.get(variable as usize).copied().unwrap_or(0),
    }
}

/// Adds a universe.
pub(crate) fn push_level(
    text: &mut Vec<u8>,
    levels: Shown<'_>,
    level: Level,
) -> Result<(), AllocError>
    ensures { OnOk result (text.new.items ≡ text.old.items ++ level_text levels.entry level) }
{
    match levels {
        Shown::Hidden => text.extend_from_slice(b"Type"),
        Shown::Least(values) => {
            let value = u128::from(node_value(values, level.base)) + u128::from(level.plus);
            let mut digits = Buffer::new();
            text.extend_from_slice(b"Type(")?;
            text.extend_from_slice(digits.format(value).as_bytes())?;
            text.extend_from_slice(b")")
        }
    }
}

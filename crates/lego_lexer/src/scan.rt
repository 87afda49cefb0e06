//! The longest token at an index.
ghost use Rattle.std.specs.Prelude.{◌≡◌, ◌<◌, ◌≤◌, ◌+◌, ℕ, Bool, drop, length, min, slice_index, IsTrue, IsFalse, MatchResult};
ghost use Rattle.lego_lexer.specs.Bytes.{begins_name, goes_on_in_name, is_digit, BeginsToken};
ghost use Rattle.lego_lexer.specs.Tokens.{FaultAt, number_value};
ghost use Rattle.lego_lexer.specs.private.Scanned.{Decides, IsRunEnd, IsScanned};

use crate::comment::begins_with;
use crate::limits::MAX_NUMERAL;
use crate::spelling::{symbol, word};
use crate::token::{LexFault, Symbol, TokenKind};
use lego_base::{MAX_NAME, Place};

/// A token of bytes, and the index behind it.
#[derive(Clone, Copy)]
pub struct Scanned {
    pub kind: TokenKind,
    pub to: usize,
}

fn begins_name(byte: u8) -> bool
    ensures { result ≡ begins_name byte }
{
    byte.is_ascii_alphabetic() || byte == b'_'
}

fn goes_on_in_name(byte: u8) -> bool
    ensures { result ≡ goes_on_in_name byte }
{
    begins_name(byte) || is_digit(byte) || byte == b'\''
}

fn is_digit(byte: u8) -> bool
    ensures { result ≡ is_digit byte }
{
    byte.is_ascii_digit()
}

/// The index behind the run of bytes of a kind that begins at `at`.
fn run_end<F: Fn(u8) -> bool>(bytes: &[u8], at: usize, is_of_kind: F) -> usize
    requires calls { F.IsAlwaysCallable is_of_kind }
    requires within { at ≤ length bytes.now }
    ensures after { at ≤ result }
    ensures within { result ≤ length bytes.now }
    ensures run { (kind : ℕ → Bool) → Decides kind (F.post is_of_kind) → IsRunEnd kind bytes.now at result }
{
    let mut to = at;
    while to < bytes.len() && is_of_kind(bytes[to]) {
        to += 1;
    }
    to
}

/// The longest token at `at`, which stands at `place`; there is neither a blank nor a comment.
pub fn scan(bytes: &[u8], at: usize, place: Place) -> Result<Scanned, LexFault>
    requires within { at < length bytes.now }
    requires begins { BeginsToken (drop at bytes.now) }
    ensures { MatchResult result (IsScanned bytes.now at) (FaultAt place (drop at bytes.now)) }
{
    if begins_name(bytes[at]) {
        return scan_name(bytes, at, place);
    }
    if is_digit(bytes[at]) {
        return scan_number(bytes, at, place);
    }
    scan_symbol(bytes, at, place)
}

/// A name or a reserved word.
fn scan_name(bytes: &[u8], at: usize, place: Place) -> Result<Scanned, LexFault>
    requires within { at < length bytes.now }
    requires first { IsTrue (begins_name (slice_index bytes.now at)) }
    requires begins { BeginsToken (drop at bytes.now) }
    ensures { MatchResult result (IsScanned bytes.now at) (FaultAt place (drop at bytes.now)) }
{
    let to = run_end(bytes, at, goes_on_in_name);
    let text = &bytes[at..to];
    if let Some(word) = word(text) {
        let kind = TokenKind::Word(word);
        return Ok(Scanned { kind, to });
    }
    if text.len() > MAX_NAME {
        return Err(LexFault::LongName { place });
    }
    let kind = TokenKind::Name;
    Ok(Scanned { kind, to })
}

/// A numeral.
fn scan_number(bytes: &[u8], at: usize, place: Place) -> Result<Scanned, LexFault>
    requires within { at < length bytes.now }
    requires first { IsTrue (is_digit (slice_index bytes.now at)) }
    requires begins { BeginsToken (drop at bytes.now) }
    ensures { MatchResult result (IsScanned bytes.now at) (FaultAt place (drop at bytes.now)) }
{
    let to = run_end(bytes, at, is_digit);
    let value = number_value(&bytes[at..to]);
    if value > MAX_NUMERAL {
        return Err(LexFault::BigLevel { place });
    }
    let kind = TokenKind::Number(value);
    Ok(Scanned { kind, to })
}

/// The value of digits, or a greater number than the greatest numeral.
fn number_value(digits: &[u8]) -> u32
    ensures { result ≡ min (number_value digits.now) (MAX_NUMERAL + 1) }
{
    let mut value = 0;
    for digit in digits {
        let digit = u32::from(digit.saturating_sub(b'0'));
        value = (10 * value + digit).min(MAX_NUMERAL + 1);
    }
    value
}

/// A symbol.
fn scan_symbol(bytes: &[u8], at: usize, place: Place) -> Result<Scanned, LexFault>
    requires within { at < length bytes.now }
    requires no_name { IsFalse (begins_name (slice_index bytes.now at)) }
    requires no_number { IsFalse (is_digit (slice_index bytes.now at)) }
    requires begins { BeginsToken (drop at bytes.now) }
    ensures { MatchResult result (IsScanned bytes.now at) (FaultAt place (drop at bytes.now)) }
{
    if begins_with(bytes, at, b'-', b'>') {
        let kind = TokenKind::Symbol(Symbol::Arrow);
        return Ok(Scanned { kind, to: at + 2 });
    }
    let byte = bytes[at];
    match symbol(byte) {
        Some(symbol) => {
            let kind = TokenKind::Symbol(symbol);
            Ok(Scanned { kind, to: at + 1 })
        }
        None => Err(LexFault::BadByte { place, byte }),
    }
}

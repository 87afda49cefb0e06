//! The tokens of bytes, by longest match.
ghost use Rattle.std.specs.Prelude.{◌≡◌, ◌≤◌, ◌<◌, ◌⊎◌, drop, length, map, slice_range, IfOk, IfErr, MatchResult};
ghost use Rattle.lego_base.specs.Place.{behind};
ghost use Rattle.lego_lexer.specs.Bytes.{BeginsToken};
ghost use Rattle.lego_lexer.specs.Tokens.{Tokens, Refused, FaultAt, AllWithinLimits, placed};
ghost use Rattle.lego_lexer.specs.private.Scanned.{HasRoom, IsTokenAt, IsNext, IsFault};

use crate::comment::{Stop, gap_end};
use crate::scan::scan;
use crate::token::{LexFault, Token};
use lego_base::{MAX_PLACE, MAX_SCRIPT, Place};
use std::alloc::Global;

/// The tokens of bytes that begin at a place, each the longest, with their exact places.
/// The first fault refuses all: a byte that begins no token, a comment without an end, a name of
/// more than 255 bytes, a numeral above 1,000,000.
pub fn lex(alloc: Global, bytes: &[u8], place: Place) -> Result<Vec<Token>, LexFault>
    requires line { place.line ≤ MAX_PLACE }
    requires column { place.column ≤ MAX_PLACE }
    requires bytes { length bytes.now ≤ MAX_SCRIPT }
    ensures tokens { IfOk result (λ tokens. Tokens place bytes.now (map (placed bytes.now) tokens.items)) }
    ensures limits { IfOk result (λ tokens. AllWithinLimits (map (placed bytes.now) tokens.items)) }
    ensures refused { IfErr result (λ fault. (fault ≡ LexFault.Memory) ⊎ Refused place bytes.now fault) }
{
    let mut tokens = Vec::new(alloc);
    let mut at = Cursor { place, index: 0 };
    while let Some(next) = next_token(bytes, at)? {
        tokens.push(next.token).map_err(|_| LexFault::Memory)?;
        at = next.behind;
    }
    Ok(tokens)
}

/// An index in bytes, and its place.
#[derive(Clone, Copy)]
struct Cursor {
    place: Place,
    index: usize,
}

impl Cursor {
    /// The cursor further on, at an index.
    fn advance(self, bytes: &[u8], to: usize) -> Cursor
        requires after { self.index ≤ to }
        requires within { to ≤ length bytes.now }
        requires room { HasRoom self }
        requires bytes { length bytes.now ≤ MAX_SCRIPT }
        ensures index { result.index ≡ to }
        ensures place { result.place ≡ behind self.place (slice_range bytes.now self.index to) }
        ensures room { HasRoom result }
    {
        let place = self.place.behind(&bytes[self.index..to]);
        Cursor { place, index: to }
    }
}

/// A token, and the cursor behind it.
#[derive(Clone, Copy)]
struct Next {
    token: Token,
    behind: Cursor,
}

/// The first token from a cursor on, if there is one.
fn next_token(bytes: &[u8], from: Cursor) -> Result<Option<Next>, LexFault>
    requires within { from.index ≤ length bytes.now }
    requires room { HasRoom from }
    requires bytes { length bytes.now ≤ MAX_SCRIPT }
    ensures { MatchResult result (IsNext bytes.now from) (IsFault bytes.now from) }
{
    match gap_end(bytes, from.index) {
        Stop::At(at) => token_at(bytes, from.advance(bytes, at)),
        Stop::Open(at) => {
            let place = from.advance(bytes, at).place;
            Err(LexFault::OpenComment { place })
        }
        Stop::End => Ok(None),
    }
}

/// The token at a cursor, where neither a blank nor a comment stands.
fn token_at(bytes: &[u8], at: Cursor) -> Result<Option<Next>, LexFault>
    requires within { at.index < length bytes.now }
    requires begins { BeginsToken (drop at.index bytes.now) }
    requires room { HasRoom at }
    requires bytes { length bytes.now ≤ MAX_SCRIPT }
    ensures { MatchResult result (IsTokenAt bytes.now at) (FaultAt at.place (drop at.index bytes.now)) }
{
    let scanned = scan(bytes, at.index, at.place)?;
    let token = Token {
        kind: scanned.kind,
        place: at.place,
        from: at.index as u32,
        to: scanned.to as u32,
    };
    let behind = at.advance(bytes, scanned.to);
    Ok(Some(Next { token, behind }))
}

//! The command that bytes are, or why they are none.
ghost use Rattle.std.specs.Prelude.{◌≡◌, ◌≤◌, ◌+◌, true, length, map, IfOk, IfErr, IfSome, IfNone};
ghost use Rattle.lego_grammar.specs.Surface.{written_command};
ghost use Rattle.lego_grammar.specs.WrittenForm.{IsWrittenForm};
ghost use Rattle.lego_lexer.specs.Commands.{IsCommandText};
ghost use Rattle.lego_lexer.specs.Tokens.{placed};
ghost use Rattle.lego_lexer.specs.declared.token.Token.{Token as PlacedToken};
ghost use Rattle.lego_session.specs.Answers.{HasTokens, IsNumberedCommand, lex_place, lex_cause};
ghost use Rattle.lego_session.specs.private.Unread.{IsUnreadBy, StandsAt, FirstStandElsewhere, HasItsToken, IsUnexpectedToken, IsNotParsed};
ghost use Rattle.lego_session.specs.Reading.{is_built};

use crate::built::is_built;
use crate::refusal::{Cause, Reason};
use lego_base::{Names, Place};
use lego_grammar::Command;
use lego_lexer::{LexFault, Token, lex};
use lego_parser::{ParseFault, parse};
use lego_term::List;
use std::alloc::Global;

/// The most bytes of a command.
const MAX_COMMAND: usize = 65_536;

/// The command that the bytes are, whose first byte stands at the place.
pub(crate) fn read_command(
    alloc: Global,
    names: &mut Names,
    place: Place,
    bytes: &[u8],
) -> Result<Command, Reason>
    requires line { place.line + length bytes.now ≤ 33554433 }
    requires column { place.column + length bytes.now ≤ 33554433 }
    requires some { length bytes.now ≤ 16777216 }
    requires text { IsCommandText bytes.now }
    ensures command { IfOk result (λ command. IsNumberedCommand names.old names.new (record { place = place; bytes = bytes.now }) (written_command command)) }
    ensures form { IfOk result IsWrittenForm }
    ensures built { IfOk result (λ command. is_built (written_command command).act ≡ true) }
    ensures unread { IfErr result (λ unread. IsUnreadBy names.old names.new (record { place = place; bytes = bytes.now }) unread.place unread.cause) }
{
    if bytes.len() > MAX_COMMAND {
        return Err(Reason {
            place,
            cause: Cause::LongCommand {
                bytes: bytes.len() as u64,
            },
        });
    }
    match lex(alloc, bytes, place) {
        Ok(tokens) => parse_command(alloc, names, place, bytes, &tokens),
        Err(fault) => Err(not_lexed(place, fault)),
    }
}

/// Why bytes have no tokens.
fn not_lexed(place: Place, fault: LexFault) -> Reason
    ensures place { result.place ≡ lex_place fault place }
    ensures cause { result.cause ≡ lex_cause fault }
{
    let place = match fault {
        LexFault::BadByte { place, .. }
        | LexFault::OpenComment { place }
        | LexFault::LongName { place }
        | LexFault::BigLevel { place } => place,
        LexFault::Memory => place,
    };
    Reason {
        place,
        cause: Cause::from(fault),
    }
}

/// The command that the tokens are, of a form that is built.
fn parse_command(
    alloc: Global,
    names: &mut Names,
    place: Place,
    bytes: &[u8],
    tokens: &[Token],
) -> Result<Command, Reason>
    requires lexed { HasTokens (record { place = place; bytes = bytes.now }) (map (placed bytes.now) tokens.now) }
    requires text { IsCommandText bytes.now }
    ensures command { IfOk result (λ command. IsNumberedCommand names.old names.new (record { place = place; bytes = bytes.now }) (written_command command)) }
    ensures form { IfOk result IsWrittenForm }
    ensures built { IfOk result (λ command. is_built (written_command command).act ≡ true) }
    ensures unread { IfErr result (λ unread. IsUnreadBy names.old names.new (record { place = place; bytes = bytes.now }) unread.place unread.cause) }
{
    let command = match parse(alloc, tokens, bytes, names) {
        Ok(command) => command,
        Err(fault) => return Err(not_parsed(alloc, place, bytes, tokens, fault)),
    };
    if is_built(&command) {
        return Ok(command);
    }
    let Some(first) = tokens.first() else {
        unreachable!()
    };
    Err(unexpected(alloc, bytes, *first))
}

/// Why tokens are no command.
fn not_parsed(
    alloc: Global,
    place: Place,
    bytes: &[u8],
    tokens: &[Token],
    fault: ParseFault,
) -> Reason
    requires lexed { HasTokens (record { place = place; bytes = bytes.now }) (map (placed bytes.now) tokens.now) }
    requires token { HasItsToken tokens.now fault }
    ensures { IsNotParsed place bytes.now tokens.now fault result.place result.cause }
{
    match fault {
        ParseFault::Unexpected { place } => {
            let Some(token) = token_at(tokens, place) else {
                unreachable!()
            };
            unexpected(alloc, bytes, token)
        }
        ParseFault::TooDeep { place } => Reason {
            place,
            cause: Cause::TooDeep,
        },
        ParseFault::NamesFull => Reason {
            place,
            cause: Cause::NamesFull,
        },
        ParseFault::Memory => Reason {
            place,
            cause: Cause::Memory,
        },
    }
}

/// The token at a place.
fn token_at(tokens: &[Token], place: Place) -> Option<Token>
    ensures found { IfSome result (λ t. StandsAt tokens.now place t) }
    ensures none { IfNone result (FirstStandElsewhere tokens.now place (length tokens.now)) }
{
    for i in 0..tokens.len() {
        if tokens[i].place == place {
            return Some(tokens[i]);
        }
    }
    None
}

/// The refusal of a token, with its bytes.
fn unexpected(alloc: Global, bytes: &[u8], token: Token) -> Reason
    requires range { token.from ≤ token.to }
    requires within { token.to ≤ length bytes.now }
    ensures { IsUnexpectedToken bytes.now token result.place result.cause }
{
    let text = &bytes[token.from as usize..token.to as usize];
    let cause = match Vec::from_slice(alloc, text) {
        Ok(text) => Cause::Unexpected {
            token: List::of(text),
        },
        Err(_) => Cause::Memory,
    };
    Reason {
        place: token.place,
        cause,
    }
}

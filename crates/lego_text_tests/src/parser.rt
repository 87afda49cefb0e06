ghost use Rattle.std.specs.Prelude.{◌≡◌, ◌<◌, true, length};
ghost use Rattle.lego_parser.specs.Parsing.{EndWithSemicolon};

mod forms;
mod many;
mod refusals;
mod render;
mod runs;

use lego_base::{Names, Place};
use lego_grammar::Command;
use lego_lexer::{Symbol, Token, TokenKind, lex};
use lego_parser::{ParseFault, parse};
use std::alloc::Global;
use std::test::*;

/// Whether the last token is a `;`.
fn is_ended(tokens: &[Token]) -> bool
    ensures { result ≡ true → EndWithSemicolon tokens.now }
{
    match tokens.last() {
        Some(last) => last.kind == TokenKind::Symbol(Symbol::Semicolon),
        None => false,
    }
}

/// What `parse` answers for a text, which is to have tokens and a `;` at its end.
fn parsed(alloc: Global, text: &[u8], names: &mut Names) -> Result<Command, ParseFault>
    requires { length text.now < 16777216 }
{
    let Ok(tokens) = lex(alloc, text, Place { line: 1, column: 1 }) else {
        return Err(ParseFault::Memory);
    };
    if !is_ended(&tokens) {
        return Err(ParseFault::Memory);
    }
    parse(alloc, &tokens, text, names)
}

//! The numbering of names.
ghost use Rattle.std.specs.Prelude.{◌≡◌, map, IfErr, OnOk, OnErr};
ghost use Rattle.lego_lexer.specs.declared.token.TokenKind.TheVariants as Kind;
ghost use Rattle.lego_lexer.specs.Tokens.{lexeme_of};
ghost use Rattle.lego_grammar.specs.Grammar.{item_of};
ghost use Rattle.lego_parser.specs.Numbering.{HasNameRange, NamesHaveRanges, names_with, names_behind};
ghost use Rattle.lego_parser.specs.private.Interning.{IsRoomFault, IsNumberingFault};

use crate::fault::ParseFault;
use lego_base::{Names, NamesFault};
use lego_lexer::{Token, TokenKind};

/// Gives a number to the text of each name, in the order of the tokens. A refusal keeps the
/// numbers that were given.
pub(crate) fn intern_names(
    tokens: &[Token],
    text: &[u8],
    names: &mut Names,
) -> Result<(), ParseFault>
    requires ranges { NamesHaveRanges text.now tokens.now }
    ensures ok { OnOk result (names.new ≡ names_behind names.old (map (item_of text.now) tokens.now)) }
    ensures cause { IfErr result (λ fault. IsNumberingFault fault names.old (map (item_of text.now) tokens.now) names.new) }
{
    for token in tokens {
        intern_token(*token, text, names)?;
    }
    Ok(())
}

/// Gives a number to the text of a token that is a name.
fn intern_token(token: Token, text: &[u8], names: &mut Names) -> Result<(), ParseFault>
    requires range { token.kind ≡ Kind.Name → HasNameRange text.now token }
    ensures ok { OnOk result (names.new ≡ names_with names.old (lexeme_of text.now token.kind token.from token.to)) }
    ensures cause { IfErr result (λ fault. IsRoomFault fault names.old (lexeme_of text.now token.kind token.from token.to)) }
    ensures err { OnErr result (names.new ≡ names.old) }
{
    let TokenKind::Name = token.kind else {
        return Ok(());
    };
    match names.intern(&text[token.from as usize..token.to as usize]) {
        Ok(_) => Ok(()),
        Err(NamesFault::Full) => Err(ParseFault::NamesFull),
        Err(NamesFault::Memory) => Err(ParseFault::Memory),
    }
}

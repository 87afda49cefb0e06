//! The pass that builds the trees of a command.
ghost use Rattle.std.specs.Prelude.{◌≡◌, map, slice_get, Some, IfOk};
ghost use Rattle.lego_lexer.specs.declared.token.TokenKind.TheVariants as Kind;
ghost use Rattle.lego_lexer.specs.Tokens.{lexeme_of};
ghost use Rattle.lego_grammar.specs.Grammar.{Item, item_of, Parses};
ghost use Rattle.lego_parser.specs.private.Trees.{built_act};
ghost use Rattle.lego_grammar.specs.private.Machine.{Done};
ghost use Rattle.lego_parser.specs.private.Frames.{mode_of};
ghost use Rattle.lego_parser.specs.Numbering.{HasNameRange, NamesHaveRanges};
ghost use Rattle.lego_parser.specs.private.Interning.{HasNumber, AreNumbered, IsNumberOf};
ghost use Rattle.lego_parser.specs.private.Scanning.{mode_at, IsWhole, HasEnded};

use crate::machine::Machine;
use crate::modes::Mode;
use crate::scan::Start;
use lego_base::Names;
use lego_grammar::Act;
use lego_lexer::{Token, TokenKind};
use std::alloc::{AllocError, Global};

/// What the command asks for that the tokens are.
pub(crate) fn build(
    alloc: Global,
    tokens: &[Token],
    text: &[u8],
    names: &Names,
    start: Start,
) -> Result<Act, AllocError>
    requires ranges { NamesHaveRanges text.now tokens.now }
    requires numbered { AreNumbered names.now (map (item_of text.now) tokens.now) }
    requires whole { IsWhole (map (item_of text.now) tokens.now) (mode_at start) }
    ensures { IfOk result (λ act. (t : Item) → slice_get (map (item_of text.now) tokens.now) 0 ≡ Some t
        → Parses names.now (map (item_of text.now) tokens.now) (record { place = t.place; act = built_act act })) }
{
    // the names differ, so a text has one number
    let _held = names.len();
    let mut machine = Machine::<true>::new(alloc);
    let mut mode = start.mode(alloc);
    for token in tokens {
        let number = number_of(*token, text, names);
        let Some(next) = machine.step(mode, token.kind, token.place, number)? else {
            unreachable!()
        };
        mode = next;
    }
    Ok(act_of(mode))
}

/// The number of the name that a token is; 0 for any other token.
fn number_of(token: Token, text: &[u8], names: &Names) -> u32
    requires range { token.kind ≡ Kind.Name → HasNameRange text.now token }
    requires numbered { HasNumber names.now (lexeme_of text.now token.kind token.from token.to) }
    ensures { IsNumberOf names.now (lexeme_of text.now token.kind token.from token.to) result }
{
    let TokenKind::Name = token.kind else {
        return 0;
    };
    let Some(number) = names.find(&text[token.from as usize..token.to as usize]) else {
        unreachable!()
    };
    number
}

/// What a command that has ended asks for.
fn act_of(mode: Mode) -> Act
    requires ended { HasEnded (mode_of mode) }
    ensures { mode_of mode ≡ Done (built_act result) }
{
    let Mode::Done(act) = mode else {
        unreachable!()
    };
    act
}

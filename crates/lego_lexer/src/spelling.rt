//! What reserved words and symbols are written as.
ghost use Rattle.std.specs.Prelude.{◌≡◌, ℕ, List, [], ◌∷◌};
ghost use Rattle.lego_lexer.specs.declared.token.Word.{Word as AWord};
ghost use Rattle.lego_lexer.specs.Tokens.{written_as, word_text, words, symbol_text, symbols};
ghost use Rattle.lego_lexer.specs.private.Spelled.{IsTableOf, words_in};

use crate::token::{Symbol, Word};

/// The reserved words, by what they are written as.
const WORDS: [(&[u8], Word); 22] = [
    (b"Prop", Word::Prop),
    (b"Type", Word::AnyType),
    (b"Goal", Word::Goal),
    (b"Intros", Word::Intros),
    (b"Refine", Word::Refine),
    (b"Claim", Word::Claim),
    (b"Next", Word::Next),
    (b"Assumption", Word::Assumption),
    (b"Equiv", Word::Equiv),
    (b"Save", Word::Save),
    (b"KillRef", Word::KillRef),
    (b"Undo", Word::Undo),
    (b"Forget", Word::Forget),
    (b"Discharge", Word::Discharge),
    (b"Prf", Word::Prf),
    (b"Ctxt", Word::Ctxt),
    (b"Hnf", Word::Hnf),
    (b"Normal", Word::Normal),
    (b"Explicit", Word::Explicit),
    (b"Implicit", Word::Implicit),
    (b"Module", Word::Module),
    (b"Import", Word::Import),
];

/// The reserved word that the text is, if it is one.
pub fn word(text: &[u8]) -> Option<Word>
    ensures { result ≡ written_as word_text words text.now }
{
    look_up(&WORDS, text)
}

/// The first word of the table that is written as the text.
fn look_up(table: &[(&[u8], Word)], text: &[u8]) -> Option<Word>
    ensures { (text_of : AWord → List ℕ) → IsTableOf text_of table.now → result ≡ written_as text_of (words_in table.now) text.now }
{
    for (written, word) in table {
        if *written == text {
            return Some(*word);
        }
    }
    None
}

/// The symbol of one byte.
pub fn symbol(byte: u8) -> Option<Symbol>
    ensures { result ≡ written_as symbol_text symbols (byte ∷ []) }
{
    match byte {
        b'[' => Some(Symbol::OpenSquare),
        b']' => Some(Symbol::CloseSquare),
        b'{' => Some(Symbol::OpenBrace),
        b'}' => Some(Symbol::CloseBrace),
        b'<' => Some(Symbol::OpenAngle),
        b'>' => Some(Symbol::CloseAngle),
        b'(' => Some(Symbol::OpenParen),
        b')' => Some(Symbol::CloseParen),
        b':' => Some(Symbol::Colon),
        b';' => Some(Symbol::Semicolon),
        b',' => Some(Symbol::Comma),
        b'=' => Some(Symbol::Equals),
        b'.' => Some(Symbol::Dot),
        b'#' => Some(Symbol::Hash),
        b'?' => Some(Symbol::Question),
        b'|' => Some(Symbol::Bar),
        _ => None,
    }
}

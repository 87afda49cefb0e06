//! What the lexer answers: cuts of a script, tokens of a command, and refusals.
use lego_base::Place;
use thiserror::Error;

/// A reserved word.
#[derive(Debug, Clone, Copy, PartialEq, Eq)]
pub enum Word {
    Prop,
    /// The word `Type`.
    AnyType,
    Goal,
    Intros,
    Refine,
    Claim,
    Next,
    Assumption,
    Equiv,
    Save,
    KillRef,
    Undo,
    Forget,
    Discharge,
    Prf,
    Ctxt,
    Hnf,
    Normal,
    Explicit,
    Implicit,
    Module,
    Import,
}

/// A mark of punctuation.
#[derive(Debug, Clone, Copy, PartialEq, Eq)]
pub enum Symbol {
    OpenSquare,
    CloseSquare,
    OpenBrace,
    CloseBrace,
    OpenAngle,
    CloseAngle,
    OpenParen,
    CloseParen,
    Colon,
    Semicolon,
    Comma,
    Equals,
    Dot,
    Hash,
    Question,
    /// `->`.
    Arrow,
    /// The vertical bar.
    Bar,
}

/// What a token is; the bytes of a name are those of its range.
#[derive(Debug, Clone, Copy, PartialEq, Eq)]
pub enum TokenKind {
    Name,
    /// A numeral, by its value.
    Number(u32),
    Word(Word),
    Symbol(Symbol),
}

/// A token: what it is, where it stands, and the range of its bytes.
#[derive(Debug, Clone, Copy, PartialEq, Eq)]
pub struct Token {
    pub kind: TokenKind,
    /// The place of its first byte.
    pub place: Place,
    /// The index of its first byte.
    pub from: u32,
    /// The index behind its last byte.
    pub to: u32,
}

/// What stands first in the bytes from an index on.
#[derive(Debug, Clone, Copy, PartialEq, Eq)]
pub enum Cut {
    /// A command, from its first token through its `;`.
    Command { start: usize, end: usize },
    /// Nothing but blanks and whole comments.
    Blank,
    /// A first token without a `;` behind it.
    Unended { start: usize },
    /// A comment that does not end, with no `;` before it.
    OpenComment { start: usize },
    /// A command of more than 65,536 bytes.
    LongCommand { start: usize, end: usize },
}

/// Why bytes are no tokens, with the place where that shows first.
#[derive(Debug, Clone, Copy, PartialEq, Eq, Error)]
pub enum LexFault {
    /// A byte outside comments that begins no token and is no blank.
    #[error("no token begins with this byte")]
    BadByte { place: Place, byte: u8 },
    /// A comment that does not end.
    #[error("the comment does not end")]
    OpenComment { place: Place },
    /// A name of more than 255 bytes.
    #[error("the name is too long")]
    LongName { place: Place },
    /// A numeral above 1,000,000.
    #[error("the numeral is too big")]
    BigLevel { place: Place },
    /// Memory ran out.
    #[error("out of memory")]
    Memory,
}

//! Commands cut from bytes that come piece by piece.
ghost use Rattle.std.specs.Prelude.{◌≡◌, ◌<◌, ◌≤◌, ◌+◌, ◌++◌, ◌∷◌, [], ℕ, List, drop, length, take};
ghost use Rattle.lego_lexer.specs.Commands.{command_cut};
ghost use Rattle.lego_lexer.specs.private.StartBefore.{start_before};

use crate::comment::{Delimiter, delimiter_of, is_blank};
use crate::limits::MAX_COMMAND;
use crate::token::Cut;
use lego_base::MAX_SCRIPT;

/// What came of a piece.
#[derive(Debug, Clone, Copy, PartialEq, Eq)]
pub enum Fed {
    /// All of the piece was taken, and no command has ended.
    More,
    /// So many bytes of the piece were taken, the last of which is the `;` that ends a command.
    /// The indices of the cut, `Command` or `LongCommand`, count from the first byte that was ever fed.
    Ended { used: usize, cut: Cut },
}

/// Cuts commands from bytes that come piece by piece, each byte seen once.
#[derive(Debug, Clone, Copy)]
pub struct Cutter {
    /// How many bytes were fed.
    fed: usize,
    /// The index of the first byte of the command behind the last `;`.
    start: Option<usize>,
    /// How many comments are open.
    depth: usize,
    /// The index of the last byte outside comments: of the `(` of the outermost, where one is open.
    comment: usize,
    /// The last byte, or 0 behind a whole `(*` or `*)`.
    last: u8,
    ghost few: { depth ≤ fed },
}

impl Cutter {
    ghost use Rattle.lego_lexer.specs.Cutter.{Stands, IsFed, Ends, HasStarted, IsNoCommand, IsStep};
    ghost use Rattle.lego_lexer.specs.Commands.{IsCut};

    /// A cutter that was fed nothing.
    pub fn new() -> Cutter
        ensures fed { result.fed ≡ 0 }
        ensures stands { Stands result 0 [] }
    {
        Cutter::at(0)
    }

    /// A cutter whose first byte has an index.
    pub(crate) fn at(index: usize) -> Cutter
        ensures fed { result.fed ≡ index }
        ensures stands { Stands result index [] }
    {
        Cutter {
            fed: index,
            start: None,
            depth: 0,
            comment: 0,
            last: 0,
        }
    }

    /// Takes the next bytes, up to the `;` that ends a command, or all. Behind `Ended` the caller feeds
    /// `piece[used..]` next. At most 16,777,216 bytes may be fed to a cutter.
    pub fn feed(&mut self, piece: &[u8]) -> Fed
        requires { self.old.fed + length piece.now ≤ MAX_SCRIPT }
        ensures { (from : ℕ) (bytes : List ℕ) → Stands self.old from bytes → IsFed self.new from bytes piece.now result }
    {
        self.scan(piece)
    }

    /// What `feed` does, for bytes of any number: those of `cut` may begin at any index.
    pub(crate) fn scan(&mut self, piece: &[u8]) -> Fed
        requires { self.old.fed + length piece.now ≤ usize.MAX }
        ensures { (from : ℕ) (bytes : List ℕ) → Stands self.old from bytes → IsFed self.new from bytes piece.now result }
    {
        for index in 0..piece.len() {
            if let Some(cut) = self.step(piece[index]) {
                return Fed::Ended {
                    used: index + 1,
                    cut,
                };
            }
        }
        Fed::More
    }

    /// What stands behind the last command: `Blank`, `Unended` or `OpenComment`.
    pub fn end(&self) -> Cut
        ensures cut { (from : ℕ) (bytes : List ℕ) → Stands self.now from bytes → IsCut from bytes result }
        ensures none { IsNoCommand result }
    {
        if self.depth > 0 {
            return Cut::OpenComment {
                start: self.comment,
            };
        }
        match self.start {
            Some(start) => Cut::Unended { start },
            None => Cut::Blank,
        }
    }

    /// The index of the first byte of the command behind the last one, if a token of it has come.
    /// A last `(` counts as one, until a `*` behind it makes a comment of it.
    pub fn started(&self) -> Option<usize>
        ensures { (from : ℕ) (bytes : List ℕ) → Stands self.now from bytes → HasStarted from bytes result }
    {
        self.start
    }

    /// How many bytes were fed: the index of the next one.
    pub fn fed(&self) -> usize
        ensures { result ≡ self.now.fed }
    {
        self.fed
    }

    /// Takes one byte, and gives the command that it ends.
    fn step(&mut self, byte: u8) -> Option<Cut>
        requires { self.old.fed < usize.MAX }
        ensures fed { self.new.fed ≡ self.old.fed + 1 }
        ensures stands { (from : ℕ) (bytes : List ℕ) → Stands self.old from bytes → IsStep self.new from (bytes ++ byte ∷ []) result }
    {
        if self.depth > 0 {
            self.step_inside(byte);
            return None;
        }
        match delimiter_of(self.last, byte) {
            Delimiter::Opens => {
                self.open();
                None
            }
            _ => self.step_outside(byte),
        }
    }

    /// Takes a byte in a comment.
    fn step_inside(&mut self, byte: u8)
        requires room { self.old.fed < usize.MAX }
        requires inside { 0 < self.old.depth }
        ensures fed { self.new.fed ≡ self.old.fed + 1 }
        ensures stands { (from : ℕ) (bytes : List ℕ) → Stands self.old from bytes → Stands self.new from (bytes ++ byte ∷ []) }
    {
        self.fed += 1;
        let delimiter = delimiter_of(self.last, byte);
        self.last = 0;
        match delimiter {
            Delimiter::Opens => self.depth += 1,
            Delimiter::Closes => self.depth -= 1,
            Delimiter::Neither => self.last = byte,
        }
    }

    /// Takes the `*` of a `(*` outside comments.
    fn open(&mut self)
        requires room { self.old.fed < usize.MAX }
        requires outside { self.old.depth ≡ 0 }
        requires half { self.old.last ≡ 40 }
        ensures fed { self.new.fed ≡ self.old.fed + 1 }
        ensures stands { (from : ℕ) (bytes : List ℕ) → Stands self.old from bytes → Stands self.new from (bytes ++ 42 ∷ []) }
    {
        self.fed += 1;
        self.start = start_before(self.start, self.comment);
        self.depth = 1;
        self.last = 0;
    }

    /// Takes a byte outside comments, which begins none with the last one.
    fn step_outside(&mut self, byte: u8) -> Option<Cut>
        requires room { self.old.fed < usize.MAX }
        requires outside { self.old.depth ≡ 0 }
        requires apart { self.old.last ≡ 40 → byte ≡ 42 → ⊥ }
        ensures fed { self.new.fed ≡ self.old.fed + 1 }
        ensures stands { (from : ℕ) (bytes : List ℕ) → Stands self.old from bytes → IsStep self.new from (bytes ++ byte ∷ []) result }
    {
        let index = self.fed;
        self.fed += 1;
        self.comment = index;
        self.last = byte;
        if self.start.is_none() && is_blank(byte) {
            return None;
        }
        let start = self.start.unwrap_or(index);
        if byte == b';' {
            self.start = None;
            return Some(command(start, index + 1));
        }
        self.start = Some(start);
        None
    }
}

/// Where a command began, unless it would begin with the comment at an index.
fn start_before(start: Option<usize>, comment: usize) -> Option<usize>
    ensures { result ≡ start_before start comment }
{
    match start {
        Some(start) if start < comment => Some(start),
        _ => None,
    }
}

/// The cut of a command from its first byte to behind its `;`.
fn command(start: usize, end: usize) -> Cut
    ensures { result ≡ command_cut start end }
{
    if start.saturating_add(MAX_COMMAND) < end {
        Cut::LongCommand { start, end }
    } else {
        Cut::Command { start, end }
    }
}

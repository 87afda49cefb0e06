//! The bytes behind the last command, which come piece by piece.
ghost use Rattle.std.specs.Prelude.{◌≡◌, ◌≤◌, ◌+◌, ◌-◌, ◌++◌, [], ℕ, List, length, take, OnOk, IfOk};
ghost use Rattle.lego_base.specs.Place.{behind};
ghost use Rattle.lego_base.specs.declared.place.Place.{Place as TextPlace};
ghost use Rattle.lego_lexer.specs.Commands.{Cuts};
ghost use Rattle.lego_lexer.specs.Cutter.{Stands};
ghost use Rattle.lego_session.specs.Texts.{first_place};
ghost use Rattle.lego_session.specs.private.Pending.{IsNear, place_before, IsKept, IsMarked, IsStart, IsPending, IsSomePending, IsTaken, IsTakenWithin, ending_of, range_of};

use lego_base::{MAX_SCRIPT, Place, after};
use lego_lexer::{Cut, Cutter, Fed, MAX_COMMAND};
use std::alloc::{AllocError, Global};

/// What came of a piece.
#[derive(Clone, Copy)]
pub(crate) enum Taken {
    /// All of the piece was taken, and no command has ended.
    More,
    /// So many bytes of the piece were taken, the last of which ends a command of `count` bytes.
    Command { used: usize, count: usize },
}

/// What stands behind the last command.
#[derive(Clone, Copy)]
pub(crate) enum Rest {
    /// Blanks and whole comments.
    Blank,
    /// A first token, which no `;` follows.
    Unended { place: Place },
    /// A comment that does not end.
    OpenComment { place: Place },
}

/// The bytes behind the last command; of a command at most 65,536 are kept.
#[derive(Drop)]
pub(crate) struct Pending {
    cutter: Cutter,
    /// Where the next byte stands.
    here: Place,
    /// Where the command begins, if a token of it has come.
    pub first: Place,
    /// The first bytes of that command.
    pub kept: Vec<u8>,
    /// Where the comment begins in which the bytes end, if they do.
    comment: Place,
}

impl Pending {
    /// No byte has come.
    pub(crate) fn new(alloc: Global) -> Pending
        ensures { IsPending result first_place 0 [] }
    {
        let start = Place { line: 1, column: 1 };
        Pending {
            cutter: Cutter::new(),
            here: start,
            first: start,
            kept: Vec::new(alloc),
            comment: start,
        }
    }

    /// How many bytes have come.
    pub(crate) fn fed(&self) -> usize
        ensures { result ≡ self.now.cutter.fed }
    {
        self.cutter.fed()
    }

    /// Takes the next bytes, up to the `;` that ends a command, or all. Behind such a `;` the
    /// command's bytes are kept until the next call.
    pub(crate) fn take(&mut self, piece: &[u8]) -> Result<Taken, AllocError>
        requires some { IsSomePending self.old }
        requires near { IsNear self.old.here self.old.cutter.fed }
        requires few { self.old.cutter.fed + length piece.now ≤ MAX_SCRIPT }
        ensures taken { IfOk result (λ taken. (place : TextPlace) (from : ℕ) (bytes : List ℕ) → IsPending self.old place from bytes → IsTaken self.new place from bytes piece.now taken) }
        ensures within { IfOk result (λ taken. IsTakenWithin piece.now taken) }
    {
        let base = self.cutter.fed();
        match self.cutter.feed(piece) {
            Fed::More => {
                let start = self.cutter.started();
                self.keep(base, start, piece)?;
                self.mark(base, piece);
                self.here = after(self.here, piece);
                Ok(Taken::More)
            }
            Fed::Ended { used, cut } => {
                let (start, end) = range_of(cut);
                let bytes = &piece[..used];
                self.keep(base, Some(start), bytes)?;
                self.here = after(self.here, bytes);
                let count = end.saturating_sub(start);
                Ok(Taken::Command { used, count })
            }
        }
    }

    /// Keeps what belongs to the command among the next bytes, of which the first has an index.
    fn keep(&mut self, base: usize, start: Option<usize>, bytes: &[u8]) -> Result<(), AllocError>
        requires near { IsNear self.old.here base }
        requires few { base + length bytes.now ≤ MAX_SCRIPT }
        ensures others { self.new ≡ record self.old { first = self.new.first; kept = self.new.kept } }
        ensures kept { OnOk result ((place : TextPlace) (from : ℕ) (old : List ℕ) → self.old.here ≡ behind place old → base ≡ from + length old → IsStart from (old ++ bytes.now) start → IsKept self.old.first self.old.kept.items place old → IsKept self.new.first self.new.kept.items place (old ++ bytes.now)) }
    {
        let Some(start) = start else {
            return Ok(());
        };
        if start < base {
            return self.extend(bytes);
        }
        let from = (start - base).min(bytes.len());
        self.first = after(self.here, &bytes[..from]);
        self.kept.clear();
        self.extend(&bytes[from..])
    }

    /// Keeps more bytes, within the limit.
    fn extend(&mut self, bytes: &[u8]) -> Result<(), AllocError>
        ensures others { self.new ≡ record self.old { kept = self.new.kept } }
        ensures kept { OnOk result (self.new.kept.items ≡ self.old.kept.items ++ take (65536 - length self.old.kept.items) bytes.now) }
    {
        let room = MAX_COMMAND.saturating_sub(self.kept.len());
        self.kept.extend_from_slice(&bytes[..bytes.len().min(room)])
    }

    /// Marks where the comment begins in which the bytes end, behind the last ones that came.
    fn mark(&mut self, base: usize, bytes: &[u8])
        requires near { IsNear self.old.here base }
        requires few { base + length bytes.now ≤ MAX_SCRIPT }
        ensures others { self.new ≡ record self.old { comment = self.new.comment } }
        ensures marked { (place : TextPlace) (from : ℕ) (old : List ℕ) → self.old.here ≡ behind place old → base ≡ from + length old → Stands self.old.cutter from (old ++ bytes.now) → IsMarked self.old.comment place old → IsMarked self.new.comment place (old ++ bytes.now) }
    {
        match self.cutter.end() {
            Cut::OpenComment { start } => {
                if base <= start {
                    let from = (start - base).min(bytes.len());
                    self.comment = after(self.here, &bytes[..from]);
                } else if base - start == 1 {
                    // Its `(` came last, and ends no line.
                    self.comment = place_before(self.here);
                }
            }
            Cut::Blank => {}
            Cut::Unended { .. } => {}
            Cut::Command { .. } => {}
            Cut::LongCommand { .. } => {}
        }
    }

    /// What stands behind the last command, where no more bytes come.
    pub(crate) fn rest(&self) -> Rest
        ensures { (place : TextPlace) (from : ℕ) (bytes : List ℕ) → IsPending self.now place from bytes → Cuts place bytes [] (ending_of result) }
    {
        match self.cutter.end() {
            Cut::Unended { .. } => Rest::Unended { place: self.first },
            Cut::OpenComment { .. } => Rest::OpenComment {
                place: self.comment,
            },
            Cut::Blank => Rest::Blank,
            Cut::Command { .. } => Rest::Blank,
            Cut::LongCommand { .. } => Rest::Blank,
        }
    }
}

/// The place before a byte that ends no line.
fn place_before(place: Place) -> Place
    ensures { result ≡ place_before place }
{
    Place {
        column: place.column.saturating_sub(1),
        ..place
    }
}

/// The range of a command's indices, if the cut is one.
fn range_of(cut: Cut) -> (usize, usize)
    ensures { result ≡ range_of cut }
{
    match cut {
        Cut::Command { start, end } => (start, end),
        Cut::LongCommand { start, end } => (start, end),
        _ => (0, 0),
    }
}

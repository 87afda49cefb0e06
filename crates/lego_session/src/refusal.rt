//! Refusals of commands.
ghost use Rattle.std.specs.Prelude.{◌≡◌, []};
ghost use Rattle.lego_context.specs.Entries.{HasNoHole};
ghost use Rattle.lego_session.specs.Causes.{IsTold, read_place, read_cause, cause_of};
ghost use Rattle.lego_session.specs.private.Refusals.{IsRefusalOf, reduce_cause};

use crate::refusal_text::refusal_text;
use lego_base::{Names, Place};
use lego_context::Context;
use lego_inference::{Counted, TypeFault};
use lego_level::Constraint;
use lego_lexer::LexFault;
use lego_reading::ReadFault;
use lego_reduce::ReduceFault;
use lego_term::{List, Seen, Term};
use lego_undo::UndoFault;
use std::alloc::Global;

/// Why a command is refused.
#[derive(Drop)]
pub enum Cause {
    /// A byte that begins no token.
    BadByte { byte: u8 },
    /// A comment that does not end.
    OpenComment,
    /// A name of more than 255 bytes.
    LongName,
    /// A numeral above 1,000,000.
    BigLevel,
    /// The first token after which no reading exists, or the first token of a command whose
    /// form is not built.
    Unexpected { token: List<u8> },
    /// The first token of nesting 501.
    TooDeep,
    /// A command without its `;`.
    Unended,
    /// A command of so many bytes, which are more than 65,536.
    LongCommand { bytes: u64 },
    /// More than 1,048,576 names.
    NamesFull,
    /// A name that neither a local variable nor an entry has.
    UnknownName { name: u32 },
    /// `?number`, where there is no such goal.
    UnknownGoal { number: u32 },
    /// A name that an entry has, or that stands earlier in the same list.
    NameInUse { name: u32 },
    /// `term` stands where a type is wanted, and its rule type `got` is no sort.
    NotAType { term: Seen, got: Seen },
    /// `term` stands where a function is wanted; `got` is its rule type.
    NotAFunction { term: Seen, got: Seen },
    /// `term` stands where a pair is wanted; `got` is its rule type.
    NotAPair { term: Seen, got: Seen },
    /// `term` stands where the type `want` is stated; `have` is its rule type.
    Mismatch { term: Seen, have: Seen, want: Seen },
    /// The constraints between universe levels have this cycle.
    Universe { cycle: List<Constraint> },
    /// One comparison, of two terms, or one reduction takes more steps than the limit.
    Budget { left: Seen, right: Option<Seen> },
    /// A term of this size and depth, one of which is over its limit.
    TooLarge { size: u64, depth: u32 },
    /// The constraint forces a least level over 1,000,000.
    LevelTooBig { constraint: Constraint, needed: u64 },
    /// `held` are held, which is the limit.
    Full { of: Counted, held: u32 },
    /// The written type of a pair, with the core `got`, is no Sigma type.
    NotSigma { got: Seen },
    /// More steps are to be undone than are held.
    TooFar { asked: u64, held: u64 },
    /// Memory ran out.
    Memory,
}

impl From<LexFault> for Cause {
    ghost use Rattle.lego_session.specs.Answers.{lex_cause};

    ghost from_gives = { λ fault cause. cause ≡ lex_cause fault };

    fn from(fault: LexFault) -> Cause {
        match fault {
            LexFault::BadByte { byte, .. } => Cause::BadByte { byte },
            LexFault::OpenComment { .. } => Cause::OpenComment,
            LexFault::LongName { .. } => Cause::LongName,
            LexFault::BigLevel { .. } => Cause::BigLevel,
            LexFault::Memory => Cause::Memory,
        }
    }
}

impl From<UndoFault> for Cause {
    ghost use Rattle.lego_session.specs.private.Refusals.{undo_cause};

    ghost from_gives = { λ fault cause. cause ≡ undo_cause fault };

    fn from(fault: UndoFault) -> Cause {
        match fault {
            UndoFault::TooFar { asked, held } => Cause::TooFar { asked, held },
        }
    }
}

/// Why a command is refused, and where.
#[derive(Drop)]
pub(crate) struct Reason {
    pub place: Place,
    pub cause: Cause,
}

impl Reason {
    /// Want of memory.
    pub(crate) fn memory(place: Place) -> Reason
        ensures place { result.place ≡ place }
        ensures cause { result.cause ≡ Cause.Memory }
    {
        Reason {
            place,
            cause: Cause::Memory,
        }
    }

    /// A written term of the command or binding at the place is not read.
    pub(crate) fn unread(place: Place, fault: ReadFault) -> Reason
        ensures place { result.place ≡ read_place fault place }
        ensures cause { result.cause ≡ read_cause fault }
    {
        let (place, cause) = match fault {
            ReadFault::UnknownName { place, name } => (place, Cause::UnknownName { name }),
            ReadFault::UnknownGoal { place, number } => (place, Cause::UnknownGoal { number }),
            ReadFault::NotSigma { got } => (place, Cause::NotSigma { got }),
            ReadFault::TooLarge { size, depth } => (place, Cause::TooLarge { size, depth }),
            ReadFault::Budget { left } => (place, Cause::Budget { left, right: None }),
            ReadFault::Full { held } => {
                let of = Counted::Levels;
                (place, Cause::Full { of, held })
            }
            ReadFault::Memory => (place, Cause::Memory),
        };
        Reason { place, cause }
    }

    /// The context refuses a term or an entry. It was asked for a new name, and has no hole.
    pub(crate) fn untyped(place: Place, fault: TypeFault) -> Reason
        requires { IsTold fault }
        ensures place { result.place ≡ place }
        ensures cause { result.cause ≡ cause_of fault }
    {
        let cause = match fault {
            TypeFault::NotAType { term, got } => Cause::NotAType { term, got },
            TypeFault::NotAFunction { term, got } => Cause::NotAFunction { term, got },
            TypeFault::NotAPair { term, got } => Cause::NotAPair { term, got },
            TypeFault::Mismatch { term, have, want } => Cause::Mismatch { term, have, want },
            TypeFault::Universe { cycle } => Cause::Universe { cycle },
            TypeFault::Budget { left, right } => Cause::Budget { left, right },
            TypeFault::TooLarge { size, depth } => Cause::TooLarge { size, depth },
            TypeFault::LevelTooBig { constraint, needed } => {
                Cause::LevelTooBig { constraint, needed }
            }
            TypeFault::Full { of, held } => Cause::Full { of, held },
            TypeFault::Memory => Cause::Memory,
            TypeFault::NameInUse { .. } => unreachable!(),
            TypeFault::Circular { .. } => unreachable!(),
        };
        Reason { place, cause }
    }

    /// A form of the term is not reached.
    pub(crate) fn unreduced(alloc: Global, place: Place, term: Term, fault: ReduceFault) -> Reason
        ensures place { result.place ≡ place }
        ensures cause { result.cause ≡ reduce_cause term fault }
    {
        let cause = match fault {
            ReduceFault::Budget => {
                let under = List::of(Vec::new(alloc));
                let left = Seen { under, term };
                Cause::Budget { left, right: None }
            }
            ReduceFault::TooLarge { size, depth } => Cause::TooLarge { size, depth },
            ReduceFault::Memory => Cause::Memory,
        };
        Reason { place, cause }
    }
}

/// A refused command: where, why, and the text of the answer, which is empty where memory
/// ran out. The state is as before.
#[derive(Drop)]
pub struct Refusal {
    pub place: Place,
    pub cause: Cause,
    pub text: List<u8>,
}

impl Refusal {
    /// The refusal for want of memory.
    pub(crate) fn memory(alloc: Global, place: Place) -> Refusal
        ensures cause { result.cause ≡ Cause.Memory }
        ensures text { result.text ≡ [] }
    {
        Refusal {
            place,
            cause: Cause::Memory,
            text: List::of(Vec::new(alloc)),
        }
    }

    /// The refusal for a cause, with the names of the context's entries in its text.
    pub(crate) fn of(
        alloc: Global,
        names: &Names,
        context: &Context,
        place: Place,
        cause: Cause,
    ) -> Refusal
        requires { HasNoHole context.now.entries }
        ensures { IsRefusalOf names.now context.now.entries place cause result.place result.cause result.text }
    {
        if let Cause::Memory = cause {
            return Refusal::memory(alloc, place);
        }
        match refusal_text(alloc, names, context, place, &cause) {
            Ok(text) => Refusal {
                place,
                cause,
                text: List::of(text),
            },
            Err(_) => Refusal::memory(alloc, place),
        }
    }
}

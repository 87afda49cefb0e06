//! Why a term, an entry or a set of constraints is refused.
ghost use Rattle.std.specs.Prelude.{◌≡◌};
ghost use Rattle.lego_inference.specs.declared.fault.TypeFault.TheVariants.{Memory};
ghost use Rattle.lego_inference.specs.private.Faults.{of_term};

use lego_level::Constraint;
use lego_term::{List, Seen, TermFault};
use std::alloc::AllocError;

/// What is counted against a limit.
#[derive(Debug, Clone, Copy, PartialEq, Eq)]
pub enum Counted {
    Entries,
    Levels,
}

/// Why a context refuses.
#[derive(Drop)]
pub enum TypeFault {
    /// `term` stands where a type is wanted; `got` is its rule type.
    NotAType { term: Seen, got: Seen },
    /// `term` stands where a function is wanted; `got` is its rule type.
    NotAFunction { term: Seen, got: Seen },
    /// `term` stands where a pair is wanted; `got` is its rule type.
    NotAPair { term: Seen, got: Seen },
    /// `term` stands where the type `want` is stated; `have` is its rule type.
    Mismatch { term: Seen, have: Seen, want: Seen },
    /// The constraints can't be satisfied.
    Universe { cycle: List<Constraint> },
    /// One comparison or reduction needs more steps than the limit.
    Budget { left: Seen, right: Option<Seen> },
    /// A term passes a limit of size, depth, height or weight.
    TooLarge { size: u64, depth: u32 },
    /// The constraint forces a least value over the limit.
    LevelTooBig { constraint: Constraint, needed: u64 },
    /// `held` are held, which is the limit.
    Full { of: Counted, held: u32 },
    /// The hole is reached from its own body.
    Circular { hole: u32 },
    /// The entry at this place has the name.
    NameInUse { at: usize },
    /// Memory ran out.
    Memory,
}

impl From<AllocError> for TypeFault {
    ghost from_gives = { λ _ fault. fault ≡ Memory };

    fn from(_: AllocError) -> TypeFault {
        TypeFault::Memory
    }
}

impl From<TermFault> for TypeFault {
    ghost from_gives = { λ given fault. fault ≡ of_term given };

    fn from(given: TermFault) -> TypeFault {
        match given {
            TermFault::TooLarge { size, depth } => TypeFault::TooLarge { size, depth },
            TermFault::Memory => TypeFault::Memory,
        }
    }
}

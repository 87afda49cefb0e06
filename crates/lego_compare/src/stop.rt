//! Why a walk through two terms stopped.
ghost use Rattle.std.specs.Prelude.{◌≡◌};
ghost use Rattle.lego_compare.specs.declared.stop.Stop.TheVariants.{Memory};

use lego_term::Term;
use std::alloc::AllocError;

/// One of the two terms.
#[derive(Debug, Clone, Copy, PartialEq, Eq)]
pub(crate) enum Side {
    Left,
    Right,
}

/// Why a walk stopped, as the walk sees it.
#[derive(Drop)]
pub(crate) enum Stop {
    /// It came to these head forms, whose roots refute the relation, under so many binders.
    Differ {
        left: Term,
        right: Term,
        deeper: u32,
    },
    /// It made more steps than the limit.
    Budget,
    /// On this side it came to a term that passes a limit of terms, or through too many parts.
    TooLarge {
        side: Side,
        size: u64,
        depth: u32,
    },
    /// Memory ran out.
    Memory,
}

impl From<AllocError> for Stop {
    ghost from_gives = { λ _ stop. stop ≡ Memory };

    fn from(_: AllocError) -> Stop {
        Stop::Memory
    }
}

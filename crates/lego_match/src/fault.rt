//! Why two terms give no candidate.
ghost use Rattle.std.specs.Prelude.{◌≡◌};
ghost use Rattle.lego_match.specs.private.Faults.{of_reduction};
ghost use Rattle.lego_match.specs.declared.fault.MatchFault.TheVariants.{Memory};

use lego_reduce::ReduceFault;
use lego_term::{Binder, List, Term};
use std::alloc::AllocError;

/// Why two terms were not matched. In each, `deeper` lists the binders of the left side that the
/// walk has crossed, the outermost first.
#[derive(Drop)]
pub enum MatchFault {
    /// The parts of this pair have no free hole at their heads, and not one form with parts.
    Clash {
        left: Term,
        right: Term,
        deeper: List<Binder>,
    },
    /// The other part of the pair mentions the hole.
    Occurs {
        hole: u32,
    },
    /// The other part of the pair has a local beyond the hole's hypotheses: this one is the first,
    /// left to right, counted from 0 at the innermost of the locals and the binders crossed.
    Scope {
        hole: u32,
        variable: u32,
        deeper: List<Binder>,
    },
    /// A part of this pair has a free hole at its head, and is not just the hole applied to its
    /// own hypotheses.
    HigherOrder {
        left: Term,
        right: Term,
        deeper: List<Binder>,
    },
    /// The normalisation sequences of both terms together have more steps than the limit.
    Budget,
    /// A term that one of the normalisation sequences reaches within the limit has a subtree of
    /// this size and depth, which passes a limit of terms.
    TooLarge {
        size: u64,
        depth: u32,
    },
    /// Memory ran out.
    Memory,
}

impl From<ReduceFault> for MatchFault {
    ghost from_gives = { λ given fault. fault ≡ of_reduction given };

    fn from(given: ReduceFault) -> MatchFault {
        match given {
            ReduceFault::Budget => MatchFault::Budget,
            ReduceFault::TooLarge { size, depth } => MatchFault::TooLarge { size, depth },
            ReduceFault::Memory => MatchFault::Memory,
        }
    }
}

impl From<AllocError> for MatchFault {
    ghost from_gives = { λ _ fault. fault ≡ Memory };

    fn from(_: AllocError) -> MatchFault {
        MatchFault::Memory
    }
}

//! Why a walk through two terms stopped.
ghost use Rattle.std.specs.Prelude.{◌≡◌};
ghost use Rattle.lego_match.specs.private.Faults.{stop_of};
ghost use Rattle.lego_match.specs.declared.stop.Stop.TheVariants.{Memory};

use lego_reduce::ReduceFault;
use lego_term::Term;
use std::alloc::AllocError;

/// Why a walk stopped.
#[derive(Drop)]
pub(crate) enum Stop {
    /// It came to these normal forms, which don't agree.
    Apart { left: Term, right: Term },
    /// It made more steps than the limit.
    Budget,
    /// It can't go on by parts: a term was too large, the path too long, or a part stood under
    /// more variables than `normal` takes. The whole normal forms are asked for.
    Whole,
    /// Memory ran out.
    Memory,
}

impl From<ReduceFault> for Stop {
    ghost from_gives = { λ given stop. stop ≡ stop_of given };

    fn from(given: ReduceFault) -> Stop {
        match given {
            ReduceFault::Budget => Stop::Budget,
            ReduceFault::TooLarge { .. } => Stop::Whole,
            ReduceFault::Memory => Stop::Memory,
        }
    }
}

impl From<AllocError> for Stop {
    ghost from_gives = { λ _ stop. stop ≡ Memory };

    fn from(_: AllocError) -> Stop {
        Stop::Memory
    }
}

ghost use Rattle.std.specs.Prelude.{◌≡◌};
ghost use Rattle.lego_reduce.specs.private.Faults.{of_term};
ghost use Rattle.lego_reduce.specs.declared.fault.ReduceFault.TheVariants.{Memory};

use lego_term::TermFault;
use std::alloc::AllocError;

/// Why a term was not reduced.
#[derive(Debug, Clone, Copy, PartialEq, Eq)]
pub enum ReduceFault {
    /// The sequence has more steps than the limit.
    Budget,
    /// A term that the sequence reaches within the limit has a subtree of this size and
    /// depth, which passes a limit of terms.
    TooLarge { size: u64, depth: u32 },
    /// Memory ran out.
    Memory,
}

impl From<TermFault> for ReduceFault {
    ghost from_gives = { λ given fault. fault ≡ of_term given };

    fn from(given: TermFault) -> ReduceFault {
        match given {
            TermFault::TooLarge { size, depth } => ReduceFault::TooLarge { size, depth },
            TermFault::Memory => ReduceFault::Memory,
        }
    }
}

impl From<AllocError> for ReduceFault {
    ghost from_gives = { λ _ fault. fault ≡ Memory };

    fn from(_: AllocError) -> ReduceFault {
        ReduceFault::Memory
    }
}

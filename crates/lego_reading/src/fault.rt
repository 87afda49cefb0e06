ghost use Rattle.std.specs.Prelude.{◌≡◌};
ghost use Rattle.lego_term.specs.Made.{Makes};
ghost use Rattle.lego_term.specs.Trees.{Core};
ghost use Rattle.lego_reading.specs.private.Faults.{of_term};
ghost use Rattle.lego_reading.specs.private.Parts.{IsMade};
ghost use Rattle.lego_reading.specs.declared.fault.ReadFault.TheVariants.{Memory};

use lego_base::Place;
use lego_term::{Seen, Term, TermFault};
use std::alloc::AllocError;

/// Why a written term is not read.
#[derive(Drop)]
pub enum ReadFault {
    /// Neither a local variable nor an entry has the name.
    UnknownName { place: Place, name: u32 },
    /// `?number` stands for a goal.
    UnknownGoal { place: Place, number: u32 },
    /// Neither the core of a pair's written type, which is `got`, nor its head form is a Sigma
    /// type.
    NotSigma { got: Seen },
    /// The core of a part, or a term on the way to the head form of a pair's written type, would
    /// pass a limit; it would have this size and depth.
    TooLarge { size: u64, depth: u32 },
    /// The head form of the core of a pair's written type, with the values of local definitions
    /// put for their variables, which is `left`, takes more steps than the limit.
    Budget { left: Seen },
    /// The universes of the written `Type`s would make more level variables than this, which is
    /// the limit.
    Full { held: u32 },
    /// Memory ran out.
    Memory,
}

impl From<AllocError> for ReadFault {
    ghost from_gives = { λ _ fault. fault ≡ Memory };

    fn from(_: AllocError) -> ReadFault {
        ReadFault::Memory
    }
}

impl From<TermFault> for ReadFault {
    ghost from_gives = { λ given fault. fault ≡ of_term given };

    fn from(given: TermFault) -> ReadFault {
        match given {
            TermFault::TooLarge { size, depth } => ReadFault::TooLarge { size, depth },
            TermFault::Memory => ReadFault::Memory,
        }
    }
}

/// What a maker answers, as the answer of a reading.
pub(crate) fn made(term: Result<Term, TermFault>) -> Result<Term, ReadFault>
    ensures { (t : Core) → Makes t term → IsMade t result }
{
    Ok(term?)
}

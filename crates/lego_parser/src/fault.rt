//! Why tokens are no command.
use lego_base::Place;
use std::alloc::AllocError;
use thiserror::Error;

/// Why `parse` answers no command.
#[derive(Debug, Clone, Copy, PartialEq, Eq, Error)]
pub enum ParseFault {
    /// The first token after which no reading exists stands here.
    #[error("no command goes on with this token")]
    Unexpected { place: Place },
    /// The first token that is nested 501 levels deep stands here.
    #[error("this token is nested too deep")]
    TooDeep { place: Place },
    /// More than 1,048,576 names.
    #[error("there are too many names")]
    NamesFull,
    /// Memory ran out.
    #[error("out of memory")]
    Memory,
}

impl From<AllocError> for ParseFault {
    ghost use Rattle.std.specs.Prelude.{◌≡◌};
    ghost use Rattle.lego_parser.specs.declared.fault.ParseFault.TheVariants.{Memory};

    ghost from_gives = { λ _ fault. fault ≡ Memory };

    fn from(_: AllocError) -> ParseFault {
        ParseFault::Memory
    }
}

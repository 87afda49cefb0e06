//! What the words ask for, and why they are refused.
ghost use Rattle.std.specs.Prelude.{◌≡◌};

use thiserror::Error;

/// What a run is asked for.
#[derive(Debug, Clone, Copy, PartialEq, Eq)]
pub struct Options {
    /// The most steps of one comparison or reduction, from 1 to 10,000,000.
    pub steps: u64,
    /// Whether the run ends at the first refused command.
    pub stop: bool,
}

/// Why words are refused.
#[derive(Debug, Drop, Error)]
pub enum WordsFault {
    /// The words aren't of the written form. The index is that of the first word with which no
    /// list of that form goes on, or the number of words where only a value is missing.
    #[error("word {index}, counted from 0, is wrong or missing")]
    Usage { index: u32 },
    /// Memory ran out.
    #[error("out of memory")]
    Memory,
}

//! What undoes a step.

use crate::state::State;

/// How much of a context there is: its first so many entries and written `Type`s, and the number
/// of its level variables.
#[derive(Debug, Clone, Copy, PartialEq, Eq)]
pub struct Extent {
    pub entries: usize,
    pub universes: usize,
    pub levels: u32,
}

/// What leads from the state behind a step back to the state before it.
#[derive(Drop)]
pub enum Change {
    /// The state before is so much of the state behind.
    Cut { extent: Extent },
    /// The state before.
    Whole { state: State },
}

//! Why steps aren't undone.

/// Why steps aren't undone, which leaves state and history as they were.
#[derive(Debug, Clone, Copy, PartialEq, Eq, Drop)]
pub enum UndoFault {
    /// More steps than are held.
    TooFar { asked: u64, held: u64 },
}

//! The states of a session before each of its steps, kept by what changed.
#![tactic(auto)]

mod change;
mod history;
mod same;
mod state;
mod undo_fault;

pub use change::{Change, Extent};
pub use history::History;
pub use state::State;
pub use undo_fault::UndoFault;

//! Constraints between universe levels, kept with values that satisfy them
//! (Harper and Pollack, "Type checking with universes", 1991).
#![tactic(auto)]

mod constraint;
mod cycle;
mod direction;
mod draft;
mod edges;
mod fault;
mod graph;
mod least;
mod limits;
mod mend;
mod potential;
mod queue;
mod search;
mod solver;

pub use constraint::Constraint;
pub use fault::GraphFault;
pub use graph::Graph;

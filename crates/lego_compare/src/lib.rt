//! Cumulativity and conversion of terms by constraints between their levels: head forms are
//! compared, and then their parts.
#![tactic(auto)]

mod compare;
mod fault;
mod parts;
mod relation;
mod roots;
mod stop;
mod walk;

pub use compare::{below, same};
pub use fault::CompareFault;

//! Head forms and normal forms of terms, with the lengths of their sequences of steps
//! (Luo 1994, chapter 2).
#![tactic(auto)]

mod fault;
mod frames;
mod head_form;
mod normal_form;

pub use fault::ReduceFault;
pub use head_form::{Reduced, head};
pub use normal_form::normal;

//! The words behind the program's name.
#![tactic(auto)]

mod form;
mod laws;
mod number;
mod options;
mod reading;
mod values;

pub use laws::{one_meaning, one_usage};
pub use options::{Options, WordsFault};
pub use reading::read_words;

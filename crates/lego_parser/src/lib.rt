//! The parser: the command that a list of tokens is, by the grammar, or why it is none.
#![tactic(auto)]

mod actions;
mod build;
mod closings;
mod fault;
mod interning;
mod machine;
mod modes;
mod moves;
mod parser;
mod scan;
mod stack;
mod trees;

pub use fault::ParseFault;
pub use parser::parse;

//! Tests of the crates of bytes, tokens and written commands, over their public calls alone.
#![tactic(auto)]

#[cfg(test)]
mod base;
#[cfg(test)]
mod cutter;
#[cfg(test)]
mod lexer;
#[cfg(test)]
mod parser;

//! The bytes of a script cut into commands, and the bytes of a command into tokens.
#![tactic(auto)]

mod commands;
mod comment;
mod cutter;
mod laws;
mod limits;
mod scan;
mod spelling;
mod token;
mod tokens;

pub use commands::cut;
pub use cutter::{Cutter, Fed};
pub use laws::{cuts_are_unique, pieces_are_joined, scripts_are_cut, tokens_are_unique};
pub use limits::{MAX_COMMAND, MAX_NUMERAL};
pub use token::{Cut, LexFault, Symbol, Token, TokenKind, Word};
pub use tokens::lex;

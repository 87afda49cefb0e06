//! The limits within which bytes are cut and read.

/// The most bytes of a command, from its first token through its `;`.
pub const MAX_COMMAND: usize = 65_536;

/// The greatest numeral.
pub const MAX_NUMERAL: u32 = 1_000_000;

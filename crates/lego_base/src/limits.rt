//! The limits of texts, places and names.

/// The most bytes of a script.
pub const MAX_SCRIPT: usize = 16_777_216;

/// The greatest line and column from which a place may go on over a script.
pub const MAX_PLACE: u32 = 33_554_433;

/// The most names that are held.
pub const MAX_NAMES: usize = 1_048_576;

/// The most bytes of a name.
pub const MAX_NAME: usize = 255;

//! The limits of a graph, which have the same names in specs.

/// The greatest least value that a variable may have.
pub const MAX_VALUE: u64 = 1_000_000;

/// The value at which each node of a potential begins, 2^62. Values fall below it and rise above
/// it.
pub const START: u64 = 4_611_686_018_427_387_904;

/// How far the values of a potential may lie apart before a constraint is added, 2^60. One
/// constraint moves them by little more than this, so they stay between 2^60 and 2^63.
pub const MAX_SPREAD: u64 = 1_152_921_504_606_846_976;

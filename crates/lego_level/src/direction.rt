//! The two ways along a constraint.
ghost use Rattle.std.specs.Prelude.{◌≡◌};
ghost use Rattle.lego_level.specs.private.Incidence.{near_of, far_of};

use crate::constraint::Constraint;

/// Which way a search goes.
#[derive(Debug, Clone, Copy, PartialEq, Eq)]
pub enum Direction {
    /// From low nodes to high ones, which are raised.
    Up,
    /// From high nodes to low ones, which are lowered.
    Down,
}

impl Direction {
    /// The node of a constraint from which a search comes.
    pub fn near(self, constraint: Constraint) -> Option<u32>
        ensures { result ≡ near_of self constraint }
    {
        match self {
            Direction::Up => constraint.low.base,
            Direction::Down => constraint.high.base,
        }
    }

    /// The node of a constraint to which a search goes.
    pub fn far(self, constraint: Constraint) -> Option<u32>
        ensures { result ≡ far_of self constraint }
    {
        match self {
            Direction::Up => constraint.high.base,
            Direction::Down => constraint.low.base,
        }
    }
}

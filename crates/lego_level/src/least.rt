//! The least solution, from a potential: all that can rise with the zero node rises with it.
ghost use Rattle.std.specs.Prelude.{IfOk};
ghost use Rattle.lego_level.specs.Graphs.{HasVariablesBelow};
ghost use Rattle.lego_level.specs.private.Lowest.{IsLowest};
ghost use Rattle.lego_level.specs.private.Potentials.{value_at, IsFeasible, IsBelowTop};
ghost use Rattle.lego_level.specs.private.Searches.{reached_at};

use crate::direction::Direction;
use crate::draft::{BLANK, Draft};
use crate::edges::Edges;
use crate::potential::Potential;
use crate::search::{Step, Task, advance, start};
use std::alloc::{AllocError, Global};

/// Raises the zero node until each variable below the count is as low above it as can be.
pub fn lowest(
    alloc: Global,
    edges: &Edges,
    potential: &Potential,
    count: u32,
) -> Result<Draft, AllocError>
    requires feasible { IsFeasible (value_at potential.now) edges.now }
    requires top { IsBelowTop potential.now }
    requires below { HasVariablesBelow count edges.now }
    ensures { IfOk result (λ d. IsLowest edges.now count (reached_at d)) }
{
    let spread = potential.top - potential.zero;
    let task = Task {
        direction: Direction::Up,
        added: BLANK,
        gain: spread.checked_add(1).ok_or(AllocError)?,
        count,
    };
    let mut search = start(alloc, task, edges, potential)?;
    'steps: loop {
        match advance(task, edges, potential, &mut search)? {
            Step::More => {}
            Step::Ended => return Ok(search.draft),
            Step::Stopped(_) => unreachable!(),
        }
    }
}

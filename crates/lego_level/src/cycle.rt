//! Reads a cycle off the causes of what a search reached. Ranks fall along causes, so no node is
//! met twice.
ghost use Rattle.std.specs.Prelude.{◌≡◌, ◌∷◌, Contains, IfOk};
ghost use Rattle.lego_level.specs.Graphs.{IsClosedWalk, IsKnown};
ghost use Rattle.lego_level.specs.private.Potentials.{value_at};
ghost use Rattle.lego_level.specs.private.Searches.{reached_at, Turns};
ghost use Rattle.lego_level.specs.declared.constraint.Constraint.{Constraint};
ghost use Rattle.lego_level.specs.declared.direction.Direction.TheVariants.{Up, Down};

use crate::constraint::Constraint;
use crate::direction::Direction;
use crate::draft::Draft;
use crate::edges::Edges;
use crate::potential::Potential;
use crate::search::Task;
use lego_term::List;
use std::alloc::{AllocError, Global};

/// The closed walk of the added constraint, of the causes, and of the constraint by which a
/// search came back.
pub fn walk(
    alloc: Global,
    task: Task,
    edges: &Edges,
    potential: &Potential,
    draft: &Draft,
    closing: Constraint,
) -> Result<List<Constraint>, AllocError>
    requires { Turns task (value_at potential.now) edges.now (reached_at draft.now) closing }
    ensures closed { IfOk result (λ cycle. IsClosedWalk task.added.low.base cycle) }
    ensures known { IfOk result (λ cycle. (c : Constraint) → Contains cycle c → IsKnown (task.added ∷ edges.now) c) }
{
    match task.direction {
        Direction::Up => walk_back(alloc, task, edges, potential, draft, closing),
        Direction::Down => walk_on(alloc, task, edges, potential, draft, closing),
    }
}

/// The walk of a search that went up: causes lead back to the head of the added constraint.
fn walk_back(
    alloc: Global,
    task: Task,
    edges: &Edges,
    potential: &Potential,
    draft: &Draft,
    closing: Constraint,
) -> Result<List<Constraint>, AllocError>
    requires up { task.direction ≡ Up }
    requires turns { Turns task (value_at potential.now) edges.now (reached_at draft.now) closing }
    ensures closed { IfOk result (λ cycle. IsClosedWalk task.added.low.base cycle) }
    ensures known { IfOk result (λ cycle. (c : Constraint) → Contains cycle c → IsKnown (task.added ∷ edges.now) c) }
{
    let mut chain = Vec::new(alloc);
    chain.push(closing)?;
    let mut at = closing.low.base;
    'causes: while at != task.added.high.base {
        let cause = draft.get(at).cause;
        chain.push(cause)?;
        at = cause.low.base;
    }
    chain.push(task.added)?;
    chain.reverse();
    Ok(List::of(chain))
}

/// The walk of a search that went down: causes lead on to the tail of the added constraint.
fn walk_on(
    alloc: Global,
    task: Task,
    edges: &Edges,
    potential: &Potential,
    draft: &Draft,
    closing: Constraint,
) -> Result<List<Constraint>, AllocError>
    requires down { task.direction ≡ Down }
    requires turns { Turns task (value_at potential.now) edges.now (reached_at draft.now) closing }
    ensures closed { IfOk result (λ cycle. IsClosedWalk task.added.low.base cycle) }
    ensures known { IfOk result (λ cycle. (c : Constraint) → Contains cycle c → IsKnown (task.added ∷ edges.now) c) }
{
    let mut chain = Vec::new(alloc);
    chain.push(task.added)?;
    chain.push(closing)?;
    let mut at = closing.high.base;
    'causes: while at != task.added.low.base {
        let cause = draft.get(at).cause;
        chain.push(cause)?;
        at = cause.high.base;
    }
    Ok(List::of(chain))
}

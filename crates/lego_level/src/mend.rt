//! Mends a potential by two searches that go in turn: up from the head of the added constraint,
//! and down from its tail. The one that ends first is kept.
ghost use Rattle.std.specs.Prelude.{◌≡◌, ◌+◌, ◌<◌, IfOk, None};
ghost use Rattle.lego_level.specs.declared.direction.Direction.TheVariants.{Up, Down};
ghost use Rattle.lego_level.specs.declared.mend.Outcome.TheVariants.{Closed};
ghost use Rattle.lego_level.specs.private.Outcomes.{IsMending, IsOutcome};
ghost use Rattle.lego_level.specs.private.Potentials.{value_at, low_of, high_of, IsFeasible};
ghost use Rattle.lego_level.specs.private.Searches.{Searches};

use crate::constraint::Constraint;
use crate::direction::Direction;
use crate::draft::Draft;
use crate::edges::Edges;
use crate::potential::Potential;
use crate::search::{Search, Step, Task, advance, start};
use std::alloc::{AllocError, Global};

/// What came of two searches.
#[derive(Drop)]
pub enum Outcome {
    /// The reached nodes are to be moved.
    Mended(Draft),
    /// A search came back to the added constraint.
    Closed(Closing),
}

/// What a search reached, and the constraint by which it came back.
#[derive(Drop)]
pub struct Closing {
    pub task: Task,
    pub draft: Draft,
    pub closing: Constraint,
}

/// Looks for what must move once a constraint is added that asks for more by the given number.
pub fn mend(
    alloc: Global,
    edges: &Edges,
    potential: &Potential,
    added: Constraint,
    lack: u64,
) -> Result<Outcome, AllocError>
    requires feasible { IsFeasible (value_at potential.now) edges.now }
    requires lack { lack + high_of (value_at potential.now) added ≡ low_of (value_at potential.now) added }
    requires more { 0 < lack }
    requires apart { added.low.base ≡ added.high.base → ⊥ }
    ensures { IfOk result (IsOutcome (value_at potential.now) edges.now added) }
{
    let raise = Task {
        direction: Direction::Up,
        added,
        gain: lack,
        count: 0,
    };
    let lower = Task {
        direction: Direction::Down,
        ..raise
    };
    let down = start(alloc, lower, edges, potential)?;
    if added.high.base.is_none() {
        return go_down(lower, edges, potential, down);
    }
    let up = start(alloc, raise, edges, potential)?;
    take_turns(raise, lower, edges, potential, up, down)
}

/// Lets both searches go on in turn, first the one that has reached nodes with fewer constraints.
/// A search up that comes to the zero node leaves the rest to the other one.
fn take_turns(
    raise: Task,
    lower: Task,
    edges: &Edges,
    potential: &Potential,
    mut up: Search,
    mut down: Search,
) -> Result<Outcome, AllocError>
    requires feasible { IsFeasible (value_at potential.now) edges.now }
    requires raise { IsMending Up (value_at potential.now) raise }
    requires lower { IsMending Down (value_at potential.now) lower }
    requires same { lower.added ≡ raise.added }
    requires head { raise.added.high.base ≡ None → ⊥ }
    requires up { Searches raise (value_at potential.now) edges.now up }
    requires down { Searches lower (value_at potential.now) edges.now down }
    ensures { IfOk result (IsOutcome (value_at potential.now) edges.now raise.added) }
{
    'turns: loop {
        if up.work < down.work {
            match advance(raise, edges, potential, &mut up)? {
                Step::More => {}
                Step::Ended => return Ok(Outcome::Mended(up.draft)),
                Step::Stopped(closing) if closing.high.base == raise.added.low.base => {
                    return Ok(closed(raise, up.draft, closing));
                }
                Step::Stopped(_) => return go_down(lower, edges, potential, down),
            }
        } else {
            match advance(lower, edges, potential, &mut down)? {
                Step::More => {}
                Step::Ended => return Ok(Outcome::Mended(down.draft)),
                Step::Stopped(closing) => return Ok(closed(lower, down.draft, closing)),
            }
        }
    }
}

/// Lets the search down go on alone. It stops at the head of the added constraint only.
fn go_down(
    lower: Task,
    edges: &Edges,
    potential: &Potential,
    mut down: Search,
) -> Result<Outcome, AllocError>
    requires feasible { IsFeasible (value_at potential.now) edges.now }
    requires lower { IsMending Down (value_at potential.now) lower }
    requires down { Searches lower (value_at potential.now) edges.now down }
    ensures { IfOk result (IsOutcome (value_at potential.now) edges.now lower.added) }
{
    'steps: loop {
        match advance(lower, edges, potential, &mut down)? {
            Step::More => {}
            Step::Ended => return Ok(Outcome::Mended(down.draft)),
            Step::Stopped(closing) => return Ok(closed(lower, down.draft, closing)),
        }
    }
}

/// The outcome of a search that came back to the added constraint.
fn closed(task: Task, draft: Draft, closing: Constraint) -> Outcome
    ensures { result ≡ Closed (record { task = task; draft = draft; closing = closing }) }
{
    Outcome::Closed(Closing {
        task,
        draft,
        closing,
    })
}

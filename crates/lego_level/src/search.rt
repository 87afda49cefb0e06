//! A search for what must move once a constraint comes that the potential does not satisfy. The
//! nodes are visited in the order of their gains, the greatest first, so each is visited once
//! (Cotton and Maler 2006, after Dijkstra). Where the search comes back to the other end of the
//! constraint there is a cycle.
ghost use Rattle.std.specs.Prelude.{◌≡◌, ◌+◌, ◌<◌, ◌≤◌, true, false, None, length, Option, IfOk, OnOk, IsTrue, ◌↔◌, MatchOption};
ghost use Rattle.lego_level.specs.Graphs.{implied};
ghost use Rattle.lego_level.specs.private.Incidence.{incident};
ghost use Rattle.lego_level.specs.declared.constraint.Constraint.{Constraint};
ghost use Rattle.lego_level.specs.declared.direction.Direction.TheVariants.{Up};
ghost use Rattle.lego_level.specs.private.Potentials.{value_at, low_of, high_of, IsFeasible};
ghost use Rattle.lego_level.specs.private.Searches.{IsStop, IsMoved, IsPut, Visited, Scans, Searches, Stops, IsAt, IsImpliedAt, SameDone};
ghost use Rattle.lego_level.specs.private.Steps.{IsStep};

use crate::constraint::Constraint;
use crate::direction::Direction;
use crate::draft::{Draft, Reached};
use crate::edges::Edges;
use crate::potential::Potential;
use crate::queue::Queue;
use lego_term::Level;
use std::alloc::{AllocError, Global};

/// What a search is for: it goes this way from the far node of the added constraint, which is
/// moved by the gain, and stops at the near one. On the way up it takes the implied constraints
/// of the variables below the count from the zero node.
#[derive(Debug, Clone, Copy, PartialEq, Eq)]
pub struct Task {
    pub direction: Direction,
    pub added: Constraint,
    pub gain: u64,
    pub count: u32,
}

impl Task {
    /// Whether the search stops at a node. On the way up it stops at the zero node too, behind
    /// which there is each variable.
    fn stops_at(self, node: Option<u32>) -> bool
        ensures { IsTrue result ↔ IsStop self node }
    {
        node == self.direction.near(self.added)
            || (self.direction == Direction::Up && node.is_none())
    }
}

/// What was reached, what waits for its turn, and how many constraints were or are to be looked
/// at.
#[derive(Drop)]
pub struct Search {
    pub draft: Draft,
    pub queue: Queue,
    pub work: u64,
}

/// What came of a step.
pub enum Step {
    /// A node was visited, and others may wait.
    More,
    /// No node waits.
    Ended,
    /// This constraint would move a node at which the search stops.
    Stopped(Constraint),
}

/// The constraint that a variable is at least 0.
fn implied_by(variable: u32) -> Constraint
    ensures { result ≡ implied variable }
{
    let low = Level {
        base: None,
        plus: 0,
    };
    let high = Level {
        base: Some(variable),
        plus: 0,
    };
    Constraint {
        low,
        high,
        place: None,
    }
}

/// Starts a search that moves the far node of the added constraint.
pub fn start(
    alloc: Global,
    task: Task,
    edges: &Edges,
    potential: &Potential,
) -> Result<Search, AllocError>
    requires { 0 < task.gain }
    ensures { IfOk result (λ s. Searches task (value_at potential.now) edges.now s) }
{
    let mut search = Search {
        draft: Draft::new(alloc),
        queue: Queue::new(alloc),
        work: 0,
    };
    let node = task.direction.far(task.added);
    let push = Push {
        gain: task.gain,
        rank: 1,
        cause: task.added,
    };
    reach(task, edges, potential, node, push, &mut search)?;
    Ok(search)
}

/// How far a node is to be moved, the constraint that forces it, and the rank that it gets.
#[derive(Debug, Clone, Copy, PartialEq, Eq)]
struct Push {
    gain: u64,
    rank: u64,
    cause: Constraint,
}

/// Sets how far a node is to be moved.
fn reach(
    task: Task,
    edges: &Edges,
    potential: &Potential,
    node: Option<u32>,
    push: Push,
    search: &mut Search,
) -> Result<(), AllocError>
    ensures { OnOk result (IsPut task (value_at potential.now) node push.cause push.gain push.rank search.old search.new) }
{
    let value = moved(task.direction, potential.value(node), push.gain)?;
    let reached = Reached {
        gain: push.gain,
        value,
        rank: push.rank,
        cause: push.cause,
        done: false,
    };
    search.draft.put(node, reached)?;
    search.queue.push(push.gain, node)?;
    let work = edges.incident(task.direction, node).len() as u64;
    search.work = search.work.saturating_add(work).saturating_add(1);
    Ok(())
}

/// A value, moved by so much.
fn moved(direction: Direction, value: u64, gain: u64) -> Result<u64, AllocError>
    ensures { IfOk result (λ r. IsMoved direction value gain r) }
{
    match direction {
        Direction::Up => value.checked_add(gain),
        Direction::Down => value.checked_sub(gain),
    }
    .ok_or(AllocError)
}

/// Looks at one constraint from a node. The answer is whether it would move a node at which the
/// search stops.
fn visit(
    task: Task,
    edges: &Edges,
    potential: &Potential,
    constraint: Constraint,
    from: Reached,
    search: &mut Search,
) -> Result<bool, AllocError>
    requires { low_of (value_at potential.now) constraint ≤ high_of (value_at potential.now) constraint }
    ensures { IfOk result (Visited task (value_at potential.now) constraint from search.old search.new) }
{
    let (low, high) = potential.levels(constraint)?;
    let slack = high - low;
    let node = task.direction.far(constraint);
    let gain = from.gain.saturating_sub(slack);
    if gain <= search.draft.get(node).gain {
        return Ok(false);
    }
    if task.stops_at(node) {
        return Ok(true);
    }
    let push = Push {
        gain,
        rank: from.rank.checked_add(1).ok_or(AllocError)?,
        cause: constraint,
    };
    reach(task, edges, potential, node, push, search)?;
    Ok(false)
}

/// Looks at the listed constraints from a node.
fn scan_listed(
    task: Task,
    edges: &Edges,
    potential: &Potential,
    node: Option<u32>,
    from: Reached,
    search: &mut Search,
) -> Result<Option<Constraint>, AllocError>
    requires scans { Scans task (value_at potential.now) edges.now search.old node from (IsAt task node) }
    requires feasible { IsFeasible (value_at potential.now) edges.now }
    ensures scanned { IfOk result (λ r. MatchOption r (Scans task (value_at potential.now) edges.now search.new node from (IsImpliedAt task node)) (Stops task (value_at potential.now) edges.now search.new)) }
    ensures done { OnOk result (SameDone search.old search.new) }
    ensures waiting { OnOk result (length search.new.queue ≤ length search.old.queue + length (incident task.direction node edges.now)) }
{
    for constraint in edges.incident(task.direction, node) {
        if visit(task, edges, potential, *constraint, from, search)? {
            return Ok(Some(*constraint));
        }
    }
    Ok(None)
}

/// Looks at the implied constraints that leave the zero node.
fn scan_implied(
    task: Task,
    edges: &Edges,
    potential: &Potential,
    from: Reached,
    search: &mut Search,
) -> Result<Option<Constraint>, AllocError>
    requires up { task.direction ≡ Up }
    requires scans { Scans task (value_at potential.now) edges.now search.old None from (IsImpliedAt task None) }
    requires feasible { IsFeasible (value_at potential.now) edges.now }
    ensures scanned { IfOk result (λ r. MatchOption r (Scans task (value_at potential.now) edges.now search.new None from (λ _. ⊥)) (Stops task (value_at potential.now) edges.now search.new)) }
    ensures done { OnOk result (SameDone search.old search.new) }
    ensures waiting { OnOk result (length search.new.queue ≤ length search.old.queue + task.count) }
{
    for variable in 0..task.count {
        let constraint = implied_by(variable);
        if visit(task, edges, potential, constraint, from, search)? {
            return Ok(Some(constraint));
        }
    }
    Ok(None)
}

/// Looks at the constraints from a node.
fn scan(
    task: Task,
    edges: &Edges,
    potential: &Potential,
    node: Option<u32>,
    from: Reached,
    search: &mut Search,
) -> Result<Option<Constraint>, AllocError>
    requires scans { Scans task (value_at potential.now) edges.now search.old node from (IsAt task node) }
    requires feasible { IsFeasible (value_at potential.now) edges.now }
    ensures scanned { IfOk result (λ r. MatchOption r (Searches task (value_at potential.now) edges.now search.new) (Stops task (value_at potential.now) edges.now search.new)) }
    ensures done { OnOk result (SameDone search.old search.new) }
    ensures waiting { OnOk result (length search.new.queue ≤ length search.old.queue + length edges.now + task.count + 1) }
{
    if let Some(stopped) = scan_listed(task, edges, potential, node, from, search)? {
        return Ok(Some(stopped));
    }
    match (task.direction, node) {
        (Direction::Up, None) => scan_implied(task, edges, potential, from, search),
        (Direction::Down, Some(variable)) => {
            let constraint = implied_by(variable);
            if visit(task, edges, potential, constraint, from, search)? {
                return Ok(Some(constraint));
            }
            Ok(None)
        }
        _ => Ok(None),
    }
}

/// Visits the node that waits with the greatest gain.
pub fn advance(
    task: Task,
    edges: &Edges,
    potential: &Potential,
    search: &mut Search,
) -> Result<Step, AllocError>
    requires searches { Searches task (value_at potential.now) edges.now search.old }
    requires feasible { IsFeasible (value_at potential.now) edges.now }
    ensures { IfOk result (IsStep task (value_at potential.now) edges.now search.old search.new) }
{
    let Some((_gain, node)) = search.queue.pop() else {
        return Ok(Step::Ended);
    };
    let mut from = search.draft.get(node);
    if from.done {
        return Ok(Step::More);
    }
    from.done = true;
    search.draft.put(node, from)?;
    match scan(task, edges, potential, node, from, search)? {
        Some(stopped) => Ok(Step::Stopped(stopped)),
        None => Ok(Step::More),
    }
}

//! The workloads of constraints between levels.
ghost use Rattle.std.specs.Prelude.{◌≡◌, ◌+◌, ◌<◌, ◌≤◌, IfOk, Some};
ghost use Rattle.lego_level.specs.Graphs.{HasVariablesBelow, IsVariableBelow};

use crate::fault::BenchFault;
use lego_level::{Constraint, Graph, GraphFault};
use lego_term::Level;
use std::alloc::Global;
use std::fmt;

/// The greatest size of a workload.
const MAX_SIZE: u32 = 10_000_000;

/// How many nodes a layer has.
const WIDTH: u32 = 30;

/// How many cycles are tried, and how long they are at the most.
const CYCLES: u32 = 1000;

const MAX_CYCLE: u32 = 100;

/// How often a whole chain is closed to a cycle.
const CLOSINGS: u32 = 100;

/// How often half of a chain is taken away.
const ROUNDS: u32 = 10;

/// What a workload of constraints came to: how many are held, the greatest least value, and how
/// many were refused.
#[derive(Debug, Clone, Copy, PartialEq, Eq, Drop)]
pub struct Held {
    pub constraints: u64,
    pub value: u64,
    pub refused: u64,
}

impl fmt::Display for Held {
    fn fmt<W: fmt::Write>(&self, f: &mut fmt::Formatter<W>) -> fmt::Result {
        let (count, value, refused) = (self.constraints, self.value, self.refused);
        write!(f, "{count} constraints, {value} at most, {refused} refused")
    }
}

/// The order in which the constraints of a chain come.
#[derive(Debug, Clone, Copy, PartialEq, Eq)]
enum Order {
    FirstToLast,
    LastToFirst,
    /// By a step over the chain.
    Mixed,
}

/// Runs the workload of constraints of this name.
pub fn run_levels(alloc: Global, name: &str, size: u32) -> Result<Held, BenchFault> {
    if size == 0 || size > MAX_SIZE {
        return Err(BenchFault::Usage);
    }
    match name {
        "chain" => in_order(alloc, size, Order::FirstToLast),
        "back" => in_order(alloc, size, Order::LastToFirst),
        "mixed" => in_order(alloc, size, Order::Mixed),
        "layers" => layers(alloc, size),
        "cycles" => cycles(alloc, size),
        "again" => again(alloc, size),
        "ring" => ring(alloc, size),
        "both" => both(alloc, size),
        _ => Err(BenchFault::Usage),
    }
}

/// That a variable with a number is at most another one.
fn at_most(low: u32, plus: u32, high: u32) -> Constraint
    ensures low { result.low.base ≡ Some low }
    ensures high { result.high.base ≡ Some high }
{
    Constraint {
        low: Level {
            base: Some(low),
            plus,
        },
        high: Level {
            base: Some(high),
            plus: 0,
        },
        place: None,
    }
}

/// What a graph holds, where no least value was asked for.
fn count_held(graph: &Graph, refused: u64) -> Held {
    Held {
        constraints: graph.len() as u64,
        value: 0,
        refused,
    }
}

/// Whether a constraint is refused since it closes a cycle.
fn closes_a_cycle(graph: &mut Graph, constraint: Constraint) -> bool {
    matches!(graph.extend(&[constraint]), Err(GraphFault::Cycle(_)))
}

/// The constraint of a chain that comes at this turn.
fn link(size: u32, turn: u32, order: Order) -> Constraint
    requires turn { turn < size }
    requires size { size ≤ 10000000 }
    ensures low { IsVariableBelow (size + 1) result.low.base }
    ensures high { IsVariableBelow (size + 1) result.high.base }
{
    let number = match order {
        Order::FirstToLast => turn,
        Order::LastToFirst => size - 1 - turn,
        Order::Mixed => (u64::from(turn) * 7919 % u64::from(size)) as u32,
    };
    at_most(number, 1, number + 1)
}

/// A chain of so many strict constraints, each added by a call of its own.
fn chain(alloc: Global, size: u32, order: Order) -> Result<Graph, BenchFault>
    requires { size ≤ 10000000 }
    ensures { IfOk result (HasVariablesBelow (size + 1)) }
{
    let mut graph = Graph::new(alloc);
    for turn in 0..size {
        graph.extend(&[link(size, turn, order)])?;
    }
    Ok(graph)
}

/// A chain in some order, and its least values.
fn in_order(alloc: Global, size: u32, order: Order) -> Result<Held, BenchFault>
    requires { size ≤ 10000000 }
{
    let graph = chain(alloc, size, order)?;
    let values = graph.least(size + 1)?;
    Ok(Held {
        constraints: graph.len() as u64,
        value: values.iter().copied().max().unwrap_or(0),
        refused: 0,
    })
}

/// Layers of nodes, each node below each of the next layer; every other gap comes first.
fn layers(alloc: Global, size: u32) -> Result<Held, BenchFault>
    requires { size ≤ 10000000 }
{
    let mut graph = Graph::new(alloc);
    let even = size.div_ceil(2);
    for turn in 0..size {
        let gap = if turn < even {
            2 * turn
        } else {
            2 * (turn - even) + 1
        };
        fill_gap(&mut graph, gap)?;
    }
    Ok(count_held(&graph, 0))
}

/// Adds each constraint between two layers, by a call of its own.
fn fill_gap(graph: &mut Graph, gap: u32) -> Result<(), BenchFault>
    requires { gap ≤ 20000000 }
{
    let low = gap * WIDTH;
    for pair in 0..WIDTH * WIDTH {
        let (from, to) = (low + pair / WIDTH, low + WIDTH + pair % WIDTH);
        graph.extend(&[at_most(from, 1, to)])?;
    }
    Ok(())
}

/// Constraints that each close a cycle in a chain.
fn cycles(alloc: Global, size: u32) -> Result<Held, BenchFault>
    requires { size ≤ 10000000 }
{
    if size <= MAX_CYCLE {
        return Err(BenchFault::Usage);
    }
    let mut graph = chain(alloc, size, Order::FirstToLast)?;
    let mut refused = 0u64;
    for turn in 0..CYCLES {
        let span = 1 + turn % MAX_CYCLE;
        let first = turn * 7919 % (size - MAX_CYCLE);
        let closes = closes_a_cycle(&mut graph, at_most(first + span, 0, first));
        refused = refused.saturating_add(u64::from(closes));
    }
    Ok(count_held(&graph, refused))
}

/// A chain of which half is taken away and added again, some times.
fn again(alloc: Global, size: u32) -> Result<Held, BenchFault>
    requires { size ≤ 10000000 }
{
    let mut graph = chain(alloc, size, Order::FirstToLast)?;
    for _ in 0..ROUNDS {
        let half = graph.len() / 2;
        graph.cut_to(half);
        add_rest(&mut graph, size)?;
    }
    Ok(count_held(&graph, 0))
}

/// A chain of so many constraints, which one more closes to a cycle through all its levels, some
/// times.
fn ring(alloc: Global, size: u32) -> Result<Held, BenchFault>
    requires { size ≤ 10000000 }
{
    let mut graph = chain(alloc, size, Order::FirstToLast)?;
    let mut refused = 0u64;
    for _ in 0..CLOSINGS {
        let closes = closes_a_cycle(&mut graph, at_most(size, 0, 0));
        refused = refused.saturating_add(u64::from(closes));
    }
    Ok(count_held(&graph, refused))
}

/// Levels each of which is at most the next one, which is at most it.
fn both(alloc: Global, size: u32) -> Result<Held, BenchFault>
    requires { size ≤ 10000000 }
{
    let mut graph = Graph::new(alloc);
    for turn in 0..2 * size {
        let number = turn % size;
        let (low, high) = if turn < size {
            (number, number + 1)
        } else {
            (number + 1, number)
        };
        graph.extend(&[at_most(low, 0, high)])?;
    }
    Ok(count_held(&graph, 0))
}

/// Adds the second half of a chain.
fn add_rest(graph: &mut Graph, size: u32) -> Result<(), BenchFault>
    requires { size ≤ 10000000 }
{
    for turn in size / 2..size {
        graph.extend(&[link(size, turn, Order::FirstToLast)])?;
    }
    Ok(())
}

//! The workloads of contexts.

use crate::development::Development;
use crate::fault::BenchFault;
use crate::workload::PLAIN;
use lego_term::{Mark, Term, TermFault, app, konst, lam, local, pi, prop, var};
use std::alloc::Global;
use std::fmt;

/// How often an entry is refused.
const REFUSALS: u64 = 100;

/// The numbers of the first entries: a proposition, an operation on its proofs, a proof.
const PROPOSITION: u32 = 0;

const OPERATION: u32 = 1;

const PROOF: u32 = 2;

/// What a workload of contexts came to: the entries and level variables held, and how many entries
/// were refused.
#[derive(Debug, Clone, Copy, PartialEq, Eq, Drop)]
pub struct Added {
    pub entries: u64,
    pub levels: u64,
    pub refused: u64,
}

impl fmt::Display for Added {
    fn fmt<W: fmt::Write>(&self, f: &mut fmt::Formatter<W>) -> fmt::Result {
        let (entries, levels, refused) = (self.entries, self.levels, self.refused);
        write!(f, "{entries} entries, {levels} levels, {refused} refused")
    }
}

/// A workload of contexts.
#[derive(Debug, Clone, Copy, PartialEq, Eq)]
pub(crate) enum Workload {
    Definitions,
    Universes(Order),
    Refusals,
    Tree,
    Telescope,
    Doubling,
}

/// The order in which chained universes come.
#[derive(Debug, Clone, Copy, PartialEq, Eq)]
pub(crate) enum Order {
    Upwards,
    Downwards,
}

/// The workload of contexts of this name.
pub(crate) fn named(name: &str) -> Option<Workload> {
    match name {
        "definitions" => Some(Workload::Definitions),
        "universes" => Some(Workload::Universes(Order::Upwards)),
        "downwards" => Some(Workload::Universes(Order::Downwards)),
        "refusals" => Some(Workload::Refusals),
        "tree" => Some(Workload::Tree),
        "telescope" => Some(Workload::Telescope),
        "doubling" => Some(Workload::Doubling),
        _ => None,
    }
}

/// Runs a workload of contexts.
pub(crate) fn run_contexts(
    alloc: Global,
    workload: Workload,
    size: u32,
) -> Result<Added, BenchFault> {
    let mut development = Development::new(alloc);
    let refused = develop(alloc, &mut development, workload, size)?;
    let (entries, levels) = development.counts();
    Ok(Added {
        entries,
        levels,
        refused,
    })
}

/// Adds the entries of a workload to the empty development. The answer is how many were refused.
fn develop(
    alloc: Global,
    development: &mut Development,
    workload: Workload,
    size: u32,
) -> Result<u64, BenchFault> {
    match workload {
        Workload::Definitions => definitions(alloc, development, size)?,
        Workload::Universes(order) => universes(alloc, development, size, order)?,
        Workload::Tree => tree(alloc, development, size)?,
        Workload::Telescope => telescope(alloc, development, size)?,
        Workload::Refusals => return refusals(alloc, development, size),
        Workload::Doubling => return doubling(alloc, development, size),
    }
    Ok(0)
}

/// Definitions of functions on the proofs of a proposition, each of which applies the one before.
fn definitions(alloc: Global, development: &mut Development, size: u32) -> Result<(), BenchFault> {
    development.assume(PROPOSITION, &prop(alloc)?)?;
    for before in 0..size {
        development.define(before + 1, &function(alloc, before)?)?;
    }
    Ok(())
}

/// The function that applies the definition of this number; the first one is the identity.
fn function(alloc: Global, before: u32) -> Result<Term, TermFault> {
    let proposition = konst(alloc, PROPOSITION)?;
    let argument = var(alloc, 0)?;
    if before == PROPOSITION {
        return lam(alloc, PLAIN, &proposition, &argument);
    }
    let applied = app(alloc, Mark::Plain, &konst(alloc, before)?, &argument)?;
    lam(alloc, PLAIN, &proposition, &applied)
}

/// One `Type` more than so many.
fn types(alloc: Global, development: &mut Development, size: u32) -> Result<Vec<Term>, BenchFault> {
    let mut universes = Vec::new(alloc);
    for _ in 0..=size {
        let universe = development.universe(alloc)?;
        let Ok(()) = universes.push(universe) else {
            return Err(BenchFault::Memory);
        };
    }
    Ok(universes)
}

/// The definitions `Type i` of the type `Type (i + 1)`.
fn chained(
    development: &mut Development,
    universes: &[Term],
    order: Order,
) -> Result<(), BenchFault> {
    let count = universes.len().saturating_sub(1);
    for turn in 0..count {
        let at = match order {
            Order::Upwards => turn,
            Order::Downwards => count - 1 - turn,
        };
        let Ok(name) = u32::try_from(turn) else {
            return Err(BenchFault::Usage);
        };
        development.define_as(name, &universes[at], &universes[at + 1])?;
    }
    Ok(())
}

/// A chain of so many universes, each in the next one.
fn universes(
    alloc: Global,
    development: &mut Development,
    size: u32,
    order: Order,
) -> Result<(), BenchFault> {
    let universes = types(alloc, development, size)?;
    chained(development, &universes, order)
}

/// A chain of universes, whose last is refused as an element of the first.
fn refusals(alloc: Global, development: &mut Development, size: u32) -> Result<u64, BenchFault> {
    let universes = types(alloc, development, size)?;
    chained(development, &universes, Order::Upwards)?;
    let (Some(first), Some(last)) = (universes.first(), universes.last()) else {
        return Err(BenchFault::Usage);
    };
    Ok(closed(development, size, first, last))
}

/// How often it is refused, of many times, that a chain is closed to a cycle.
fn closed(development: &mut Development, name: u32, first: &Term, last: &Term) -> u64 {
    let mut refused = 0u64;
    for _ in 0..REFUSALS {
        if development.define_as(name, last, first) == Err(BenchFault::Cycle) {
            refused = refused.saturating_add(1);
        }
    }
    refused
}

/// A proposition, an operation on its proofs, and a proof.
fn operation(alloc: Global, development: &mut Development) -> Result<(), BenchFault> {
    development.assume(PROPOSITION, &prop(alloc)?)?;
    let proposition = konst(alloc, PROPOSITION)?;
    let unary = pi(alloc, PLAIN, &proposition, &proposition)?;
    development.assume(OPERATION, &pi(alloc, PLAIN, &proposition, &unary)?)?;
    development.assume(PROOF, &proposition)
}

/// The operation on a proof twice.
fn squared(alloc: Global, proof: &Term) -> Result<Term, TermFault> {
    let function = app(alloc, Mark::Plain, &konst(alloc, OPERATION)?, proof)?;
    app(alloc, Mark::Plain, &function, proof)
}

/// A full tree of operations, so many deep.
fn full_tree(alloc: Global, size: u32) -> Result<Term, TermFault> {
    let mut body = konst(alloc, PROOF)?;
    for _ in 0..size {
        body = squared(alloc, &body)?;
    }
    Ok(body)
}

/// One definition, whose body is a full tree of operations.
fn tree(alloc: Global, development: &mut Development, size: u32) -> Result<(), BenchFault> {
    operation(alloc, development)?;
    development.define(PROOF + 1, &full_tree(alloc, size)?)
}

/// A type that begins with so many products.
fn products(alloc: Global, size: u32) -> Result<Term, TermFault> {
    let proposition = konst(alloc, PROPOSITION)?;
    let mut ty = konst(alloc, PROPOSITION)?;
    for _ in 0..size {
        ty = pi(alloc, PLAIN, &proposition, &ty)?;
    }
    Ok(ty)
}

/// One assumption of a type that begins with products.
fn telescope(alloc: Global, development: &mut Development, size: u32) -> Result<(), BenchFault> {
    development.assume(PROPOSITION, &prop(alloc)?)?;
    development.assume(OPERATION, &products(alloc, size)?)
}

/// A body with so many local definitions, each of which has the one before it twice.
fn doubled(alloc: Global, size: u32) -> Result<Term, TermFault> {
    let twice = squared(alloc, &var(alloc, 0)?)?;
    let mut body = var(alloc, 0)?;
    for _ in 0..size {
        body = local(alloc, PLAIN, &twice, &body)?;
    }
    local(alloc, PLAIN, &konst(alloc, PROOF)?, &body)
}

/// How often a body whose weight doubles is refused, of many times, since it passes the limit.
fn doubling(alloc: Global, development: &mut Development, size: u32) -> Result<u64, BenchFault> {
    operation(alloc, development)?;
    let body = doubled(alloc, size)?;
    let mut refused = 0u64;
    for _ in 0..REFUSALS {
        if development.define(PROOF + 1, &body) == Err(BenchFault::TooLarge) {
            refused = refused.saturating_add(1);
        }
    }
    Ok(refused)
}

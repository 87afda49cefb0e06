//! The workloads.
ghost use Rattle.std.specs.Prelude.{IfOk};
ghost use Rattle.lego_term.specs.BodyMap.{AreClosed};

use crate::comparison;
use crate::contexts::{self, Added, run_contexts};
use crate::fault::BenchFault;
use crate::levels::{Held, run_levels};
use lego_reduce::{ReduceFault, head, normal};
use lego_term::{
    Binder, Bodies, Mark, Term, TermFault, app, konst, lam, lift, local, measure, pair, prop,
    subst, var,
};
use std::alloc::Global;
use std::fmt;

/// The most steps of a workload.
pub(crate) const LIMIT: u64 = 100_000_000;

pub(crate) const PLAIN: Binder = Binder {
    name: None,
    mark: Mark::Plain,
};

/// What was found of a workload's terms.
#[derive(Debug, Clone, Copy, PartialEq, Eq, Drop)]
pub enum Found {
    /// They were made.
    Made,
    /// So many steps of reduction were made.
    Steps(u64),
    /// They convert under so many constraints.
    Constraints(u64),
    /// They are equal.
    Equal,
    /// They are not equal.
    Different,
    /// The weight passes its limit.
    TooHeavy,
}

impl fmt::Display for Found {
    fn fmt<W: fmt::Write>(&self, f: &mut fmt::Formatter<W>) -> fmt::Result {
        match self {
            Found::Made => write!(f, "made"),
            Found::Steps(count) => write!(f, "{count} steps"),
            Found::Constraints(count) => write!(f, "{count} constraints"),
            Found::Equal => write!(f, "equal"),
            Found::Different => write!(f, "different"),
            Found::TooHeavy => write!(f, "too heavy"),
        }
    }
}

/// What a workload of terms came to: the size and depth of its last term, and what was found.
#[derive(Debug, Clone, Copy, PartialEq, Eq, Drop)]
pub struct Counts {
    pub nodes: u64,
    pub depth: u32,
    pub found: Found,
}

impl fmt::Display for Counts {
    fn fmt<W: fmt::Write>(&self, f: &mut fmt::Formatter<W>) -> fmt::Result {
        let (nodes, depth, found) = (self.nodes, self.depth, self.found);
        write!(f, "{nodes} nodes, {depth} deep, {found}")
    }
}

/// What a workload came to.
#[derive(Debug, Clone, Copy, PartialEq, Eq, Drop)]
pub enum Outcome {
    Terms(Counts),
    Levels(Held),
    Contexts(Added),
}

impl fmt::Display for Outcome {
    fn fmt<W: fmt::Write>(&self, f: &mut fmt::Formatter<W>) -> fmt::Result {
        match self {
            Outcome::Terms(counts) => write!(f, "{counts}"),
            Outcome::Levels(held) => write!(f, "{held}"),
            Outcome::Contexts(added) => write!(f, "{added}"),
        }
    }
}

/// Runs the workload of this name.
pub fn run_workload(alloc: Global, name: &str, size: u32) -> Result<Outcome, BenchFault> {
    if let Some(workload) = contexts::named(name) {
        return Ok(Outcome::Contexts(run_contexts(alloc, workload, size)?));
    }
    match name {
        "chain" | "back" | "mixed" | "layers" | "cycles" | "again" | "ring" | "both" => {
            Ok(Outcome::Levels(run_levels(alloc, name, size)?))
        }
        _ => Ok(Outcome::Terms(run_terms(alloc, name, size)?)),
    }
}

fn run_terms(alloc: Global, name: &str, size: u32) -> Result<Counts, BenchFault> {
    match name {
        "share" => share(alloc, size),
        "equal" => comparison::equals(alloc, size),
        "differ" => comparison::differ(alloc, size),
        "lift" => raise(alloc, size),
        "subst" => replace(alloc, size),
        "loop" => run_on(alloc, size),
        "unfold" => unfold(alloc, size),
        "exp" => exponential(alloc, size),
        "deep" => deep(alloc, size),
        "pairs" => pairs(alloc, size),
        "locals" => locals(alloc, size),
        "spines" => comparison::spines(alloc, size),
        "products" => comparison::products(alloc, size),
        "aliases" => comparison::aliases(alloc, size),
        _ => Err(BenchFault::Usage),
    }
}

pub(crate) fn counts_of(t: &Term, found: Found) -> Counts {
    Counts {
        nodes: t.size(),
        depth: t.depth(),
        found,
    }
}

/// The leaf doubled so many times: `App t t` of the term before it, which is shared.
pub(crate) fn doubled(alloc: Global, leaf: Term, size: u32) -> Result<Term, TermFault> {
    let mut t = leaf;
    for _ in 0..size {
        t = app(alloc, Mark::Plain, &t, &t)?;
    }
    Ok(t)
}

/// Makes a closed term that is shared, and lifts it.
fn share(alloc: Global, size: u32) -> Result<Counts, BenchFault> {
    let t = doubled(alloc, prop(alloc)?, size)?;
    if t.loose() > 0 {
        return Err(BenchFault::Usage);
    }
    Ok(counts_of(&lift(alloc, &t, 0, 1)?, Found::Made))
}

/// Lifts a term with a loose variable at each leaf.
fn raise(alloc: Global, size: u32) -> Result<Counts, BenchFault> {
    let t = doubled(alloc, var(alloc, 0)?, size)?;
    if t.loose() > 1 {
        return Err(BenchFault::Usage);
    }
    Ok(counts_of(&lift(alloc, &t, 0, 1)?, Found::Made))
}

/// Puts a constant for the variable at each leaf.
fn replace(alloc: Global, size: u32) -> Result<Counts, BenchFault> {
    let t = doubled(alloc, var(alloc, 0)?, size)?;
    let value = konst(alloc, 7)?;
    if t.depth() > 2_000 || value.loose() > 0 {
        return Err(BenchFault::Usage);
    }
    Ok(counts_of(&subst(alloc, &t, &value)?, Found::Made))
}

/// Applies a self-application to itself, for so many steps.
fn run_on(alloc: Global, size: u32) -> Result<Counts, BenchFault> {
    let bodies = chain(alloc, 1)?;
    let own = app(alloc, Mark::Plain, &var(alloc, 0)?, &var(alloc, 0)?)?;
    let twice = lam(alloc, PLAIN, &prop(alloc)?, &own)?;
    let t = app(alloc, Mark::Plain, &twice, &twice)?;
    if t.loose() > 0 {
        return Err(BenchFault::Usage);
    }
    match head(alloc, &bodies, &t, u64::from(size)) {
        Err(ReduceFault::Budget) => Ok(counts_of(&t, Found::Steps(u64::from(size)))),
        Err(fault) => Err(BenchFault::Reduce(fault)),
        Ok(end) => Ok(counts_of(&end.term, Found::Steps(end.steps))),
    }
}

/// Unfolds a chain of constants to its end.
fn unfold(alloc: Global, size: u32) -> Result<Counts, BenchFault> {
    let bodies = chain(alloc, size)?;
    let t = konst(alloc, size.saturating_sub(1))?;
    if t.loose() > 0 {
        return Err(BenchFault::Usage);
    }
    let end = head(alloc, &bodies, &t, LIMIT)?;
    Ok(counts_of(&end.term, Found::Steps(end.steps)))
}

/// Each number from 1 below `count` unfolds to the one before it.
pub(crate) fn chain(alloc: Global, count: u32) -> Result<Bodies, TermFault>
    ensures { IfOk result (λ bodies. AreClosed bodies) }
{
    let mut bodies = Bodies::new(alloc);
    for number in 1..count {
        let body = konst(alloc, number - 1)?;
        bodies.put(number, &body)?;
    }
    Ok(bodies)
}

/// The Church numeral of `n`.
fn numeral(alloc: Global, n: u32) -> Result<Term, TermFault> {
    let mut body = var(alloc, 0)?;
    for _ in 0..n {
        body = app(alloc, Mark::Plain, &var(alloc, 1)?, &body)?;
    }
    let inner = lam(alloc, PLAIN, &prop(alloc)?, &body)?;
    lam(alloc, PLAIN, &prop(alloc)?, &inner)
}

/// The normal form of 2 to the power of `size`, of Church numerals.
fn exponential(alloc: Global, size: u32) -> Result<Counts, BenchFault> {
    let power = numeral(alloc, size)?;
    let base = numeral(alloc, 2)?;
    normalise(alloc, &app(alloc, Mark::Plain, &power, &base)?)
}

/// Normalises a redex under so many binders.
fn deep(alloc: Global, size: u32) -> Result<Counts, BenchFault> {
    let mut t = redex(alloc)?;
    for _ in 0..size {
        t = lam(alloc, PLAIN, &prop(alloc)?, &t)?;
    }
    normalise(alloc, &t)
}

/// Normalises a redex in the second part of so many pairs, each in the second part of the next.
fn pairs(alloc: Global, size: u32) -> Result<Counts, BenchFault> {
    let other = prop(alloc)?;
    let mut t = redex(alloc)?;
    for _ in 0..size {
        t = pair(alloc, PLAIN, &other, &other, &other, &t)?;
    }
    normalise(alloc, &t)
}

/// A redex that goes to constant 7.
pub(crate) fn redex(alloc: Global) -> Result<Term, TermFault> {
    let identity = lam(alloc, PLAIN, &prop(alloc)?, &var(alloc, 0)?)?;
    app(alloc, Mark::Plain, &identity, &konst(alloc, 7)?)
}

/// The normal form of a closed term, over no bodies.
fn normalise(alloc: Global, t: &Term) -> Result<Counts, BenchFault> {
    if t.loose() > 0 {
        return Err(BenchFault::Usage);
    }
    let bodies = chain(alloc, 1)?;
    let end = normal(alloc, &bodies, t, LIMIT)?;
    Ok(counts_of(&end.term, Found::Steps(end.steps)))
}

/// Measures a chain of so many local definitions, each of which applies the one before it to
/// itself.
fn locals(alloc: Global, size: u32) -> Result<Counts, BenchFault> {
    let twice = app(alloc, Mark::Plain, &var(alloc, 0)?, &var(alloc, 0)?)?;
    let mut t = var(alloc, 0)?;
    for _ in 0..size {
        t = local(alloc, PLAIN, &twice, &t)?;
    }
    let t = local(alloc, PLAIN, &prop(alloc)?, &t)?;
    match measure(alloc, &t) {
        Err(TermFault::TooLarge { .. }) => Ok(counts_of(&t, Found::TooHeavy)),
        Err(fault) => Err(BenchFault::Term(fault)),
        Ok(_) => Ok(counts_of(&t, Found::Made)),
    }
}

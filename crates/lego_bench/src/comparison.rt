//! The workloads that compare terms.

use crate::fault::BenchFault;
use crate::workload::{Counts, Found, LIMIT, PLAIN, chain, counts_of, doubled, redex};
use lego_base::Place;
use lego_compare::same;
use lego_term::{Mark, Term, TermFault, app, equal, konst, pi, prop, var};
use std::alloc::Global;

/// How often `Prop` is doubled in a domain of `products`.
const DOMAIN: u32 = 6;

const PLACE: Place = Place { line: 1, column: 1 };

/// Whether two terms are equal.
fn told(are_equal: bool) -> Found {
    if are_equal {
        Found::Equal
    } else {
        Found::Different
    }
}

/// Compares a term with one that was made apart from it.
pub(crate) fn equals(alloc: Global, size: u32) -> Result<Counts, BenchFault> {
    let t = doubled(alloc, prop(alloc)?, size)?;
    let u = doubled(alloc, prop(alloc)?, size)?;
    Ok(counts_of(&t, told(equal(&t, &u))))
}

/// Compares two terms of 1,048,575 nodes that differ at their last leaf, so many times, and makes
/// the root of one anew each time, so that no answer can be kept.
pub(crate) fn differ(alloc: Global, size: u32) -> Result<Counts, BenchFault> {
    let half = doubled(alloc, prop(alloc)?, 18)?;
    let other = doubled_but_last(alloc, 18)?;
    let t = app(alloc, Mark::Plain, &half, &half)?;
    let mut ever = false;
    for _ in 0..size {
        let u = app(alloc, Mark::Plain, &half, &other)?;
        ever |= equal(&t, &u);
    }
    Ok(counts_of(&t, told(ever)))
}

/// `Prop` doubled so many times, but for the last leaf, which is a variable.
fn doubled_but_last(alloc: Global, size: u32) -> Result<Term, TermFault> {
    let mut t = prop(alloc)?;
    let mut last = var(alloc, 0)?;
    for _ in 0..size {
        last = app(alloc, Mark::Plain, &t, &last)?;
        t = app(alloc, Mark::Plain, &t, &t)?;
    }
    Ok(last)
}

/// Compares two spines of so many arguments, which are a constant in the one, and a redex that
/// goes to it in the other.
pub(crate) fn spines(alloc: Global, size: u32) -> Result<Counts, BenchFault> {
    let (argument, redex) = (konst(alloc, 7)?, redex(alloc)?);
    let mut left = konst(alloc, 1)?;
    let mut right = konst(alloc, 1)?;
    for _ in 0..size {
        left = app(alloc, Mark::Plain, &left, &argument)?;
        right = app(alloc, Mark::Plain, &right, &redex)?;
    }
    convert(alloc, &left, &right)
}

/// Compares two chains of so many products with large equal domains, made apart, whose end is a
/// constant in the one, and a redex that goes to it in the other.
pub(crate) fn products(alloc: Global, size: u32) -> Result<Counts, BenchFault> {
    let (mut left, mut right) = (konst(alloc, 7)?, redex(alloc)?);
    let domain = doubled(alloc, prop(alloc)?, DOMAIN)?;
    let other = doubled(alloc, prop(alloc)?, DOMAIN)?;
    for _ in 0..size {
        left = pi(alloc, PLAIN, &domain, &left)?;
        right = pi(alloc, PLAIN, &other, &right)?;
    }
    convert(alloc, &left, &right)
}

/// Compares two constants that unfold to one end, in so many steps and in twice as many.
pub(crate) fn aliases(alloc: Global, size: u32) -> Result<Counts, BenchFault> {
    let last = size.saturating_mul(2);
    let bodies = chain(alloc, last.saturating_add(1))?;
    let (left, right) = (konst(alloc, size)?, konst(alloc, last)?);
    if left.loose() > 0 || right.loose() > 0 {
        return Err(BenchFault::Usage);
    }
    let asked = same(alloc, &bodies, &left, &right, LIMIT, PLACE)?;
    Ok(counts_of(&right, Found::Constraints(asked.len() as u64)))
}

/// The constraints under which two closed terms convert, over no bodies.
fn convert(alloc: Global, left: &Term, right: &Term) -> Result<Counts, BenchFault> {
    if left.loose() > 0 || right.loose() > 0 {
        return Err(BenchFault::Usage);
    }
    let bodies = chain(alloc, 1)?;
    let asked = same(alloc, &bodies, left, right, LIMIT, PLACE)?;
    Ok(counts_of(right, Found::Constraints(asked.len() as u64)))
}

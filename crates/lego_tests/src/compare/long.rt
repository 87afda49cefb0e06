//! Long telescopes, spines and chains, whose parts are read once.

use super::{PLAIN, Relation, answer, at_most, chain, gives, is_budget, universe};
use lego_compare::CompareFault;
use lego_level::Constraint;
use lego_term::{Mark, Term, TermFault, app, konst, pi, prop, var};
use std::alloc::Global;
use std::test::Fail;

/// So many products with one domain before the end.
fn products(alloc: Global, count: u32, domain: &Term, end: &Term) -> Result<Term, TermFault> {
    let mut t = end.share()?;
    for _ in 0..count {
        t = pi(alloc, PLAIN, domain, &t)?;
    }
    Ok(t)
}

#[test]
fn a_long_telescope_is_not_read_again_at_each_binder(rt: HostRuntime) -> Result<(), Fail> {
    let alloc = rt.alloc();
    let bodies = chain(alloc, 1)?;
    let low = prop(alloc)?;
    let mut domain = prop(alloc)?;
    for _ in 0..260 {
        domain = app(alloc, Mark::Plain, &domain, &low)?;
    }
    let a = products(alloc, 1_700, &domain, &universe(alloc, 0)?)?;
    let b = products(alloc, 1_700, &domain, &universe(alloc, 1)?)?;
    let found = answer(alloc, &bodies, Relation::Below, &a, &b, 0);
    assert!(rt; gives(found, &[at_most(0, 1)]));
    Ok(())
}

/// What came of a comparison, in a word.
fn came(answer: &Result<Vec<Constraint>, CompareFault>) -> &'static str {
    match answer {
        Ok(_) => "constraints",
        Err(CompareFault::Differ { .. }) => "a difference",
        Err(CompareFault::Budget) => "the budget",
        Err(CompareFault::TooLarge { .. }) => "a term too large",
        Err(CompareFault::Memory) => "want of memory",
    }
}

/// The variable 0 applied so often to a constant.
fn spine(alloc: Global, count: u32, number: u32) -> Result<Term, TermFault> {
    let argument = konst(alloc, number)?;
    let mut t = var(alloc, 0)?;
    for _ in 0..count {
        t = app(alloc, Mark::Plain, &t, &argument)?;
    }
    Ok(t)
}

#[test]
fn each_argument_of_a_long_spine_takes_its_own_steps(rt: HostRuntime) -> Result<(), Fail> {
    let alloc = rt.alloc();
    let bodies = chain(alloc, 3)?;
    let a = spine(alloc, 1_900, 1)?;
    let b = spine(alloc, 1_900, 2)?;
    let found = answer(alloc, &bodies, Relation::Same, &a, &b, 5_700);
    let told = came(&found);
    assert!(rt; gives(found, &[]), "{told} came");
    let short = answer(alloc, &bodies, Relation::Same, &a, &b, 5_699);
    let told = came(&short);
    assert!(rt; is_budget(short), "{told} came");
    Ok(())
}

#[test]
fn each_domain_of_a_long_chain_is_unfolded_once(rt: HostRuntime) -> Result<(), Fail> {
    let alloc = rt.alloc();
    let bodies = chain(alloc, 2)?;
    let end = prop(alloc)?;
    let a = products(alloc, 1_900, &konst(alloc, 1)?, &end)?;
    let b = products(alloc, 1_900, &konst(alloc, 0)?, &end)?;
    let found = answer(alloc, &bodies, Relation::Below, &a, &b, 1_900);
    let told = came(&found);
    assert!(rt; gives(found, &[]), "{told} came");
    let short = answer(alloc, &bodies, Relation::Below, &b, &a, 1_899);
    let told = came(&short);
    assert!(rt; is_budget(short), "{told} came");
    Ok(())
}

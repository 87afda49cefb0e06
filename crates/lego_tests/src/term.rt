//! The worked examples, the limits at their edge, and each call once.

use lego_term::{
    Binder, Bodies, Level, List, Mark, Node, Seen, Term, TermFault, app, close_over, equal,
    equal_but_levels, fst, identical, konst, lam, lift, local, measure, mentions, pair, pi, prop,
    replace_consts, sigma, snd, subst, univ, var,
};
use std::alloc::Global;
use std::test::Fail;

const PLAIN: Binder = Binder {
    name: None,
    mark: Mark::Plain,
};

fn fixed(plus: u32) -> Level {
    Level { base: None, plus }
}

/// `m` applied to `n`.
fn apply(alloc: Global, m: &Term, n: &Term) -> Result<Term, TermFault> {
    app(alloc, Mark::Plain, m, n)
}

#[test]
fn substitution_goes_under_a_binder(rt: HostRuntime) -> Result<(), Fail> {
    let alloc = rt.alloc();
    let bound = lam(alloc, PLAIN, &prop(alloc)?, &var(alloc, 1)?)?;
    let t = apply(alloc, &var(alloc, 0)?, &bound)?;
    let seven = konst(alloc, 7)?;
    assert!(rt; t.depth() == 3 && seven.loose() == 0);
    let made = subst(alloc, &t, &seven)?;
    let wanted = apply(alloc, &seven, &lam(alloc, PLAIN, &prop(alloc)?, &seven)?)?;
    assert!(rt; identical(&made, &wanted));
    Ok(())
}

#[test]
fn a_shared_tree_is_made_up_to_the_limit(rt: HostRuntime) -> Result<(), Fail> {
    let alloc = rt.alloc();
    let mut t = prop(alloc)?;
    for _ in 0..19 {
        t = apply(alloc, &t, &t)?;
    }
    assert!(rt; t.size() == 1_048_575 && t.depth() == 20 && t.loose() == 0);
    assert!(rt; lift(alloc, &t, 0, 1).is_ok());
    let refused = TermFault::TooLarge {
        size: 2_097_151,
        depth: 21,
    };
    assert!(rt; apply(alloc, &t, &t).err() == Some(refused));
    Ok(())
}

#[test]
fn a_chain_is_made_up_to_the_greatest_depth(rt: HostRuntime) -> Result<(), Fail> {
    let alloc = rt.alloc();
    let mut t = var(alloc, 0)?;
    for _ in 0..1_999 {
        t = fst(alloc, &t)?;
    }
    assert!(rt; t.size() == 2_000 && t.depth() == 2_000 && t.loose() == 1);
    let refused = TermFault::TooLarge {
        size: 2_001,
        depth: 2_001,
    };
    assert!(rt; snd(alloc, &t).err() == Some(refused));
    let value = fst(alloc, &prop(alloc)?)?;
    assert!(rt; value.loose() == 0);
    assert!(rt; subst(alloc, &t, &value).err() == Some(refused));
    Ok(())
}

#[test]
fn lifting_leaves_bound_variables(rt: HostRuntime) -> Result<(), Fail> {
    let alloc = rt.alloc();
    let body = apply(alloc, &var(alloc, 0)?, &var(alloc, 1)?)?;
    let t = pi(alloc, PLAIN, &var(alloc, 0)?, &body)?;
    assert!(rt; t.loose() == 1);
    let lifted = lift(alloc, &t, 0, 3)?;
    let moved = apply(alloc, &var(alloc, 0)?, &var(alloc, 4)?)?;
    assert!(rt; identical(&lifted, &pi(alloc, PLAIN, &var(alloc, 3)?, &moved)?));
    Ok(())
}

#[test]
fn constants_are_closed_over_with_the_last_as_variable_0(rt: HostRuntime) -> Result<(), Fail> {
    let alloc = rt.alloc();
    let t = apply(alloc, &konst(alloc, 5)?, &konst(alloc, 9)?)?;
    let open = sigma(alloc, PLAIN, &t, &var(alloc, 1)?)?;
    assert!(rt; open.loose() == 1);
    let closed = close_over(alloc, &open, &[5, 9])?;
    let pairs = apply(alloc, &var(alloc, 1)?, &var(alloc, 0)?)?;
    assert!(rt; identical(&closed, &sigma(alloc, PLAIN, &pairs, &var(alloc, 3)?)?));
    assert!(rt; mentions(&t, 9) && !mentions(&t, 8) && !mentions(&closed, 9));
    Ok(())
}

#[test]
fn bodies_are_put_for_constants_once(rt: HostRuntime) -> Result<(), Fail> {
    let alloc = rt.alloc();
    let mut bodies = Bodies::new(alloc);
    bodies.put(1, &konst(alloc, 2)?)?;
    bodies.put(2, &prop(alloc)?)?;
    let t = apply(alloc, &konst(alloc, 1)?, &konst(alloc, 3)?)?;
    let made = replace_consts(alloc, &t, &bodies)?;
    assert!(rt; identical(&made, &apply(alloc, &konst(alloc, 2)?, &konst(alloc, 3)?)?));
    assert!(rt; bodies.get(2).is_some() && bodies.get(3).is_none());
    assert!(rt; bodies.take(2).is_some() && bodies.get(2).is_none());
    Ok(())
}

#[test]
fn equality_passes_over_names_marks_and_levels_as_it_says(rt: HostRuntime) -> Result<(), Fail> {
    let alloc = rt.alloc();
    let named = Binder {
        name: Some(4),
        mark: Mark::Implicit,
    };
    let kind = univ(alloc, fixed(0))?;
    let a = lam(alloc, PLAIN, &kind, &var(alloc, 0)?)?;
    let b = lam(alloc, named, &kind, &var(alloc, 0)?)?;
    let c = lam(alloc, named, &univ(alloc, fixed(1))?, &var(alloc, 0)?)?;
    assert!(rt; equal(&a, &b) && !identical(&a, &b) && identical(&a, &a));
    assert!(rt; !equal(&a, &c) && equal_but_levels(&a, &c) && !equal_but_levels(&a, &kind));
    Ok(())
}

#[test]
fn a_term_is_seen_under_its_binders(rt: HostRuntime) -> Result<(), Fail> {
    let alloc = rt.alloc();
    let kind = prop(alloc)?;
    let term = pair(alloc, PLAIN, &kind, &kind, &kind, &var(alloc, 0)?)?;
    let seen = Seen {
        under: List::of(vec![in alloc; PLAIN]?),
        term: term.share()?,
    };
    assert!(rt; seen.under.items().len() == 1 && seen.term.loose() == 1);
    assert!(rt; matches!(seen.term.view(), Node::Pair(_, _, _, _, _)));
    Ok(())
}

/// `[x=value]body`.
fn defined(alloc: Global, value: &Term, body: &Term) -> Result<Term, TermFault> {
    local(alloc, PLAIN, value, body)
}

#[test]
fn a_local_definition_binds_a_variable_of_its_body(rt: HostRuntime) -> Result<(), Fail> {
    let alloc = rt.alloc();
    let body = apply(alloc, &var(alloc, 0)?, &var(alloc, 1)?)?;
    let t = defined(alloc, &var(alloc, 0)?, &body)?;
    assert!(rt; t.size() == 5 && t.depth() == 3 && t.loose() == 1);
    let moved = apply(alloc, &var(alloc, 0)?, &var(alloc, 4)?)?;
    let lifted = lift(alloc, &t, 0, 3)?;
    assert!(rt; identical(&lifted, &defined(alloc, &var(alloc, 3)?, &moved)?));
    let seven = konst(alloc, 7)?;
    let of_seven = apply(alloc, &var(alloc, 0)?, &seven)?;
    let made = subst(alloc, &t, &seven)?;
    assert!(rt; identical(&made, &defined(alloc, &seven, &of_seven)?));
    assert!(rt; matches!(made.view(), Node::Local(_, _, _)));
    Ok(())
}

#[test]
fn constants_of_a_local_definition_are_found_and_replaced(rt: HostRuntime) -> Result<(), Fail> {
    let alloc = rt.alloc();
    let t = defined(
        alloc,
        &konst(alloc, 5)?,
        &apply(alloc, &konst(alloc, 9)?, &var(alloc, 0)?)?,
    )?;
    assert!(rt; mentions(&t, 5) && mentions(&t, 9) && !mentions(&t, 8) && t.loose() == 0);
    let closed = close_over(alloc, &t, &[5, 9])?;
    let body = apply(alloc, &var(alloc, 1)?, &var(alloc, 0)?)?;
    assert!(rt; identical(&closed, &defined(alloc, &var(alloc, 1)?, &body)?));
    let mut bodies = Bodies::new(alloc);
    bodies.put(9, &prop(alloc)?)?;
    let replaced = replace_consts(alloc, &t, &bodies)?;
    let body = apply(alloc, &prop(alloc)?, &var(alloc, 0)?)?;
    assert!(rt; identical(&replaced, &defined(alloc, &konst(alloc, 5)?, &body)?));
    Ok(())
}

#[test]
fn a_local_definition_differs_from_an_abstraction(rt: HostRuntime) -> Result<(), Fail> {
    let alloc = rt.alloc();
    let value = prop(alloc)?;
    let body = var(alloc, 0)?;
    let named = Binder {
        name: Some(4),
        mark: Mark::Implicit,
    };
    let t = defined(alloc, &value, &body)?;
    let other = local(alloc, named, &value, &body)?;
    assert!(rt; equal(&t, &other) && !identical(&t, &other));
    assert!(rt; !equal(&t, &lam(alloc, PLAIN, &value, &body)?));
    assert!(rt; !equal_but_levels(&t, &lam(alloc, PLAIN, &value, &body)?));
    Ok(())
}

/// A local definition whose value is the one before it, and whose body has it twice, so many
/// times.
fn doubled(alloc: Global, count: u32) -> Result<Term, TermFault> {
    let mut t = prop(alloc)?;
    for _ in 0..count {
        let twice = apply(alloc, &var(alloc, 0)?, &var(alloc, 0)?)?;
        t = local(alloc, PLAIN, &t, &twice)?;
    }
    Ok(t)
}

#[test]
fn a_value_counts_at_each_place_of_its_variable(rt: HostRuntime) -> Result<(), Fail> {
    let alloc = rt.alloc();
    let leaf = measure(alloc, &var(alloc, 7)?)?;
    assert!(rt; leaf.height == 1 && leaf.weight == 1);
    let twice = measure(alloc, &doubled(alloc, 2)?)?;
    assert!(rt;
        twice.height == 5 && twice.weight == 17,
        "{} {}",
        twice.height,
        twice.weight
    );
    let unused = local(alloc, PLAIN, &doubled(alloc, 2)?, &prop(alloc)?)?;
    assert!(rt; measure(alloc, &unused)?.weight == 19);
    Ok(())
}

#[test]
fn a_chain_that_doubles_is_refused(rt: HostRuntime) -> Result<(), Fail> {
    let alloc = rt.alloc();
    let chain = doubled(alloc, 30)?;
    assert!(rt;
        chain.size() == 121 && chain.depth() == 32,
        "{} {}",
        chain.size(),
        chain.depth()
    );
    let refused = TermFault::TooLarge {
        size: 1_048_577,
        depth: 2_001,
    };
    assert!(rt; measure(alloc, &chain).err() == Some(refused));
    Ok(())
}

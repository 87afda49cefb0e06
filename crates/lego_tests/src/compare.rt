//! The worked examples, small head forms in pairs, and each refusal.
ghost use Rattle.std.specs.Prelude.{IfOk};
ghost use Rattle.lego_term.specs.BodyMap.{AreClosed};

mod long;

use lego_base::Place;
use lego_compare::{CompareFault, below, same};
use lego_level::Constraint;
use lego_term::{
    Binder, Bodies, Level, Mark, Term, TermFault, app, fst, identical, konst, lam, local, pair, pi,
    prop, sigma, snd, univ, var,
};
use std::alloc::{AllocError, Global};
use std::test::Fail;

/// How two terms are to be related.
#[derive(Debug, Clone, Copy, PartialEq, Eq)]
enum Relation {
    Below,
    Same,
}

const PLAIN: Binder = Binder {
    name: None,
    mark: Mark::Plain,
};

const PLACE: Place = Place { line: 2, column: 7 };

fn variable(number: u32) -> Level {
    Level {
        base: Some(number),
        plus: 0,
    }
}

fn at_most(low: u32, high: u32) -> Constraint {
    Constraint {
        low: variable(low),
        high: variable(high),
        place: Some(PLACE),
    }
}

fn universe(alloc: Global, number: u32) -> Result<Term, TermFault> {
    univ(alloc, variable(number))
}

/// Each number from 1 below `count` unfolds to the one before it.
fn chain(alloc: Global, count: u32) -> Result<Bodies, TermFault>
    ensures { IfOk result (λ bodies. AreClosed bodies) }
{
    let mut bodies = Bodies::new(alloc);
    for number in 1..count {
        let body = konst(alloc, number - 1)?;
        bodies.put(number, &body)?;
    }
    Ok(bodies)
}

/// What a comparison answers, at most 3 binders deep.
fn answer(
    alloc: Global,
    bodies: &Bodies,
    relation: Relation,
    a: &Term,
    b: &Term,
    limit: u64,
) -> Result<Vec<Constraint>, CompareFault>
    requires closed { AreClosed bodies.now }
{
    if a.loose() > 3 || b.loose() > 3 {
        return Err(CompareFault::Memory);
    }
    match relation {
        Relation::Below => below(alloc, bodies, a, b, limit, PLACE),
        Relation::Same => same(alloc, bodies, a, b, limit, PLACE),
    }
}

/// Whether the answer is these constraints.
fn gives(answer: Result<Vec<Constraint>, CompareFault>, want: &[Constraint]) -> bool {
    match answer {
        Ok(found) => found.as_slice() == want,
        Err(_) => false,
    }
}

/// Whether the answer is that these head forms differ under so many binders.
fn differ(answer: Result<Vec<Constraint>, CompareFault>, a: &Term, b: &Term, binders: u32) -> bool {
    match answer {
        Err(
            CompareFault::Differ {
                left,
                right,
                deeper,
            },
        ) => identical(&left, a) && identical(&right, b) && deeper == binders,
        _ => false,
    }
}

fn is_budget(answer: Result<Vec<Constraint>, CompareFault>) -> bool {
    matches!(answer, Err(CompareFault::Budget))
}

#[test]
fn products_take_equal_domains(rt: HostRuntime) -> Result<(), Fail> {
    let alloc = rt.alloc();
    let bodies = chain(alloc, 1)?;
    let a = pi(alloc, PLAIN, &universe(alloc, 0)?, &prop(alloc)?)?;
    let b = pi(alloc, PLAIN, &universe(alloc, 1)?, &prop(alloc)?)?;
    let both = [at_most(0, 1), at_most(1, 0)];
    assert!(rt; gives(answer(alloc, &bodies, Relation::Below, &a, &b, 0), &both));
    Ok(())
}

#[test]
fn prop_is_below_each_universe(rt: HostRuntime) -> Result<(), Fail> {
    let alloc = rt.alloc();
    let bodies = chain(alloc, 1)?;
    let low = prop(alloc)?;
    let high = universe(alloc, 0)?;
    assert!(rt; gives(answer(alloc, &bodies, Relation::Below, &low, &high, 0), &[]));
    assert!(rt;
        differ(
            answer(alloc, &bodies, Relation::Below, &high, &low, 0),
            &high,
            &low,
            0
        )
    );
    assert!(rt;
        differ(
            answer(alloc, &bodies, Relation::Same, &low, &high, 0),
            &low,
            &high,
            0
        )
    );
    Ok(())
}

#[test]
fn a_budget_is_met_exactly(rt: HostRuntime) -> Result<(), Fail> {
    let alloc = rt.alloc();
    let bodies = chain(alloc, 5)?;
    let first = konst(alloc, 0)?;
    let third = konst(alloc, 2)?;
    let last = konst(alloc, 4)?;
    assert!(rt; is_budget(answer(alloc, &bodies, Relation::Same, &last, &first, 3)));
    assert!(rt;
        gives(
            answer(alloc, &bodies, Relation::Same, &last, &first, 4),
            &[]
        )
    );
    assert!(rt; is_budget(answer(alloc, &bodies, Relation::Below, &third, &last, 5)));
    assert!(rt;
        gives(
            answer(alloc, &bodies, Relation::Below, &third, &last, 6),
            &[]
        )
    );
    assert!(rt; gives(answer(alloc, &bodies, Relation::Same, &last, &last, 0), &[]));
    Ok(())
}

/// `Prop`, or the universe of a variable.
fn sort(alloc: Global, number: u32) -> Result<Term, TermFault> {
    if number == 0 {
        prop(alloc)
    } else {
        universe(alloc, number)
    }
}

/// What two sorts ask: whether they can be related, and under which constraints.
fn ask(
    relation: Relation,
    a: u32,
    b: u32,
    found: &mut Vec<Constraint>,
) -> Result<bool, AllocError> {
    if a == b {
        return Ok(true);
    }
    if a == 0 || b == 0 {
        return Ok(a == 0 && relation == Relation::Below);
    }
    found.push(at_most(a, b))?;
    if relation == Relation::Same {
        found.push(at_most(b, a))?;
    }
    Ok(true)
}

/// A head form by a number, with these parts.
fn form(alloc: Global, number: u32, a: &Term, b: &Term) -> Result<Term, TermFault> {
    match number {
        0 => pi(alloc, PLAIN, a, b),
        1 => sigma(alloc, PLAIN, a, b),
        2 => lam(alloc, PLAIN, a, b),
        3 => app(alloc, Mark::Plain, a, b),
        4 => pair(alloc, PLAIN, a, b, a, b),
        5 => fst(alloc, a),
        _ => snd(alloc, b),
    }
}

/// The first and the second part of each form, in the order of the walk, and how they are to be
/// related where the forms are to be so.
fn part(number: u32, at: u32, relation: Relation) -> Option<(bool, Relation)> {
    match (number, at) {
        (0, 0) => Some((true, Relation::Same)),
        (0, 1) => Some((false, relation)),
        (1, 0) => Some((true, relation)),
        (1, 1) => Some((false, relation)),
        (2, 0) | (3, 0) | (4, 0) | (4, 2) | (5, 0) => Some((true, Relation::Same)),
        (2, 1) | (3, 1) | (4, 1) | (4, 3) | (6, 0) => Some((false, Relation::Same)),
        _ => None,
    }
}

/// Whether the forms of these sorts are related exactly as their parts are.
fn meets_the_definition(
    alloc: Global,
    number: u32,
    relation: Relation,
    a: [u32; 2],
    b: [u32; 2],
) -> Result<bool, TermFault> {
    let mut want = Vec::new(alloc);
    let mut are_related = true;
    for at in 0..4 {
        if let Some((is_first, order)) = part(number, at, relation) {
            let (x, y) = if is_first { (a[0], b[0]) } else { (a[1], b[1]) };
            are_related = are_related && ask(order, x, y, &mut want)?;
        }
    }
    let left = form(alloc, number, &sort(alloc, a[0])?, &sort(alloc, a[1])?)?;
    let right = form(alloc, number, &sort(alloc, b[0])?, &sort(alloc, b[1])?)?;
    let bodies = chain(alloc, 1)?;
    match answer(alloc, &bodies, relation, &left, &right, 0) {
        Ok(found) => Ok(are_related && found.as_slice() == want.as_slice()),
        Err(CompareFault::Differ { .. }) => Ok(!are_related),
        Err(_) => Ok(false),
    }
}

#[test]
fn small_forms_are_related_as_their_parts_are(rt: HostRuntime) -> Result<(), Fail> {
    for number in 0..7 {
        for code in 0..81 {
            let a = [code / 27, code / 9 % 3];
            let b = [code / 3 % 3, code % 3];
            let up = meets_the_definition(rt.alloc(), number, Relation::Below, a, b)?;
            let both = meets_the_definition(rt.alloc(), number, Relation::Same, a, b)?;
            assert!(rt; up && both, "form {number}, sorts {code}");
        }
    }
    Ok(())
}

/// A head form by a number: the seven with parts, two variables and two constants without a
/// body.
fn any_form(alloc: Global, number: u32) -> Result<Term, TermFault> {
    match number {
        7 => var(alloc, 0),
        8 => var(alloc, 1),
        9 => konst(alloc, 0),
        10 => konst(alloc, 1),
        _ => form(alloc, number, &prop(alloc)?, &prop(alloc)?),
    }
}

#[test]
fn forms_of_different_roots_differ(rt: HostRuntime) -> Result<(), Fail> {
    let alloc = rt.alloc();
    let bodies = chain(alloc, 1)?;
    for number in 0..11 {
        for other in 0..11 {
            let a = any_form(alloc, number)?;
            let b = any_form(alloc, other)?;
            let found = answer(alloc, &bodies, Relation::Below, &a, &b, 0);
            let is_right = if number == other {
                gives(found, &[])
            } else {
                differ(found, &a, &b, 0)
            };
            assert!(rt; is_right, "forms {number} and {other}");
        }
    }
    Ok(())
}

/// The constants 1 and 2 unfold to the universes of these variables.
fn universes(alloc: Global) -> Result<Bodies, TermFault>
    ensures { IfOk result (λ bodies. AreClosed bodies) }
{
    let mut bodies = Bodies::new(alloc);
    bodies.put(1, &univ(alloc, variable(1))?)?;
    bodies.put(2, &univ(alloc, variable(2))?)?;
    Ok(bodies)
}

#[test]
fn definitions_may_differ_by_levels_alone(rt: HostRuntime) -> Result<(), Fail> {
    let alloc = rt.alloc();
    let bodies = universes(alloc)?;
    let a = konst(alloc, 1)?;
    let b = konst(alloc, 2)?;
    let both = [at_most(1, 2), at_most(2, 1)];
    assert!(rt;
        gives(
            answer(alloc, &bodies, Relation::Below, &a, &b, 2),
            &both[..1]
        )
    );
    assert!(rt; gives(answer(alloc, &bodies, Relation::Same, &a, &b, 2), &both));
    assert!(rt; is_budget(answer(alloc, &bodies, Relation::Same, &a, &b, 1)));
    Ok(())
}

#[test]
fn definitions_are_unfolded_before_roots_differ(rt: HostRuntime) -> Result<(), Fail> {
    let alloc = rt.alloc();
    let bodies = universes(alloc)?;
    let a = sigma(
        alloc,
        PLAIN,
        &prop(alloc)?,
        &pi(alloc, PLAIN, &prop(alloc)?, &konst(alloc, 1)?)?,
    )?;
    let b = sigma(
        alloc,
        PLAIN,
        &prop(alloc)?,
        &pi(alloc, PLAIN, &prop(alloc)?, &prop(alloc)?)?,
    )?;
    let unfolded = universe(alloc, 1)?;
    let low = prop(alloc)?;
    assert!(rt;
        differ(
            answer(alloc, &bodies, Relation::Below, &a, &b, 1),
            &unfolded,
            &low,
            2
        )
    );
    assert!(rt; gives(answer(alloc, &bodies, Relation::Below, &b, &a, 1), &[]));
    assert!(rt; is_budget(answer(alloc, &bodies, Relation::Below, &b, &a, 0)));
    Ok(())
}

#[test]
fn equal_parts_take_no_steps(rt: HostRuntime) -> Result<(), Fail> {
    let alloc = rt.alloc();
    let bodies = universes(alloc)?;
    let a = pi(alloc, PLAIN, &konst(alloc, 1)?, &universe(alloc, 1)?)?;
    let b = pi(alloc, PLAIN, &konst(alloc, 1)?, &universe(alloc, 2)?)?;
    assert!(rt;
        gives(
            answer(alloc, &bodies, Relation::Below, &a, &b, 0),
            &[at_most(1, 2)]
        )
    );
    Ok(())
}

/// `[x:Prop][y:Prop]body` applied to itself, where the body has the two variables.
fn applied_to_itself(alloc: Global, body: &Term) -> Result<Term, TermFault> {
    let inner = lam(alloc, PLAIN, &prop(alloc)?, body)?;
    let outer = lam(alloc, PLAIN, &prop(alloc)?, &inner)?;
    app(alloc, Mark::Plain, &outer, &outer)
}

#[test]
fn a_path_without_end_is_too_large(rt: HostRuntime) -> Result<(), Fail> {
    let alloc = rt.alloc();
    let bodies = chain(alloc, 1)?;
    let x = var(alloc, 1)?;
    let own = app(alloc, Mark::Plain, &x, &x)?;
    let z = var(alloc, 0)?;
    let twice = lam(
        alloc,
        PLAIN,
        &prop(alloc)?,
        &app(alloc, Mark::Plain, &z, &z)?,
    )?;
    let a = applied_to_itself(alloc, &own)?;
    let b = applied_to_itself(alloc, &app(alloc, Mark::Plain, &twice, &x)?)?;
    assert!(rt; is_budget(answer(alloc, &bodies, Relation::Same, &a, &b, 1_000)));
    let found = answer(alloc, &bodies, Relation::Same, &a, &b, 100_000);
    assert!(rt; matches!(found, Err(CompareFault::TooLarge { depth: 2_001, .. })));
    Ok(())
}

/// `[x=value]x`
fn defined(alloc: Global, value: &Term) -> Result<Term, TermFault> {
    local(alloc, PLAIN, value, &var(alloc, 0)?)
}

#[test]
fn a_local_definition_is_one_head_step(rt: HostRuntime) -> Result<(), Fail> {
    let alloc = rt.alloc();
    let bodies = chain(alloc, 1)?;
    let low = universe(alloc, 1)?;
    let high = universe(alloc, 2)?;
    let a = defined(alloc, &low)?;
    let b = defined(alloc, &high)?;
    let asked = [at_most(1, 2)];
    assert!(rt;
        gives(
            answer(alloc, &bodies, Relation::Below, &a, &high, 1),
            &asked
        )
    );
    assert!(rt; gives(answer(alloc, &bodies, Relation::Below, &a, &b, 2), &asked));
    assert!(rt; is_budget(answer(alloc, &bodies, Relation::Below, &a, &b, 1)));
    assert!(rt; gives(answer(alloc, &bodies, Relation::Below, &a, &a, 0), &[]));
    let end = prop(alloc)?;
    assert!(rt;
        differ(
            answer(alloc, &bodies, Relation::Same, &a, &end, 1),
            &low,
            &end,
            0
        )
    );
    Ok(())
}

#[test]
fn local_definitions_stand_in_functions_and_parts(rt: HostRuntime) -> Result<(), Fail> {
    let alloc = rt.alloc();
    let bodies = chain(alloc, 2)?;
    let end = prop(alloc)?;
    let identity = lam(alloc, PLAIN, &end, &var(alloc, 0)?)?;
    let redex = app(alloc, Mark::Plain, &defined(alloc, &identity)?, &end)?;
    assert!(rt; gives(answer(alloc, &bodies, Relation::Same, &redex, &end, 2), &[]));
    assert!(rt; is_budget(answer(alloc, &bodies, Relation::Same, &redex, &end, 1)));
    let free = konst(alloc, 0)?;
    let a = app(alloc, Mark::Plain, &free, &defined(alloc, &end)?)?;
    let b = app(alloc, Mark::Plain, &free, &end)?;
    assert!(rt; gives(answer(alloc, &bodies, Relation::Same, &a, &b, 1), &[]));
    let under = lam(alloc, PLAIN, &end, &defined(alloc, &universe(alloc, 1)?)?)?;
    let other = lam(alloc, PLAIN, &end, &universe(alloc, 2)?)?;
    let both = [at_most(1, 2), at_most(2, 1)];
    assert!(rt;
        gives(
            answer(alloc, &bodies, Relation::Below, &under, &other, 1),
            &both
        )
    );
    Ok(())
}

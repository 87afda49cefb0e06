//! The worked examples, normal forms of each form, and each call once.
ghost use Rattle.std.specs.Prelude.{◌<◌, IfOk};
ghost use Rattle.lego_term.specs.BodyMap.{AreClosed};

use lego_reduce::{ReduceFault, head, normal};
use lego_term::{
    Binder, Bodies, Mark, Term, TermFault, app, fst, identical, konst, lam, local, pair, pi, prop,
    sigma, snd, var,
};
use std::alloc::Global;
use std::test::Fail;

const PLAIN: Binder = Binder {
    name: None,
    mark: Mark::Plain,
};

fn apply(alloc: Global, m: &Term, n: &Term) -> Result<Term, TermFault> {
    app(alloc, Mark::Plain, m, n)
}

/// Each number from 1 below `count` unfolds to the one before it.
fn chain(alloc: Global, count: u32) -> Result<Bodies, TermFault>
    ensures { IfOk result (λ bodies. AreClosed bodies) }
{
    let mut bodies = Bodies::new(alloc);
    for number in 1..count {
        let body = konst(alloc, number - 1)?;
        bodies.put(number, &body)?;
    }
    Ok(bodies)
}

#[test]
fn self_application_has_no_end(rt: HostRuntime) -> Result<(), Fail> {
    let alloc = rt.alloc();
    let bodies = chain(alloc, 1)?;
    let own = apply(alloc, &var(alloc, 0)?, &var(alloc, 0)?)?;
    let twice = lam(alloc, PLAIN, &prop(alloc)?, &own)?;
    let t = apply(alloc, &twice, &twice)?;
    assert!(rt; t.loose() == 0);
    assert!(rt; head(alloc, &bodies, &t, 1_000).err() == Some(ReduceFault::Budget));
    assert!(rt; normal(alloc, &bodies, &t, 1_000).err() == Some(ReduceFault::Budget));
    Ok(())
}

#[test]
fn each_unfolding_is_a_step(rt: HostRuntime) -> Result<(), Fail> {
    let alloc = rt.alloc();
    let bodies = chain(alloc, 5)?;
    let t = konst(alloc, 4)?;
    assert!(rt; t.loose() == 0);
    assert!(rt; head(alloc, &bodies, &t, 3).err() == Some(ReduceFault::Budget));
    let end = head(alloc, &bodies, &t, 4)?;
    assert!(rt; end.steps == 4 && identical(&end.term, &konst(alloc, 0)?));
    Ok(())
}

/// `([x:Prop]x)` applied to the innermost variable.
fn redex(alloc: Global) -> Result<Term, TermFault> {
    let identity = lam(alloc, PLAIN, &prop(alloc)?, &var(alloc, 0)?)?;
    apply(alloc, &identity, &var(alloc, 0)?)
}

/// Whether the term has the normal form `wanted`, behind exactly so many steps.
fn reaches(alloc: Global, t: &Term, wanted: &Term, steps: u64) -> Result<bool, ReduceFault>
    requires { 0 < steps }
{
    if t.loose() > 1 {
        return Ok(false);
    }
    let bodies = chain(alloc, 1)?;
    let end = normal(alloc, &bodies, t, steps)?;
    let early = normal(alloc, &bodies, t, steps - 1).err();
    let is_wanted = identical(&end.term, wanted);
    Ok(end.steps == steps && is_wanted && early == Some(ReduceFault::Budget))
}

/// Each form with two parts, or a pair, by a number.
fn form(alloc: Global, number: u32, a: &Term, b: &Term) -> Result<Term, TermFault> {
    match number {
        0 => pi(alloc, PLAIN, a, b),
        1 => lam(alloc, PLAIN, a, b),
        2 => sigma(alloc, PLAIN, a, b),
        3 => pair(alloc, PLAIN, b, b, a, b),
        _ => apply(alloc, b, a),
    }
}

#[test]
fn a_head_form_leaves_its_arguments(rt: HostRuntime) -> Result<(), Fail> {
    let alloc = rt.alloc();
    let bodies = chain(alloc, 1)?;
    let t = apply(alloc, &var(alloc, 0)?, &redex(alloc)?)?;
    assert!(rt; t.loose() == 1);
    let end = head(alloc, &bodies, &t, 5)?;
    assert!(rt; end.steps == 0 && identical(&end.term, &t));
    Ok(())
}

#[test]
fn normal_forms_reach_into_each_form(rt: HostRuntime) -> Result<(), Fail> {
    let alloc = rt.alloc();
    let inner = var(alloc, 0)?;
    for number in 0..5 {
        let t = form(alloc, number, &redex(alloc)?, &inner)?;
        let wanted = form(alloc, number, &inner, &inner)?;
        assert!(rt; reaches(alloc, &t, &wanted, 1)?, "form {number}");
    }
    Ok(())
}

#[test]
fn projections_take_their_part(rt: HostRuntime) -> Result<(), Fail> {
    let alloc = rt.alloc();
    let inner = var(alloc, 0)?;
    let both = form(alloc, 3, &konst(alloc, 7)?, &inner)?;
    assert!(rt; reaches(alloc, &fst(alloc, &both)?, &konst(alloc, 7)?, 1)?);
    assert!(rt; reaches(alloc, &snd(alloc, &both)?, &inner, 1)?);
    assert!(rt; reaches(alloc, &fst(alloc, &redex(alloc)?)?, &fst(alloc, &inner)?, 1)?);
    Ok(())
}

/// The part at a head place of a term, or in the last form as an argument.
fn at_place(alloc: Global, number: u32, part: &Term) -> Result<Term, TermFault> {
    match number {
        0 => Ok(part.share()?),
        1 => apply(alloc, part, &prop(alloc)?),
        2 => fst(alloc, part),
        3 => snd(alloc, part),
        4 => apply(alloc, &fst(alloc, part)?, &prop(alloc)?),
        5 => snd(alloc, &apply(alloc, part, &prop(alloc)?)?),
        _ => apply(alloc, &prop(alloc)?, part),
    }
}

/// Whether the head form has the constant 0 in the place of 1, behind so many steps.
fn unfolds(alloc: Global, number: u32, steps: u64) -> Result<bool, ReduceFault> {
    let bodies = chain(alloc, 2)?;
    let t = at_place(alloc, number, &konst(alloc, 1)?)?;
    if t.loose() > 0 {
        return Ok(false);
    }
    let end = head(alloc, &bodies, &t, 5)?;
    let last = at_place(
        alloc,
        number,
        &konst(alloc, if steps == 0 { 1 } else { 0 })?,
    )?;
    Ok(end.steps == steps && identical(&end.term, &last))
}

#[test]
fn a_constant_unfolds_at_each_head_place(rt: HostRuntime) -> Result<(), Fail> {
    for number in 0..6 {
        assert!(rt; unfolds(rt.alloc(), number, 1)?, "place {number}");
    }
    assert!(rt; unfolds(rt.alloc(), 6, 0)?);
    Ok(())
}

#[test]
fn a_local_definition_is_contracted_at_each_head_place(rt: HostRuntime) -> Result<(), Fail> {
    let alloc = rt.alloc();
    let bodies = chain(alloc, 1)?;
    let inner = var(alloc, 0)?;
    for number in 0..6 {
        let t = at_place(
            alloc,
            number,
            &local(alloc, PLAIN, &inner, &var(alloc, 1)?)?,
        )?;
        assert!(rt; t.loose() == 1);
        let end = head(alloc, &bodies, &t, 1)?;
        let wanted = at_place(alloc, number, &inner)?;
        assert!(rt;
            end.steps == 1 && identical(&end.term, &wanted),
            "place {number}"
        );
        let early = head(alloc, &bodies, &t, 0).err();
        assert!(rt; early == Some(ReduceFault::Budget), "place {number}");
    }
    Ok(())
}

/// `[x = [y:Prop]y]x a`, for the innermost variable a.
fn defined_identity(alloc: Global) -> Result<Term, TermFault> {
    let identity = lam(alloc, PLAIN, &prop(alloc)?, &var(alloc, 0)?)?;
    let applied = apply(alloc, &var(alloc, 0)?, &var(alloc, 1)?)?;
    local(alloc, PLAIN, &identity, &applied)
}

#[test]
fn a_local_definition_and_the_redex_that_it_makes_are_two_steps(
    rt: HostRuntime,
) -> Result<(), Fail> {
    let alloc = rt.alloc();
    let inner = var(alloc, 0)?;
    let t = form(alloc, 2, &defined_identity(alloc)?, &inner)?;
    let wanted = form(alloc, 2, &inner, &inner)?;
    assert!(rt; reaches(alloc, &t, &wanted, 2)?);
    Ok(())
}

//! Rule types of small closed terms, and terms that have none.
ghost use Rattle.std.specs.Prelude.{[]};
ghost use Rattle.lego_inference.specs.Calls.{IsTermOver};

use lego_base::Place;
use lego_inference::{At, Judged, Locals, Signature};
use lego_rule_types::rule_type;
use lego_term::{
    Binder, Level, Mark, Term, TermFault, app, fst, identical, lam, local, pair, pi, prop, sigma,
    snd, univ, var,
};
use std::alloc::Global;
use std::test::Fail;

const PLAIN: Binder = Binder {
    name: None,
    mark: Mark::Plain,
};

const AT: At = At {
    place: Place { line: 1, column: 1 },
    limit: 1_000,
};

/// What is answered of a closed term without constants.
fn answer(alloc: Global, m: &Term) -> Result<Option<Judged>, Fail>
    requires { IsTermOver [] [] 0 m.now }
{
    let signature = Signature::new(alloc);
    let locals = Locals::new(alloc);
    match rule_type(alloc, &signature, &locals, m, 0, AT) {
        Ok(found) => Ok(found),
        Err(_) => Err(Fail::new("refused")),
    }
}

/// The rule type and the number of level variables of a term that has one.
fn found(alloc: Global, m: &Term) -> Result<(Term, u32), Fail>
    requires { IsTermOver [] [] 0 m.now }
{
    match answer(alloc, m)? {
        Some(judged) => Ok((judged.ty, judged.levels)),
        None => Err(Fail::new("no rule type")),
    }
}

/// The universe of a level variable.
fn own(alloc: Global, number: u32) -> Result<Term, TermFault> {
    univ(
        alloc,
        Level {
            base: Some(number),
            plus: 0,
        },
    )
}

#[test]
fn a_product_is_a_proposition_where_its_body_is(rt: HostRuntime) -> Result<(), Fail> {
    let alloc = rt.alloc();
    let prop = prop(alloc)?;
    let t = pi(alloc, PLAIN, &prop, &var(alloc, 0)?)?;
    let (ty, levels) = found(alloc, &t)?;
    assert!(rt; identical(&ty, &prop));
    assert!(rt; levels == 1);
    Ok(())
}

#[test]
fn a_product_has_the_level_of_its_own_number(rt: HostRuntime) -> Result<(), Fail> {
    let alloc = rt.alloc();
    let prop = prop(alloc)?;
    let inner = pi(alloc, PLAIN, &prop, &prop)?;
    let t = lam(alloc, PLAIN, &inner, &inner)?;
    let (ty, levels) = found(alloc, &t)?;
    // The domain's node comes first, though it is not looked at.
    let want = pi(alloc, PLAIN, &inner, &own(alloc, 1)?)?;
    assert!(rt; identical(&ty, &want));
    assert!(rt; levels == 2);
    Ok(())
}

#[test]
fn an_application_has_its_argument_put_in(rt: HostRuntime) -> Result<(), Fail> {
    let alloc = rt.alloc();
    let prop = prop(alloc)?;
    // ([A:Prop][x:A]x) Prop, whose argument no check would take.
    let same = lam(alloc, PLAIN, &var(alloc, 0)?, &var(alloc, 0)?)?;
    let t = app(alloc, Mark::Plain, &lam(alloc, PLAIN, &prop, &same)?, &prop)?;
    let (ty, levels) = found(alloc, &t)?;
    assert!(rt; identical(&ty, &pi(alloc, PLAIN, &prop, &prop)?));
    assert!(rt; levels == 0);
    Ok(())
}

#[test]
fn the_components_of_a_pair(rt: HostRuntime) -> Result<(), Fail> {
    let alloc = rt.alloc();
    let prop = prop(alloc)?;
    let t = pair(alloc, PLAIN, &prop, &var(alloc, 0)?, &prop, &prop)?;
    let (of_pair, _) = found(alloc, &t)?;
    assert!(rt; identical(&of_pair, &sigma(alloc, PLAIN, &prop, &var(alloc, 0)?)?));
    let first = fst(alloc, &t)?;
    let (of_first, _) = found(alloc, &first)?;
    assert!(rt; identical(&of_first, &prop));
    let (of_second, _) = found(alloc, &snd(alloc, &t)?)?;
    assert!(rt; identical(&of_second, &first));
    Ok(())
}

#[test]
fn a_local_definition_is_put_in(rt: HostRuntime) -> Result<(), Fail> {
    let alloc = rt.alloc();
    let prop = prop(alloc)?;
    let inner = pi(alloc, PLAIN, &prop, &prop)?;
    // [x={y:Prop}Prop]x: the value's node, and that of the body with the value.
    let t = local(alloc, PLAIN, &inner, &var(alloc, 0)?)?;
    let (ty, levels) = found(alloc, &t)?;
    assert!(rt; identical(&ty, &own(alloc, 1)?));
    assert!(rt; levels == 2);
    Ok(())
}

#[test]
fn a_sort_is_no_function_and_no_pair(rt: HostRuntime) -> Result<(), Fail> {
    let alloc = rt.alloc();
    let prop = prop(alloc)?;
    let t = app(alloc, Mark::Plain, &prop, &prop)?;
    assert!(rt; answer(alloc, &t)?.is_none());
    assert!(rt; answer(alloc, &fst(alloc, &prop)?)?.is_none());
    assert!(rt; answer(alloc, &snd(alloc, &prop)?)?.is_none());
    Ok(())
}

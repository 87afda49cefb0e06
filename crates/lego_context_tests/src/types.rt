//! Types by the form of the term.
use crate::faults::{Cause, refused};
use crate::fixture::{
    PLACE, PLAIN, accepted, assume, check_proposition, define, hold, infer, over_fixture, universe,
};
use lego_context::Context;
use lego_inference::Judged;
use lego_level::Constraint;
use lego_term::{
    Level, Mark, Node, Term, app, fst, identical, konst, lam, local, pair, pi, prop, sigma, snd,
    univ, var,
};
use std::alloc::Global;
use std::test::Fail;

/// A term and its type, over `A : Prop, a : A`.
#[derive(Drop)]
struct Typed {
    term: Term,
    ty: Term,
}

fn with_type(term: Term, ty: Term) -> Typed {
    Typed { term, ty }
}

/// `[x:A]x : {x:A}A`, and the identity applied.
fn functions(alloc: Global) -> Result<Vec<Typed>, Fail> {
    let proposition = konst(alloc, 0)?;
    let proof = konst(alloc, 1)?;
    let identity = lam(alloc, PLAIN, &proposition, &var(alloc, 0)?)?;
    let arrow = pi(alloc, PLAIN, &proposition, &proposition)?;
    let applied = app(alloc, Mark::Plain, &identity, &proof)?;
    Ok(vec![in alloc; with_type(identity, arrow), with_type(applied, proposition)]?)
}

/// Products into propositions, which are propositions whatever their domains are.
fn propositions(alloc: Global) -> Result<Vec<Typed>, Fail> {
    let proposition = konst(alloc, 0)?;
    let small = pi(alloc, PLAIN, &proposition, &proposition)?;
    let every = pi(alloc, PLAIN, &prop(alloc)?, &var(alloc, 0)?)?;
    let large = pi(alloc, PLAIN, &universe(alloc, 5)?, &proposition)?;
    Ok(vec![in alloc;
        with_type(small, prop(alloc)?),
        with_type(every, prop(alloc)?),
        with_type(large, prop(alloc)?),
    ]?)
}

/// Pairs and their parts.
fn pairs(alloc: Global) -> Result<Vec<Typed>, Fail> {
    let proposition = konst(alloc, 0)?;
    let proof = konst(alloc, 1)?;
    let product = sigma(alloc, PLAIN, &proposition, &proposition)?;
    let both = pair(alloc, PLAIN, &proposition, &proposition, &proof, &proof)?;
    let first = fst(alloc, &both)?;
    let second = snd(alloc, &both)?;
    Ok(vec![in alloc;
        with_type(both, product),
        with_type(first, proposition.share()?),
        with_type(second, proposition),
    ]?)
}

/// `Prop`, a fixed universe, and a local definition.
fn leaves(alloc: Global) -> Result<Vec<Typed>, Fail> {
    let proposition = konst(alloc, 0)?;
    let proof = konst(alloc, 1)?;
    let unused = local(alloc, PLAIN, &proposition, &proof)?;
    Ok(vec![in alloc;
        with_type(prop(alloc)?, universe(alloc, 0)?),
        with_type(unused, proposition),
    ]?)
}

/// That each term has its type.
fn have_types(alloc: Global, context: &Context, cases: &[Typed]) -> Result<(), Fail> {
    for at in 0..cases.len() {
        if !has_type(alloc, context, &cases[at])? {
            return Err(Fail::new(at));
        }
    }
    Ok(())
}

fn has_type(alloc: Global, context: &Context, case: &Typed) -> Result<bool, Fail> {
    let judged = accepted(infer(alloc, context, &case.term))?;
    Ok(identical(&judged.ty, &case.ty))
}

fn types_of_functions(alloc: Global, context: &mut Context) -> Result<(), Fail> {
    have_types(alloc, context, &functions(alloc)?)
}

#[test]
fn functions_have_products_as_types(rt: HostRuntime) -> Result<(), Fail> {
    over_fixture(rt.alloc(), types_of_functions)
}

fn types_of_propositions(alloc: Global, context: &mut Context) -> Result<(), Fail> {
    have_types(alloc, context, &propositions(alloc)?)
}

#[test]
fn products_into_propositions_are_propositions(rt: HostRuntime) -> Result<(), Fail> {
    over_fixture(rt.alloc(), types_of_propositions)
}

fn types_of_pairs(alloc: Global, context: &mut Context) -> Result<(), Fail> {
    have_types(alloc, context, &pairs(alloc)?)
}

#[test]
fn pairs_have_their_sigma_types(rt: HostRuntime) -> Result<(), Fail> {
    over_fixture(rt.alloc(), types_of_pairs)
}

fn types_of_leaves(alloc: Global, context: &mut Context) -> Result<(), Fail> {
    have_types(alloc, context, &leaves(alloc)?)
}

#[test]
fn prop_and_local_definitions_have_types(rt: HostRuntime) -> Result<(), Fail> {
    over_fixture(rt.alloc(), types_of_leaves)
}

/// The level of a universe that is a single variable.
fn variable_of(t: &Term) -> Option<u32> {
    match t.view() {
        Node::Univ(level) if level.plus == 0 => level.base,
        _ => None,
    }
}

fn type_of_identity(alloc: Global, context: &mut Context) -> Result<(), Fail> {
    let identity = lam(alloc, PLAIN, &konst(alloc, 0)?, &var(alloc, 0)?)?;
    let judged = accepted(infer(alloc, context, &identity))?;
    hold(judged.constraints.items().is_empty(), "the constraints")
}

#[test]
fn the_identity_needs_no_constraint(rt: HostRuntime) -> Result<(), Fail> {
    over_fixture(rt.alloc(), type_of_identity)
}

/// That the type of the universe of the variable 0 is that of the variable 1, which is above it.
fn is_type_of_first(judged: &Judged) -> bool {
    let above = Constraint {
        low: Level {
            base: Some(0),
            plus: 1,
        },
        high: Level {
            base: Some(1),
            plus: 0,
        },
        place: Some(PLACE),
    };
    variable_of(&judged.ty) == Some(1)
        && judged.levels == 2
        && judged.constraints.items() == [above].as_slice()
}

fn type_of_universe(alloc: Global, context: &mut Context) -> Result<(), Fail> {
    let level = accepted(context.fresh_level(PLACE))?;
    let first = Level {
        base: Some(0),
        plus: 0,
    };
    hold(level == first, "the level")?;
    let judged = accepted(infer(alloc, context, &univ(alloc, level)?))?;
    hold(is_type_of_first(&judged), "the type")
}

#[test]
fn a_universe_lies_in_the_next_one(rt: HostRuntime) -> Result<(), Fail> {
    over_fixture(rt.alloc(), type_of_universe)
}

fn product_into_universe(alloc: Global, context: &mut Context) -> Result<(), Fail> {
    let product = pi(alloc, PLAIN, &konst(alloc, 0)?, &prop(alloc)?)?;
    let judged = accepted(infer(alloc, context, &product))?;
    hold(variable_of(&judged.ty) == Some(0), "the type")?;
    let refusal = refused(alloc, check_proposition(alloc, context, &product))?;
    hold(refusal.cause == Cause::Mismatch, "the cause")
}

#[test]
fn a_product_into_a_universe_is_no_proposition(rt: HostRuntime) -> Result<(), Fail> {
    over_fixture(rt.alloc(), product_into_universe)
}

fn checked_propositions(alloc: Global, context: &mut Context) -> Result<(), Fail> {
    let every = pi(alloc, PLAIN, &prop(alloc)?, &var(alloc, 0)?)?;
    accepted(check_proposition(alloc, context, &every))?;
    let proof = konst(alloc, 1)?;
    let refusal = refused(alloc, check_proposition(alloc, context, &proof))?;
    hold(refusal.cause == Cause::Mismatch, "the cause")?;
    hold(refusal.shows(0, &proof), "the term")?;
    hold(refusal.shows(1, &konst(alloc, 0)?), "its type")?;
    hold(refusal.shows(2, &prop(alloc)?), "the stated type")
}

#[test]
fn a_check_asks_for_the_stated_type(rt: HostRuntime) -> Result<(), Fail> {
    over_fixture(rt.alloc(), checked_propositions)
}

/// Whether the entry at a place has the type.
fn entry_has_type(context: &Context, at: usize, ty: &Term) -> bool {
    match context.entry(at) {
        Some(entry) => identical(&entry.ty, ty),
        None => false,
    }
}

fn has_body(context: &Context, number: u32, body: &Term) -> bool {
    match context.bodies().get(number) {
        Some(held) => identical(held, body),
        None => false,
    }
}

fn defined_types(alloc: Global, context: &mut Context) -> Result<(), Fail> {
    let proposition = konst(alloc, 0)?;
    let universe = universe(alloc, 3)?;
    define(context, 10, &proposition, Some(&universe))?;
    define(context, 11, &proposition, None)?;
    hold(entry_has_type(context, 2, &universe), "the written type")?;
    hold(
        entry_has_type(context, 3, &prop(alloc)?),
        "the inferred type",
    )?;
    hold(has_body(context, 3, &proposition), "the body")?;
    hold(context.position(11) == Some(3), "the name")?;
    hold(context.find(3) == Some(3), "the number")
}

#[test]
fn a_definition_has_the_written_type_or_the_inferred_one(rt: HostRuntime) -> Result<(), Fail> {
    over_fixture(rt.alloc(), defined_types)
}

fn assumption_of_defined_type(alloc: Global, context: &mut Context) -> Result<(), Fail> {
    define(context, 10, &prop(alloc)?, None)?;
    assume(context, 11, &konst(alloc, 2)?)?;
    assume(context, 12, &konst(alloc, 3)?)?;
    hold(context.len() == 5, "the entries")
}

#[test]
fn an_assumption_may_be_of_a_defined_type(rt: HostRuntime) -> Result<(), Fail> {
    over_fixture(rt.alloc(), assumption_of_defined_type)
}

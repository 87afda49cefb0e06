//! Each refusal on a small input, over `A : Prop, a : A`.
use crate::faults::{Cause, refused};
use crate::fixture::{
    AT, PLACE, PLAIN, PROPOSITION, accepted, assume, define, hold, infer, over_fixture, try_assume,
    try_define, universe,
};
use lego_context::Context;
use lego_inference::{At, Counted, TypeFault};
use lego_term::{Mark, Term, TermFault, app, fst, konst, pi, prop, sigma, snd, univ, var};
use std::alloc::Global;
use std::test::Fail;

fn proof_as_type(alloc: Global, context: &mut Context) -> Result<(), Fail> {
    let proof = konst(alloc, 1)?;
    let proposition = konst(alloc, 0)?;
    let refusal = refused(alloc, try_assume(context, 10, &proof))?;
    hold(refusal.cause == Cause::NotAType, "the cause")?;
    hold(refusal.shows(0, &proof), "the term")?;
    hold(refusal.shows(1, &proposition), "its type")?;
    hold(context.len() == 2, "the entries")
}

#[test]
fn a_proof_is_no_type(rt: HostRuntime) -> Result<(), Fail> {
    over_fixture(rt.alloc(), proof_as_type)
}

fn proof_as_function(alloc: Global, context: &mut Context) -> Result<(), Fail> {
    let proof = konst(alloc, 1)?;
    let proposition = konst(alloc, 0)?;
    let applied = app(alloc, Mark::Plain, &proof, &proof)?;
    let refusal = refused(alloc, infer(alloc, context, &applied))?;
    hold(refusal.cause == Cause::NotAFunction, "the cause")?;
    hold(refusal.shows(0, &proof), "the term")?;
    hold(refusal.shows(1, &proposition), "its type")
}

#[test]
fn a_proof_is_no_function(rt: HostRuntime) -> Result<(), Fail> {
    over_fixture(rt.alloc(), proof_as_function)
}

/// That a projection of `Prop` is refused.
fn part_of_prop(alloc: Global, context: &Context, part: &Term) -> Result<(), Fail> {
    let prop = prop(alloc)?;
    let ty = universe(alloc, 0)?;
    let refusal = refused(alloc, infer(alloc, context, part))?;
    hold(refusal.cause == Cause::NotAPair, "the cause")?;
    hold(refusal.shows(0, &prop), "the term")?;
    hold(refusal.shows(1, &ty), "its type")
}

fn parts_of_prop(alloc: Global, context: &mut Context) -> Result<(), Fail> {
    let prop = prop(alloc)?;
    part_of_prop(alloc, context, &fst(alloc, &prop)?)?;
    part_of_prop(alloc, context, &snd(alloc, &prop)?)
}

#[test]
fn what_is_no_pair_has_no_parts(rt: HostRuntime) -> Result<(), Fail> {
    over_fixture(rt.alloc(), parts_of_prop)
}

/// `A : Prop, a : A, B : Prop, f : B -> B` and `f a`.
fn wrong_argument(alloc: Global, context: &mut Context) -> Result<Term, Fail> {
    assume(context, 10, &prop(alloc)?)?;
    let other = konst(alloc, 2)?;
    assume(context, 11, &pi(alloc, PLAIN, &other, &other)?)?;
    Ok(app(alloc, Mark::Plain, &konst(alloc, 3)?, &konst(alloc, 1)?)?)
}

fn argument_of_another_type(alloc: Global, context: &mut Context) -> Result<(), Fail> {
    let applied = wrong_argument(alloc, context)?;
    let refusal = refused(alloc, infer(alloc, context, &applied))?;
    hold(refusal.cause == Cause::Mismatch, "the cause")?;
    hold(refusal.shows(0, &konst(alloc, 1)?), "the argument")?;
    hold(refusal.shows(1, &konst(alloc, 0)?), "its type")?;
    hold(refusal.shows(2, &konst(alloc, 2)?), "the domain")
}

#[test]
fn an_argument_of_another_type_is_a_mismatch(rt: HostRuntime) -> Result<(), Fail> {
    over_fixture(rt.alloc(), argument_of_another_type)
}

fn function_before_argument(alloc: Global, context: &mut Context) -> Result<(), Fail> {
    let proof = konst(alloc, 1)?;
    let part = fst(alloc, &proof)?;
    let both = app(alloc, Mark::Plain, &proof, &part)?;
    let refusal = refused(alloc, infer(alloc, context, &both))?;
    hold(refusal.cause == Cause::NotAFunction, "the cause")
}

#[test]
fn the_function_is_refused_before_the_argument(rt: HostRuntime) -> Result<(), Fail> {
    over_fixture(rt.alloc(), function_before_argument)
}

fn universe_in_itself(alloc: Global, context: &mut Context) -> Result<(), Fail> {
    let itself = univ(alloc, accepted(context.fresh_level(PLACE))?)?;
    let asked = try_define(context, 10, &itself, Some(&itself), AT);
    let refusal = refused(alloc, asked)?;
    hold(
        refusal.cause == Cause::Universe { is_cycle: true },
        "the cause",
    )?;
    hold(context.len() == 2, "the entries")?;
    hold(context.levels() == 1, "the level variables")
}

#[test]
fn a_universe_does_not_lie_in_itself(rt: HostRuntime) -> Result<(), Fail> {
    over_fixture(rt.alloc(), universe_in_itself)
}

fn greatest_level(alloc: Global, context: &mut Context) -> Result<(), Fail> {
    assume(context, 10, &universe(alloc, 999_999)?)?;
    let above = universe(alloc, 1_000_000)?;
    let refusal = refused(alloc, try_assume(context, 11, &above))?;
    hold(
        refusal.cause == Cause::LevelTooBig { needed: 1_000_001 },
        "the cause",
    )?;
    hold(context.len() == 3, "the entries")
}

#[test]
fn levels_end_at_1_000_000(rt: HostRuntime) -> Result<(), Fail> {
    over_fixture(rt.alloc(), greatest_level)
}

/// A definition whose written type unfolds in two steps to the inferred one, with so many allowed.
fn define_unfolded(alloc: Global, context: &mut Context, limit: u64) -> Result<(), TypeFault> {
    let ty = konst(alloc, 3)?;
    let proof = konst(alloc, 1)?;
    let asked = At {
        place: PLACE,
        limit,
    };
    try_define(context, 12, &proof, Some(&ty), asked)
}

fn comparison_at_its_limit(alloc: Global, context: &mut Context) -> Result<(), Fail> {
    define(context, 10, &konst(alloc, 0)?, None)?;
    define(context, 11, &konst(alloc, 2)?, None)?;
    let refusal = refused(alloc, define_unfolded(alloc, context, 1))?;
    hold(refusal.cause == Cause::Budget, "the cause")?;
    accepted(define_unfolded(alloc, context, 2))
}

#[test]
fn a_comparison_takes_no_more_steps_than_allowed(rt: HostRuntime) -> Result<(), Fail> {
    over_fixture(rt.alloc(), comparison_at_its_limit)
}

/// A product of so many domains `Prop` into `Prop`.
fn deep(alloc: Global, depth: u32) -> Result<Term, TermFault> {
    let mut product = prop(alloc)?;
    for _ in 0..depth {
        product = pi(alloc, PLAIN, &prop(alloc)?, &product)?;
    }
    Ok(product)
}

/// The product of a universe into so many Sigma types of its elements.
fn deep_family(alloc: Global, depth: u32) -> Result<Term, TermFault> {
    let mut result = var(alloc, 0)?;
    for _ in 0..depth {
        result = sigma(alloc, PLAIN, &result, &prop(alloc)?)?;
    }
    pi(alloc, PLAIN, &universe(alloc, 9)?, &result)
}

/// Two terms of half the greatest depth come together in the type of an application.
fn type_of_two_halves(alloc: Global, context: &mut Context) -> Result<(), Fail> {
    assume(context, 10, &deep_family(alloc, 1_000)?)?;
    let argument = deep(alloc, 1_000)?;
    let applied = app(alloc, Mark::Plain, &konst(alloc, 2)?, &argument)?;
    let refusal = refused(alloc, infer(alloc, context, &applied))?;
    hold(
        refusal.cause == Cause::TooLarge { depth: 2_001 },
        "the cause",
    )
}

#[test]
fn a_type_that_is_too_deep_is_refused(rt: HostRuntime) -> Result<(), Fail> {
    over_fixture(rt.alloc(), type_of_two_halves)
}

const FULL: Cause = Cause::Full {
    of: Counted::Levels,
    held: 1_048_576,
};

fn last_level(alloc: Global, context: &mut Context) -> Result<(), Fail> {
    let too_many = refused(alloc, context.reserve_levels(1_048_577))?;
    hold(too_many.cause == FULL, "too many are reserved")?;
    hold(context.levels() == 0, "none is reserved")?;
    accepted(context.reserve_levels(1_048_575))?;
    accepted(context.fresh_level(PLACE))?;
    hold(context.levels() == 1_048_576, "all are held")
}

fn no_level_is_left(alloc: Global, context: &mut Context) -> Result<(), Fail> {
    last_level(alloc, context)?;
    let fresh = refused(alloc, context.fresh_level(PLACE))?;
    hold(fresh.cause == FULL, "one more")?;
    let universe = universe(alloc, 0)?;
    let assumed = refused(alloc, try_assume(context, 10, &universe))?;
    hold(assumed.cause == FULL, "one more for an entry")?;
    hold(context.universes().len() == 1, "the universes")
}

#[test]
fn level_variables_end_at_1_048_576(rt: HostRuntime) -> Result<(), Fail> {
    over_fixture(rt.alloc(), no_level_is_left)
}

fn name_in_use(alloc: Global, context: &mut Context) -> Result<(), Fail> {
    let proof = konst(alloc, 1)?;
    let assumed = refused(alloc, try_assume(context, PROPOSITION, &proof))?;
    hold(assumed.cause == Cause::NameInUse { at: 0 }, "assumed")?;
    let asked = try_define(context, PROPOSITION, &proof, Some(&proof), AT);
    let defined = refused(alloc, asked)?;
    hold(defined.cause == Cause::NameInUse { at: 0 }, "defined")
}

#[test]
fn a_name_in_use_goes_before_what_is_no_type(rt: HostRuntime) -> Result<(), Fail> {
    over_fixture(rt.alloc(), name_in_use)
}

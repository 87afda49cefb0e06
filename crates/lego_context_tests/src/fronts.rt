//! Contexts that lose their last entries, copies, and least levels.
ghost use Rattle.std.specs.Prelude.{◌≡◌, OnOk};

use crate::fixture::{PLACE, accepted, assume, define, forget, hold, over_fixture};
use lego_base::Place;
use lego_context::Context;
use lego_level::Constraint;
use lego_term::{Level, konst, prop, univ};
use std::alloc::{AllocError, Global};
use std::test::*;

/// Adds an assumption of a `Type` that is written in a column.
fn assume_of_universe(
    alloc: Global,
    context: &mut Context,
    name: u32,
    column: u32,
) -> Result<(), Fail> {
    let level = accepted(context.fresh_level(Place { line: 2, column }))?;
    assume(context, name, &univ(alloc, level)?)
}

/// Makes `A : Prop, a : A, X : Type u0, Y : Type u1` of the fixture, with the universes of both and
/// of one more `Type` that no entry has.
fn add_universes(alloc: Global, context: &mut Context) -> Result<(), Fail> {
    assume_of_universe(alloc, context, 10, 4)?;
    assume_of_universe(alloc, context, 11, 9)?;
    accepted(context.fresh_level(PLACE))?;
    hold(context.universes().len() == 3, "three universes")
}

/// That so many universes and level variables are left of the first entries.
fn are_left(context: &mut Context, at: usize, named: usize, levels: u32) -> Result<(), Fail> {
    forget(context, at)?;
    hold(context.len() == at, "the entries")?;
    hold(context.universes().len() == named, "the universes")?;
    hold(context.levels() == levels, "the level variables")
}

fn fronts_of_universes(alloc: Global, context: &mut Context) -> Result<(), Fail> {
    add_universes(alloc, context)?;
    are_left(context, 4, 2, 4)?;
    are_left(context, 3, 1, 2)?;
    are_left(context, 2, 0, 0)?;
    are_left(context, 0, 0, 0)
}

#[test]
fn forgetting_keeps_the_universes_that_are_named(rt: HostRuntime) -> Result<(), Fail> {
    over_fixture(rt.alloc(), fronts_of_universes)
}

fn last_name_again(alloc: Global, context: &mut Context) -> Result<(), Fail> {
    add_universes(alloc, context)?;
    forget(context, 3)?;
    hold(context.position(11).is_none(), "the name is free")?;
    hold(context.find(3).is_none(), "the number is free")?;
    assume(context, 11, &prop(alloc)?)?;
    hold(context.find(3) == Some(3), "the number again")?;
    hold(context.position(11) == Some(3), "the name again")
}

fn body_again(alloc: Global, context: &mut Context) -> Result<(), Fail> {
    forget(context, 1)?;
    hold(context.bodies().get(3).is_none(), "no body")?;
    define(context, 12, &konst(alloc, 0)?, None)?;
    hold(context.find(1) == Some(1), "the least number")?;
    hold(context.bodies().get(1).is_some(), "a body")
}

fn names_and_numbers_again(alloc: Global, context: &mut Context) -> Result<(), Fail> {
    last_name_again(alloc, context)?;
    body_again(alloc, context)
}

#[test]
fn a_forgotten_name_and_number_are_free_again(rt: HostRuntime) -> Result<(), Fail> {
    over_fixture(rt.alloc(), names_and_numbers_again)
}

/// Makes a universe, and takes it back.
fn make_and_take_back(context: &mut Context) -> Result<(), Fail>
    ensures { OnOk result (context.new ≡ context.old) }
{
    let entries = context.len();
    let universes = context.universes().len();
    let levels = context.levels();
    let Ok(_) = context.fresh_level(PLACE) else {
        return Err(Fail::new("no level"));
    };
    context.cut_to(entries, universes, levels);
    Ok(())
}

fn universe_taken_back(alloc: Global, context: &mut Context) -> Result<(), Fail> {
    add_universes(alloc, context)?;
    make_and_take_back(context)?;
    hold(
        has_variables(context, [0, 2, 4].as_slice()),
        "the universes",
    )?;
    hold(context.len() == 4, "the entries")?;
    hold(context.levels() == 5, "the level variables")?;
    hold(context.position(11) == Some(3), "the last name")
}

/// Whether the universes have these variables.
fn has_variables(context: &Context, variables: &[u32]) -> bool {
    let universes = context.universes();
    universes.len() == variables.len()
        && universes
            .iter()
            .zip(variables)
            .all(|(universe, variable)| universe.variable == *variable)
}

#[test]
fn a_universe_that_is_taken_back_leaves_nothing(rt: HostRuntime) -> Result<(), Fail> {
    over_fixture(rt.alloc(), universe_taken_back)
}

/// That what is added to a copy, or taken from its original, isn't in the other.
fn are_apart(alloc: Global, context: &mut Context, copy: &mut Context) -> Result<(), Fail> {
    hold(copy.len() == 4, "the copied entries")?;
    hold(copy.levels() == 5, "the copied level variables")?;
    assume(copy, 12, &prop(alloc)?)?;
    forget(context, 1)?;
    hold(copy.len() == 5, "the entries of the copy")?;
    hold(copy.universes().len() == 3, "the universes of the copy")?;
    hold(context.len() == 1, "the entries")?;
    hold(copy.position(12) == Some(4), "a name of the copy")?;
    hold(context.position(12).is_none(), "no name of the original")
}

fn copied(alloc: Global, context: &mut Context) -> Result<(), Fail> {
    add_universes(alloc, context)?;
    let mut copy = context.copy()?;
    are_apart(alloc, context, &mut copy)
}

#[test]
fn a_copy_is_apart_from_its_original(rt: HostRuntime) -> Result<(), Fail> {
    over_fixture(rt.alloc(), copied)
}

/// The context of empty lists, which are those of a new context.
fn of_empty_lists(alloc: Global) -> Result<Context, AllocError> {
    let entries = Vec::new(alloc);
    let universes = Vec::new(alloc);
    let new = Context::new(alloc);
    let _entries = new.len();
    Context::of_entries(alloc, entries, universes)
}

#[test]
fn the_empty_lists_make_the_empty_context(rt: HostRuntime) -> Result<(), Fail> {
    let alloc = rt.alloc();
    let context = of_empty_lists(alloc)?;
    assert_eq!(rt; (context.len(), context.levels()), (0, 0));
    Ok(())
}

fn rising_levels(alloc: Global, context: &mut Context) -> Result<(), Fail> {
    add_universes(alloc, context)?;
    if context.levels() > 5 {
        return Err(Fail::new("too many levels"));
    }
    let held = accepted(context.settle(&[], 5))?;
    hold(held.as_slice() == [0, 1, 0, 1, 0].as_slice(), "as held")?;
    let below = Constraint {
        low: Level {
            base: Some(1),
            plus: 0,
        },
        high: Level {
            base: Some(2),
            plus: 0,
        },
        place: Some(PLACE),
    };
    let raised = accepted(context.settle(&[below], 5))?;
    hold(raised.as_slice() == [0, 1, 1, 2, 0].as_slice(), "as raised")
}

#[test]
fn least_levels_rise_along_the_universes(rt: HostRuntime) -> Result<(), Fail> {
    over_fixture(rt.alloc(), rising_levels)
}

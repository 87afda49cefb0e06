//! Histories: the changes that steps leave, and the states that undoing brings back, with their
//! universes and level variables.
ghost use Rattle.std.specs.Bool.{OnTrue};
ghost use Rattle.std.specs.Prelude.{OnOk};
ghost use Rattle.lego_context.specs.Entries.{HasNoHole, IsNoHole};
ghost use Rattle.lego_undo.specs.Histories.{GoesWith};

use lego_base::Place;
use lego_context::Context;
use lego_inference::{At, EntryKind};
use lego_term::{Mark, univ};
use lego_undo::{Change, Extent, History, State, UndoFault};
use std::alloc::Global;
use std::test::*;

const PLACE: Place = Place { line: 1, column: 1 };

const AT: At = At {
    place: PLACE,
    limit: 100_000,
};

/// Assumes a name of a newly written `Type`, and notes that as a step.
fn assume(alloc: Global, history: &mut History, state: &mut State, name: u32) -> Result<(), Fail>
    requires { GoesWith history.old state.old }
    ensures { OnOk result (GoesWith history.new state.new) }
{
    let old = state.copy()?;
    add(alloc, &mut state.context, name)?;
    history.note(&old, state)?;
    Ok(())
}

/// Adds an assumption of a newly written `Type`.
fn add(alloc: Global, context: &mut Context, name: u32) -> Result<(), Fail> {
    let Ok(level) = context.fresh_level(PLACE) else {
        return Err(Fail::new("no level variable"));
    };
    let ty = univ(alloc, level)?;
    if !has_no_hole(context) {
        return Err(Fail::new("there is a hole"));
    }
    let Ok(()) = context.assume(name, Mark::Plain, &ty, AT) else {
        return Err(Fail::new("not assumed"));
    };
    Ok(())
}

/// Makes a level variable, and notes that as a step without a comparison.
fn make_level(history: &mut History, state: &mut State) -> Result<(), Fail>
    requires { GoesWith history.old state.old }
    ensures { OnOk result (GoesWith history.new state.new) }
{
    let extent = state.extent();
    let Ok(_) = state.context.fresh_level(PLACE) else {
        return Err(Fail::new("no level variable"));
    };
    history.note_growth(state, extent)?;
    Ok(())
}

/// Keeps the first entry, as a step.
fn forget_all_but_one(history: &mut History, state: &mut State) -> Result<(), Fail>
    requires { GoesWith history.old state.old }
    ensures { OnOk result (GoesWith history.new state.new) }
{
    if state.context.len() <= 1 {
        return Err(Fail::new("nothing to forget"));
    }
    if !has_no_hole(&state.context) {
        return Err(Fail::new("there is a hole"));
    }
    history.forget(state, 1)?;
    Ok(())
}

fn has_no_hole(context: &Context) -> bool
    ensures { OnTrue result (HasNoHole context.now.entries) }
{
    for entry in context.entries() {
        if !is_no_hole(entry.kind) {
            return false;
        }
    }
    true
}

fn is_no_hole(kind: EntryKind) -> bool
    ensures { OnTrue result (IsNoHole kind) }
{
    match kind {
        EntryKind::Assumed | EntryKind::Defined => true,
        EntryKind::Hole | EntryKind::Filled => false,
    }
}

/// Whether each change is a cut, and how much stood before its step.
fn changes(alloc: Global, history: &History) -> Result<Vec<(bool, Extent)>, Fail> {
    let mut changes = Vec::new(alloc);
    for change in history.changes() {
        changes.push(match change {
            Change::Cut { extent } => (true, *extent),
            Change::Whole { state } => (false, state.extent()),
        })?;
    }
    Ok(changes)
}

fn extent(entries: usize, universes: usize, levels: u32) -> Extent {
    Extent {
        entries,
        universes,
        levels,
    }
}

#[test]
fn additions_leave_cuts_and_forget_a_whole_state(rt: HostRuntime) -> Result<(), Fail> {
    let alloc = rt.alloc();
    let context = Context::new(alloc);
    let mut state = State { context };
    let mut history = History::new(alloc);
    assume(alloc, &mut history, &mut state, 7)?;
    assume(alloc, &mut history, &mut state, 8)?;
    make_level(&mut history, &mut state)?;
    forget_all_but_one(&mut history, &mut state)?;
    let found = changes(alloc, &history)?;
    let wanted = [
        (true, extent(0, 0, 0)),
        (true, extent(1, 1, 2)),
        (true, extent(2, 2, 4)),
        (false, extent(2, 3, 5)),
    ];
    assert!(rt; found.as_slice() == wanted.as_slice());
    assert_eq!(rt; history.held(), 4);
    assert!(rt; state.extent() == extent(1, 1, 2));
    assert!(rt; state.context.position(8).is_none());
    Ok(())
}

#[test]
fn undoing_brings_old_states_back(rt: HostRuntime) -> Result<(), Fail> {
    let alloc = rt.alloc();
    let context = Context::new(alloc);
    let mut state = State { context };
    let mut history = History::new(alloc);
    assume(alloc, &mut history, &mut state, 7)?;
    assume(alloc, &mut history, &mut state, 8)?;
    make_level(&mut history, &mut state)?;
    forget_all_but_one(&mut history, &mut state)?;
    assert!(rt; history.undo(&mut state, 0).is_ok() && state.extent() == extent(1, 1, 2));
    let far = history.undo(&mut state, 5);
    assert_eq!(rt; far, Err(UndoFault::TooFar { asked: 5, held: 4 }));
    assert!(rt; state.extent() == extent(1, 1, 2) && history.held() == 4);
    assert!(rt; history.undo(&mut state, 1).is_ok() && state.extent() == extent(2, 3, 5));
    assert!(rt; state.context.position(8) == Some(1));
    assert!(rt; history.undo(&mut state, 2).is_ok() && state.extent() == extent(1, 1, 2));
    assert!(rt; state.context.position(8).is_none());
    assert!(rt; history.undo(&mut state, 1).is_ok() && state.extent() == extent(0, 0, 0));
    assert_eq!(rt; history.held(), 0);
    Ok(())
}

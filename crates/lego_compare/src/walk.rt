//! The walk through the head forms of two terms, and then through their parts, in the order of
//! the normalisation sequence.
ghost use Rattle.std.specs.Prelude.{◌≡◌, ◌+◌, ◌-◌, ◌≤◌, ◌<◌, ◌++◌, true, IfOk};
ghost use Rattle.lego_term.specs.Trees.{Equal, loose};
ghost use Rattle.lego_term.specs.Parts.{shape_of};
ghost use Rattle.lego_term.specs.BodyMap.{bodies_in, AreClosed};
ghost use Rattle.lego_laws.specs.HeadForms.{IsHeadForm};
ghost use Rattle.lego_compare.specs.private.Codes.{asked_at, stop_on, position_inside};
ghost use Rattle.lego_compare.specs.private.Walks.{Heads, Walks, FormsWalk, PartsWalk, IsApart};

use crate::parts::{binds, is_at_head, part_at};
use crate::relation::{Relation, relation_at};
use crate::roots::{Roots, compare_roots};
use crate::stop::{Side, Stop};
use lego_base::Place;
use lego_level::Constraint;
use lego_reduce::{ReduceFault, Reduced, head};
use lego_term::{Bodies, Level, MAX_DEPTH, MAX_SIZE, Term, equal};
use std::alloc::{AllocError, Global};

/// What a walk works with: the bodies of constants, and the place of its constraints.
#[derive(Drop)]
pub(crate) struct Setting<'a> {
    pub(crate) alloc: Global,
    pub(crate) bodies: &'a Bodies,
    pub(crate) place: Place,
}

/// Where a walk stands.
#[derive(Debug, Clone, Copy, PartialEq, Eq)]
pub(crate) struct Position {
    /// How the terms here are to be related.
    pub(crate) relation: Relation,
    /// The number of parts that a path from here may not have.
    pub(crate) room: u32,
    /// The number of binders crossed.
    pub(crate) deeper: u32,
    /// The number of steps that may be made from here on, on both sides together.
    pub(crate) limit: u64,
    /// Whether the terms here are known to be head forms.
    pub(crate) are_head_forms: bool,
}

/// Walks through two terms, and gathers the constraints under which they are related; gives the
/// number of steps that it made on both sides together. Equal terms take none.
#[cycle(walk)]
fn part(
    setting: &Setting<'_>,
    a: &Term,
    b: &Term,
    at: Position,
    found: &mut Vec<Constraint>,
) -> Result<u64, Stop>
    requires left { loose a.now + at.room ≤ 65537 }
    requires right { loose b.now + at.room ≤ 65537 }
    requires path { at.room + at.deeper ≤ 2001 }
    requires closed { AreClosed setting.now.bodies.now }
    requires heads { at.are_head_forms ≡ true → IsHeadForm (bodies_in setting.now.bodies.now) a.now × IsHeadForm (bodies_in setting.now.bodies.now) b.now }
    ensures { Walks (bodies_in setting.now.bodies.now) at.relation a.now b.now at.limit at.room at.deeper setting.now.place found.old.items found.new.items result }
{
    if equal(a, b) {
        return Ok(0);
    }
    different(setting, a, b, at, found)
}

/// The same of terms that differ.
#[cycle(walk)]
pub(crate) fn different(
    setting: &Setting<'_>,
    a: &Term,
    b: &Term,
    at: Position,
    found: &mut Vec<Constraint>,
) -> Result<u64, Stop>
    requires left { loose a.now + at.room ≤ 65537 }
    requires right { loose b.now + at.room ≤ 65537 }
    requires path { at.room + at.deeper ≤ 2001 }
    requires closed { AreClosed setting.now.bodies.now }
    requires heads { at.are_head_forms ≡ true → IsHeadForm (bodies_in setting.now.bodies.now) a.now × IsHeadForm (bodies_in setting.now.bodies.now) b.now }
    requires differ { Equal a.now b.now → ⊥ }
    ensures { Walks (bodies_in setting.now.bodies.now) at.relation a.now b.now at.limit at.room at.deeper setting.now.place found.old.items found.new.items result }
{
    if at.room == 0 {
        return Err(Stop::TooLarge {
            side: Side::Left,
            size: MAX_SIZE + 1,
            depth: MAX_DEPTH + 1,
        });
    }
    if at.are_head_forms {
        return forms(setting, a, b, at, found);
    }
    let left = head_of(setting, Side::Left, a, at.limit)?;
    let right = head_of(setting, Side::Right, b, at.limit - left.steps)?;
    let steps = left.steps + right.steps;
    let rest = Position {
        limit: at.limit - steps,
        ..at
    };
    let inner = forms(setting, &left.term, &right.term, rest, found)?;
    Ok(steps + inner)
}

/// The head form of the term on this side.
fn head_of(setting: &Setting<'_>, side: Side, t: &Term, limit: u64) -> Result<Reduced, Stop>
    requires room { loose t.now ≤ 65536 }
    requires closed { AreClosed setting.now.bodies.now }
    ensures head { Heads (bodies_in setting.now.bodies.now) side t.now limit result }
    ensures bound { IfOk result (λ reduced. loose reduced.term ≤ loose t.now) }
{
    match head(setting.alloc, setting.bodies, t, limit) {
        Ok(reduced) => Ok(reduced),
        Err(fault) => Err(stop_of(side, fault)),
    }
}

/// Why a reduction on this side stops the walk.
fn stop_of(side: Side, fault: ReduceFault) -> Stop
    ensures { result ≡ stop_on side fault }
{
    match fault {
        ReduceFault::Budget => Stop::Budget,
        ReduceFault::TooLarge { size, depth } => Stop::TooLarge { side, size, depth },
        ReduceFault::Memory => Stop::Memory,
    }
}

/// The same for two head forms.
#[cycle(walk)]
fn forms(
    setting: &Setting<'_>,
    a: &Term,
    b: &Term,
    at: Position,
    found: &mut Vec<Constraint>,
) -> Result<u64, Stop>
    requires left { loose a.now + at.room ≤ 65537 }
    requires right { loose b.now + at.room ≤ 65537 }
    requires path { at.room + at.deeper ≤ 2001 }
    requires goes_on { 0 < at.room }
    requires closed { AreClosed setting.now.bodies.now }
    requires left_head { IsHeadForm (bodies_in setting.now.bodies.now) a.now }
    requires right_head { IsHeadForm (bodies_in setting.now.bodies.now) b.now }
    ensures { FormsWalk (bodies_in setting.now.bodies.now) at.relation a.now b.now at.limit at.room at.deeper setting.now.place found.old.items found.new.items result }
{
    match compare_roots(at.relation, a, b) {
        Roots::Apart => Err(differing(a, b, at.deeper)),
        Roots::Universes(low, high) => {
            ask(at.relation, low, high, setting.place, found)?;
            Ok(0)
        }
        Roots::Alike => parts_from(setting, a, b, 0, at, found),
    }
}

/// The stop at these head forms.
fn differing(a: &Term, b: &Term, deeper: u32) -> Stop
    ensures { IsApart a.now b.now deeper result }
{
    match (a.share(), b.share()) {
        (Ok(left), Ok(right)) => Stop::Differ {
            left,
            right,
            deeper,
        },
        _ => Stop::Memory,
    }
}

/// Adds what two universes ask.
fn ask(
    relation: Relation,
    low: Level,
    high: Level,
    place: Place,
    found: &mut Vec<Constraint>,
) -> Result<(), AllocError>
    ensures { IfOk result (λ _. found.new.items ≡ found.old.items ++ asked_at relation low high place) }
{
    let place = Some(place);
    found.push(Constraint { low, high, place })?;
    if relation == Relation::Same {
        found.push(Constraint {
            low: high,
            high: low,
            place,
        })?;
    }
    Ok(())
}

/// The same for the parts of two head forms of one form, from the numbered part on.
#[cycle(walk)]
fn parts_from(
    setting: &Setting<'_>,
    a: &Term,
    b: &Term,
    number: usize,
    at: Position,
    found: &mut Vec<Constraint>,
) -> Result<u64, Stop>
    requires left { loose a.now + at.room ≤ 65537 }
    requires right { loose b.now + at.room ≤ 65537 }
    requires path { at.room + at.deeper ≤ 2001 }
    requires goes_on { 0 < at.room }
    requires closed { AreClosed setting.now.bodies.now }
    requires left_head { IsHeadForm (bodies_in setting.now.bodies.now) a.now }
    requires right_head { IsHeadForm (bodies_in setting.now.bodies.now) b.now }
    requires one_form { shape_of a.now ≡ shape_of b.now }
    ensures { PartsWalk (bodies_in setting.now.bodies.now) at.relation a.now b.now number at.limit at.room at.deeper setting.now.place found.old.items found.new.items result }
{
    let (Some(left), Some(right)) = (part_at(a, number), part_at(b, number)) else {
        return Ok(0);
    };
    let inside = inside(at, a, number);
    let steps = part(setting, left, right, inside, found)?;
    let rest = Position {
        limit: at.limit - steps,
        ..at
    };
    let more = parts_from(setting, a, b, number + 1, rest, found)?;
    Ok(steps + more)
}

/// Where the walk stands at the numbered part.
fn inside(at: Position, t: &Term, number: usize) -> Position
    requires path { at.room + at.deeper ≤ 2001 }
    requires goes_on { 0 < at.room }
    ensures is { result ≡ position_inside at t.now number }
    ensures path { result.room + result.deeper ≤ 2001 }
{
    let deeper = if binds(t, number) {
        at.deeper + 1
    } else {
        at.deeper
    };
    Position {
        relation: relation_at(at.relation, t, number),
        room: at.room - 1,
        deeper,
        limit: at.limit,
        are_head_forms: is_at_head(t, number),
    }
}

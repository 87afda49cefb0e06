//! The walk through the head forms of two terms, and then through their parts, left to right, to
//! the first parts that don't agree.
ghost use Rattle.std.specs.Prelude.{◌≡◌, ◌+◌, ◌-◌, ◌≤◌, ◌<◌, true, false, IsFalse, IfOk};
ghost use Rattle.std.specs.Ordering.{nat_cmp};
ghost use Rattle.std.specs.BTreeMap.{get};
ghost use Rattle.lego_term.specs.Trees.{loose, depth};
ghost use Rattle.lego_term.specs.Parts.{shape_of};
ghost use Rattle.lego_term.specs.BodyMap.{bodies_in, AreClosed};
ghost use Rattle.lego_laws.specs.HeadForms.{IsHeadForm};
ghost use Rattle.lego_match.specs.Holes.{has_free_head as is_free_head};
ghost use Rattle.lego_match.specs.Pairs.{AgreeBefore};
ghost use Rattle.lego_match.specs.private.Codes.{position_inside};
ghost use Rattle.lego_match.specs.private.Walks.{IsNormal, GoesOn, Walks, PartWalks, PartsWalk, Settles, Decides, Heads};

use crate::agreement::{agree, agree_at_root};
use crate::holes::has_free_head;
use crate::stop::Stop;
use lego_reduce::{Reduced, head, normal};
use lego_term::{Binder, Bodies, Term, equal_but_levels};
use std::alloc::Global;
use std::collections::BTreeMap;

/// The most variables that `normal` takes.
const MAX_NORMAL_LOOSE: u32 = 63_536;

/// What a walk works with: the bodies of constants, and the free holes with their numbers of
/// hypotheses.
#[derive(Drop)]
pub(crate) struct Setting<'a> {
    pub(crate) alloc: Global,
    pub(crate) bodies: &'a Bodies,
    pub(crate) free: &'a BTreeMap<u32, u32>,
}

/// Where a walk stands.
#[derive(Debug, Clone, Copy, PartialEq, Eq)]
pub(crate) struct Position {
    /// The number of parts that a path from here may not have.
    pub(crate) room: u32,
    /// The number of steps that may be made from here on, on both sides together.
    pub(crate) limit: u64,
    /// Whether the whole terms are normal forms.
    pub(crate) are_normal: bool,
    /// Whether the terms here are known to be head forms without a free hole at the head.
    pub(crate) are_head_forms: bool,
}

/// Walks through two terms, and gives the number of steps that it made on both sides together
/// where they agree; equal terms, levels aside, take none. The binders crossed are added to
/// `deeper`, and stay there where it stops.
#[cycle(walk)]
pub(crate) fn walk(
    setting: &Setting<'_>,
    a: &Term,
    b: &Term,
    at: Position,
    deeper: &mut Vec<Binder>,
) -> Result<u64, Stop>
    requires left { loose a.now + at.room ≤ 65537 }
    requires right { loose b.now + at.room ≤ 65537 }
    requires path { at.room ≤ 2001 }
    requires closed { AreClosed setting.now.bodies.now }
    requires left_head { at.are_head_forms ≡ true → IsHeadForm (bodies_in setting.now.bodies.now) a.now × IsFalse (is_free_head (get nat_cmp setting.now.free.now) a.now) }
    requires right_head { at.are_head_forms ≡ true → IsHeadForm (bodies_in setting.now.bodies.now) b.now × IsFalse (is_free_head (get nat_cmp setting.now.free.now) b.now) }
    requires left_normal { at.are_normal ≡ true → IsNormal (bodies_in setting.now.bodies.now) a.now × depth a.now < at.room }
    requires right_normal { at.are_normal ≡ true → IsNormal (bodies_in setting.now.bodies.now) b.now × depth b.now < at.room }
    ensures { Walks (bodies_in setting.now.bodies.now) (get nat_cmp setting.now.free.now) a.now b.now at deeper.old.items deeper.new.items result }
{
    if equal_but_levels(a, b) {
        return Ok(0);
    }
    if at.room == 0 {
        return Err(Stop::Whole);
    }
    if at.are_normal {
        return forms(setting, a, b, at, deeper);
    }
    if at.are_head_forms {
        return forms(setting, a, b, at, deeper);
    }
    let left = head_of(setting, a, at.limit)?;
    let right = head_of(setting, b, at.limit - left.steps)?;
    let steps = left.steps + right.steps;
    let rest = Position {
        limit: at.limit - steps,
        ..at
    };
    let inner = forms(setting, &left.term, &right.term, rest, deeper)?;
    Ok(steps + inner)
}

/// The head form of the term.
fn head_of(setting: &Setting<'_>, t: &Term, limit: u64) -> Result<Reduced, Stop>
    requires room { loose t.now ≤ 65536 }
    requires closed { AreClosed setting.now.bodies.now }
    ensures head { Heads (bodies_in setting.now.bodies.now) t.now limit result }
    ensures bound { IfOk result (λ reduced. loose reduced.term ≤ loose t.now) }
{
    Ok(head(setting.alloc, setting.bodies, t, limit)?)
}

/// The same for two head forms.
#[cycle(walk)]
fn forms(
    setting: &Setting<'_>,
    a: &Term,
    b: &Term,
    at: Position,
    deeper: &mut Vec<Binder>,
) -> Result<u64, Stop>
    requires left { loose a.now + at.room ≤ 65537 }
    requires right { loose b.now + at.room ≤ 65537 }
    requires path { at.room ≤ 2001 }
    requires goes_on { 0 < at.room }
    requires closed { AreClosed setting.now.bodies.now }
    requires left_stuck { IsHeadForm (bodies_in setting.now.bodies.now) a.now }
    requires right_stuck { IsHeadForm (bodies_in setting.now.bodies.now) b.now }
    requires left_head { at.are_head_forms ≡ true → IsFalse (is_free_head (get nat_cmp setting.now.free.now) a.now) }
    requires right_head { at.are_head_forms ≡ true → IsFalse (is_free_head (get nat_cmp setting.now.free.now) b.now) }
    requires left_normal { at.are_normal ≡ true → IsNormal (bodies_in setting.now.bodies.now) a.now × depth a.now < at.room }
    requires right_normal { at.are_normal ≡ true → IsNormal (bodies_in setting.now.bodies.now) b.now × depth b.now < at.room }
    ensures { Walks (bodies_in setting.now.bodies.now) (get nat_cmp setting.now.free.now) a.now b.now at deeper.old.items deeper.new.items result }
{
    if goes_on(setting, a, b, at) {
        return parts_from(setting, a, b, 0, at, deeper);
    }
    ends(setting, a, b, at)
}

/// Whether the walk goes on into the parts of two head forms: they agree at the root, and no free
/// hole stands at a head.
fn goes_on(setting: &Setting<'_>, a: &Term, b: &Term, at: Position) -> bool
    requires left_head { at.are_head_forms ≡ true → IsFalse (is_free_head (get nat_cmp setting.now.free.now) a.now) }
    requires right_head { at.are_head_forms ≡ true → IsFalse (is_free_head (get nat_cmp setting.now.free.now) b.now) }
    ensures yes { result ≡ true → GoesOn (get nat_cmp setting.now.free.now) a.now b.now }
    ensures no { result ≡ false → GoesOn (get nat_cmp setting.now.free.now) a.now b.now → ⊥ }
{
    if !agree_at_root(a, b) {
        return false;
    }
    if at.are_head_forms {
        return true;
    }
    !has_free_head(setting.free, a) && !has_free_head(setting.free, b)
}

/// The normal forms of two head forms: whether they agree, in how many steps they are made.
fn ends(setting: &Setting<'_>, a: &Term, b: &Term, at: Position) -> Result<u64, Stop>
    requires left { loose a.now + at.room ≤ 65537 }
    requires right { loose b.now + at.room ≤ 65537 }
    requires path { at.room ≤ 2001 }
    requires closed { AreClosed setting.now.bodies.now }
    requires left_normal { at.are_normal ≡ true → IsNormal (bodies_in setting.now.bodies.now) a.now × depth a.now < at.room }
    requires right_normal { at.are_normal ≡ true → IsNormal (bodies_in setting.now.bodies.now) b.now × depth b.now < at.room }
    ensures { Settles (bodies_in setting.now.bodies.now) a.now b.now at result }
{
    if at.are_normal {
        return decided(a, b, 0);
    }
    if a.loose() > MAX_NORMAL_LOOSE || b.loose() > MAX_NORMAL_LOOSE {
        return Err(Stop::Whole);
    }
    let left = normal(setting.alloc, setting.bodies, a, at.limit)?;
    let right = normal(setting.alloc, setting.bodies, b, at.limit - left.steps)?;
    if left.term.depth() >= at.room || right.term.depth() >= at.room {
        return Err(Stop::Whole);
    }
    decided(&left.term, &right.term, left.steps + right.steps)
}

/// Whether two normal forms agree, which so many steps made.
fn decided(a: &Term, b: &Term, steps: u64) -> Result<u64, Stop>
    ensures { Decides a.now b.now steps result }
{
    if agree(a, b) {
        return Ok(steps);
    }
    match (a.share(), b.share()) {
        (Ok(left), Ok(right)) => Err(Stop::Apart { left, right }),
        _ => Err(Stop::Memory),
    }
}

/// The same for the parts of two head forms of one form, from the numbered part on.
#[cycle(walk)]
fn parts_from(
    setting: &Setting<'_>,
    a: &Term,
    b: &Term,
    number: usize,
    at: Position,
    deeper: &mut Vec<Binder>,
) -> Result<u64, Stop>
    requires left { loose a.now + at.room ≤ 65537 }
    requires right { loose b.now + at.room ≤ 65537 }
    requires path { at.room ≤ 2001 }
    requires goes_on { 0 < at.room }
    requires closed { AreClosed setting.now.bodies.now }
    requires left_stuck { IsHeadForm (bodies_in setting.now.bodies.now) a.now }
    requires right_stuck { IsHeadForm (bodies_in setting.now.bodies.now) b.now }
    requires left_head { IsFalse (is_free_head (get nat_cmp setting.now.free.now) a.now) }
    requires right_head { IsFalse (is_free_head (get nat_cmp setting.now.free.now) b.now) }
    requires left_normal { at.are_normal ≡ true → IsNormal (bodies_in setting.now.bodies.now) a.now × depth a.now < at.room }
    requires right_normal { at.are_normal ≡ true → IsNormal (bodies_in setting.now.bodies.now) b.now × depth b.now < at.room }
    requires one_form { shape_of a.now ≡ shape_of b.now }
    requires before { AgreeBefore (bodies_in setting.now.bodies.now) number a.now b.now }
    ensures { PartsWalk (bodies_in setting.now.bodies.now) (get nat_cmp setting.now.free.now) a.now b.now number at deeper.old.items deeper.new.items result }
{
    let (Some(left), Some(right)) = (a.part(number), b.part(number)) else {
        return Ok(0);
    };
    let inside = inside(at, a, number);
    let steps = walk_part(setting, left.under, left.term, right.term, inside, deeper)?;
    let rest = Position {
        limit: at.limit - steps,
        ..at
    };
    let more = parts_from(setting, a, b, number + 1, rest, deeper)?;
    Ok(steps + more)
}

/// The same for two parts, of which the left one stands under this binder, if any.
#[cycle(walk)]
fn walk_part(
    setting: &Setting<'_>,
    under: Option<Binder>,
    a: &Term,
    b: &Term,
    at: Position,
    deeper: &mut Vec<Binder>,
) -> Result<u64, Stop>
    requires left { loose a.now + at.room ≤ 65537 }
    requires right { loose b.now + at.room ≤ 65537 }
    requires path { at.room ≤ 2001 }
    requires closed { AreClosed setting.now.bodies.now }
    requires left_head { at.are_head_forms ≡ true → IsHeadForm (bodies_in setting.now.bodies.now) a.now × IsFalse (is_free_head (get nat_cmp setting.now.free.now) a.now) }
    requires right_head { at.are_head_forms ≡ true → IsHeadForm (bodies_in setting.now.bodies.now) b.now × IsFalse (is_free_head (get nat_cmp setting.now.free.now) b.now) }
    requires left_normal { at.are_normal ≡ true → IsNormal (bodies_in setting.now.bodies.now) a.now × depth a.now < at.room }
    requires right_normal { at.are_normal ≡ true → IsNormal (bodies_in setting.now.bodies.now) b.now × depth b.now < at.room }
    ensures { PartWalks (bodies_in setting.now.bodies.now) (get nat_cmp setting.now.free.now) under a.now b.now at deeper.old.items deeper.new.items result }
{
    let Some(binder) = under else {
        return walk(setting, a, b, at, deeper);
    };
    let Ok(()) = deeper.push(binder) else {
        return Err(Stop::Memory);
    };
    let steps = walk(setting, a, b, at, deeper)?;
    deeper.pop();
    Ok(steps)
}

/// Where the walk stands at the numbered part.
fn inside(at: Position, t: &Term, number: usize) -> Position
    requires goes_on { 0 < at.room }
    ensures { result ≡ position_inside at t.now number }
{
    Position {
        room: at.room - 1,
        are_head_forms: t.is_at_head(number),
        ..at
    }
}

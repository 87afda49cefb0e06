//! The candidate that two terms determine.
ghost use Rattle.std.specs.Prelude.{◌≡◌, ◌+◌, ◌≤◌, ◌<◌, length, IfOk, IfErr, IfSome, IfNone};
ghost use Rattle.std.specs.Ordering.{nat_cmp};
ghost use Rattle.std.specs.BTreeMap.{get};
ghost use Rattle.lego_term.specs.Trees.{loose};
ghost use Rattle.lego_term.specs.BodyMap.{bodies_in, AreClosed};
ghost use Rattle.lego_match.specs.Agreement.{Agree, AgreeIn};
ghost use Rattle.lego_match.specs.Holes.{listed};
ghost use Rattle.lego_match.specs.Answers.{IsCandidate, IsRefusedBy};
ghost use Rattle.lego_match.specs.private.Walks.{IsNormal, HasLowVariables, EndsHere};
ghost use Rattle.lego_match.specs.private.Verdicts.{IsAnswer, IsNormalAnswer, IsVerdict, IsSolution, IsUnsolved};

use crate::answer::Candidate;
use crate::fault::MatchFault;
use crate::holes::{Hole, applied_hole, free_holes, has_free_head};
use crate::lowering::{Raised, lowered};
use crate::stop::Stop;
use crate::walk::{Position, Setting, walk};
use lego_reduce::normal;
use lego_term::{Binder, Bodies, List, MAX_DEPTH, Term, mentions};
use std::alloc::Global;

/// The hole and the body that two terms determine: their normal forms are walked together, left
/// to right, to the first parts that don't agree, universes aside. `None` where the terms agree.
///
/// `free` lists the free holes with their numbers of hypotheses; of a hole that is listed twice,
/// the first counts. `depth` is the number of locals under which the terms stand, at most 65,536.
/// The terms' loose variables are below 63,536, and no body has one. The normalisation sequences
/// of both terms together have at most `limit` steps, or a pair was found before.
pub fn candidate(
    alloc: Global,
    ctx_bodies: &Bodies,
    free: &[(u32, u32)],
    depth: u32,
    a: &Term,
    b: &Term,
    limit: u64,
) -> Result<Option<Candidate>, MatchFault>
    requires locals { depth ≤ 65536 }
    requires left { loose a.now ≤ 63536 }
    requires right { loose b.now ≤ 63536 }
    requires left_scoped { loose a.now ≤ depth }
    requires right_scoped { loose b.now ≤ depth }
    requires closed { AreClosed ctx_bodies.now }
    ensures found { IfOk result (λ answer. IfSome answer (λ c. IsCandidate (bodies_in ctx_bodies.now) (listed free.now) depth a.now b.now c.hole c.body)) }
    ensures agreed { IfOk result (λ answer. IfNone answer (AgreeIn (bodies_in ctx_bodies.now) a.now b.now)) }
    ensures refused { IfErr result (λ fault. IsRefusedBy (bodies_in ctx_bodies.now) (listed free.now) depth a.now b.now limit fault) }
{
    let free = free_holes(alloc, free)?;
    let setting = Setting {
        alloc,
        bodies: ctx_bodies,
        free: &free,
    };
    matched(&setting, depth, a, b, limit)
}

/// The same by the walk through head forms.
fn matched(
    setting: &Setting<'_>,
    depth: u32,
    a: &Term,
    b: &Term,
    limit: u64,
) -> Result<Option<Candidate>, MatchFault>
    requires locals { depth ≤ 65536 }
    requires left { loose a.now ≤ 63536 }
    requires right { loose b.now ≤ 63536 }
    requires left_scoped { loose a.now ≤ depth }
    requires right_scoped { loose b.now ≤ depth }
    requires closed { AreClosed setting.now.bodies.now }
    ensures { IsAnswer (bodies_in setting.now.bodies.now) (get nat_cmp setting.now.free.now) depth a.now b.now limit result }
{
    let at = Position {
        room: MAX_DEPTH + 1,
        limit,
        are_normal: false,
        are_head_forms: false,
    };
    let mut deeper = Vec::new(setting.alloc);
    match walk(setting, a, b, at, &mut deeper) {
        Ok(_) => Ok(None),
        Err(Stop::Apart { left, right }) => verdict(setting, depth, left, right, deeper),
        Err(Stop::Budget) => Err(MatchFault::Budget),
        Err(Stop::Whole) => whole_matched(setting, depth, a, b, limit),
        Err(Stop::Memory) => Err(MatchFault::Memory),
    }
}

/// The same by the whole normal forms, where a walk by parts can't go on.
fn whole_matched(
    setting: &Setting<'_>,
    depth: u32,
    a: &Term,
    b: &Term,
    limit: u64,
) -> Result<Option<Candidate>, MatchFault>
    requires locals { depth ≤ 65536 }
    requires left { loose a.now ≤ 63536 }
    requires right { loose b.now ≤ 63536 }
    requires left_scoped { loose a.now ≤ depth }
    requires right_scoped { loose b.now ≤ depth }
    requires closed { AreClosed setting.now.bodies.now }
    ensures { IsAnswer (bodies_in setting.now.bodies.now) (get nat_cmp setting.now.free.now) depth a.now b.now limit result }
{
    let left = normal(setting.alloc, setting.bodies, a, limit)?;
    let right = normal(setting.alloc, setting.bodies, b, limit - left.steps)?;
    normal_matched(setting, depth, &left.term, &right.term)
}

/// The same for two normal forms.
fn normal_matched(
    setting: &Setting<'_>,
    depth: u32,
    a: &Term,
    b: &Term,
) -> Result<Option<Candidate>, MatchFault>
    requires locals { depth ≤ 65536 }
    requires left { loose a.now ≤ 63536 }
    requires right { loose b.now ≤ 63536 }
    requires left_scoped { loose a.now ≤ depth }
    requires right_scoped { loose b.now ≤ depth }
    requires closed { AreClosed setting.now.bodies.now }
    requires left_normal { IsNormal (bodies_in setting.now.bodies.now) a.now }
    requires right_normal { IsNormal (bodies_in setting.now.bodies.now) b.now }
    ensures { IsNormalAnswer (bodies_in setting.now.bodies.now) (get nat_cmp setting.now.free.now) depth a.now b.now result }
{
    let _left = a.depth();
    let _right = b.depth();
    let at = Position {
        room: MAX_DEPTH + 1,
        limit: 0,
        are_normal: true,
        are_head_forms: false,
    };
    let mut deeper = Vec::new(setting.alloc);
    match walk(setting, a, b, at, &mut deeper) {
        Ok(_) => Ok(None),
        Err(Stop::Apart { left, right }) => verdict(setting, depth, left, right, deeper),
        Err(Stop::Budget) => unreachable!(),
        Err(Stop::Whole) => unreachable!(),
        Err(Stop::Memory) => Err(MatchFault::Memory),
    }
}

/// What the corresponding pair determines, under so many locals and these further binders.
fn verdict(
    setting: &Setting<'_>,
    depth: u32,
    left: Term,
    right: Term,
    deeper: Vec<Binder>,
) -> Result<Option<Candidate>, MatchFault>
    requires locals { depth + length deeper.items ≤ 67537 }
    requires left_scoped { loose left ≤ depth + length deeper.items }
    requires right_scoped { loose right ≤ depth + length deeper.items }
    requires left_low { HasLowVariables left }
    requires right_low { HasLowVariables right }
    requires apart { Agree left right → ⊥ }
    requires ends { EndsHere (get nat_cmp setting.now.free.now) left right }
    ensures { IsVerdict (get nat_cmp setting.now.free.now) (depth + length deeper.items) left right deeper.items result }
{
    let locals = depth + deeper.len() as u32;
    let of_left = applied_hole(setting.free, &left, locals);
    let of_right = applied_hole(setting.free, &right, locals);
    match (of_left, of_right) {
        (Some(l), Some(r)) => {
            if l.number < r.number {
                return solution(setting, r, &left, locals, deeper);
            }
            solution(setting, l, &right, locals, deeper)
        }
        (Some(hole), None) => solution(setting, hole, &right, locals, deeper),
        (None, Some(hole)) => solution(setting, hole, &left, locals, deeper),
        (None, None) => Err(unsolved(setting, left, right, deeper)),
    }
}

/// The hole with the other part of its pair, which stands under so many locals.
fn solution(
    setting: &Setting<'_>,
    hole: Hole,
    other: &Term,
    locals: u32,
    deeper: Vec<Binder>,
) -> Result<Option<Candidate>, MatchFault>
    requires locals { locals ≤ 67537 }
    requires hypotheses { hole.hypotheses ≤ locals }
    requires scoped { loose other.now ≤ locals }
    requires low { HasLowVariables other.now }
    ensures { IsSolution hole other.now locals deeper.items result }
{
    if mentions(other, hole.number) {
        return Err(MatchFault::Occurs { hole: hole.number });
    }
    match lowered(setting.alloc, other, 0, locals - hole.hypotheses) {
        Ok(body) => Ok(Some(Candidate {
            hole: hole.number,
            body,
        })),
        Err(Raised::Local(variable)) => Err(MatchFault::Scope {
            hole: hole.number,
            variable,
            deeper: List::of(deeper),
        }),
        Err(Raised::Memory) => Err(MatchFault::Memory),
    }
}

/// The refusal of a pair of which neither part is a free hole applied to its own hypotheses.
fn unsolved(setting: &Setting<'_>, left: Term, right: Term, deeper: Vec<Binder>) -> MatchFault
    ensures { IsUnsolved (get nat_cmp setting.now.free.now) left right deeper.items result }
{
    let is_higher = has_free_head(setting.free, &left) || has_free_head(setting.free, &right);
    let deeper = List::of(deeper);
    if is_higher {
        MatchFault::HigherOrder {
            left,
            right,
            deeper,
        }
    } else {
        MatchFault::Clash {
            left,
            right,
            deeper,
        }
    }
}

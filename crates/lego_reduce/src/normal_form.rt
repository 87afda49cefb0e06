//! The normal form, by substitution: the head form, and then that of each of its parts.
ghost use Rattle.std.specs.Prelude.{◌≡◌, ◌+◌, ◌≤◌, None, true, IfOk};
ghost use Rattle.lego_term.specs.Trees.{loose, depth};
ghost use Rattle.lego_term.specs.Parts.{parts_of};
ghost use Rattle.lego_term.specs.Numbered.{put_part};
ghost use Rattle.lego_term.specs.Made.{Makes};
ghost use Rattle.lego_term.specs.Sequences.{head_step, normal_step};
ghost use Rattle.lego_term.specs.BodyMap.{bodies_in, AreClosed};
ghost use Rattle.lego_reduce.specs.Reduction.{Reduces};
ghost use Rattle.lego_reduce.specs.private.Nesting.{Goes, NormalBefore};

use crate::fault::ReduceFault;
use crate::head_form::{Reduced, head_within};
use lego_term::{Bodies, MAX_DEPTH, Term, TermFault};
use std::alloc::Global;

/// The normal form of the term and the number of steps to it, head steps first and then
/// those of the parts from left to right.
///
/// The term's loose variables are below 63,536, and no body has one.
pub fn normal(alloc: Global, bodies: &Bodies, t: &Term, limit: u64) -> Result<Reduced, ReduceFault>
    requires room { loose t.now ≤ 63536 }
    requires closed { AreClosed bodies.now }
    ensures { Reduces (normal_step (bodies_in bodies.now)) t.now limit result }
{
    let _depth = t.depth();
    let reached = normal_within(alloc, bodies, t, limit, 0)?;
    let _depth = reached.term.depth();
    Ok(reached)
}

/// The same for a part that has so many parts around it, where a term that is too deep may stand
/// for the normal form.
#[cycle(normal)]
fn normal_within(
    alloc: Global,
    bodies: &Bodies,
    t: &Term,
    limit: u64,
    nest: u32,
) -> Result<Reduced, ReduceFault>
    requires room { loose t.now ≤ 63536 + nest }
    requires deep { nest + depth t.now ≤ 2000 }
    requires closed { AreClosed bodies.now }
    ensures end { Goes (bodies_in bodies.now) t.now limit nest result }
    ensures bound { IfOk result (λ reduced. loose reduced.term ≤ loose t.now) }
{
    let found = head_within(alloc, bodies, t, limit)?;
    if nest + found.term.depth() > MAX_DEPTH {
        return Ok(found);
    }
    let inner = parts_from(alloc, bodies, &found.term, 0, limit - found.steps, nest)?;
    Ok(Reduced {
        term: inner.term,
        steps: found.steps + inner.steps,
    })
}

/// The same for a head form, whose parts before the numbered one have no step.
#[cycle(normal)]
fn parts_from(
    alloc: Global,
    bodies: &Bodies,
    t: &Term,
    number: usize,
    limit: u64,
    nest: u32,
) -> Result<Reduced, ReduceFault>
    requires room { loose t.now ≤ 63536 + nest }
    requires deep { nest + depth t.now ≤ 2000 }
    requires closed { AreClosed bodies.now }
    requires stopped { head_step (bodies_in bodies.now) t.now ≡ None }
    requires before { NormalBefore (bodies_in bodies.now) number (parts_of t.now) }
    ensures end { Goes (bodies_in bodies.now) t.now limit nest result }
    ensures bound { IfOk result (λ reduced. loose reduced.term ≤ loose t.now) }
{
    let Some(part) = t.part(number) else {
        return Ok(Reduced {
            term: t.share()?,
            steps: 0,
        });
    };
    let is_head_form = t.is_at_head(number);
    let inner = part_within(alloc, bodies, part.term, is_head_form, limit, nest + 1)?;
    let whole = with_reduced(alloc, t, number, &inner)?;
    if nest + whole.depth() > MAX_DEPTH {
        return Ok(Reduced {
            term: whole,
            steps: inner.steps,
        });
    }
    let left = limit - inner.steps;
    let rest = parts_from(alloc, bodies, &whole, number + 1, left, nest)?;
    Ok(Reduced {
        term: rest.term,
        steps: inner.steps + rest.steps,
    })
}

/// The term with what its numbered part comes to, and the term itself where that has no step.
fn with_reduced(alloc: Global, t: &Term, number: usize, inner: &Reduced) -> Result<Term, TermFault>
    requires { inner.now.steps ≡ 0 → put_part number inner.now.term t.now ≡ t.now }
    ensures { Makes (put_part number inner.now.term t.now) result }
{
    if inner.steps == 0 {
        return Ok(t.share()?);
    }
    t.with_part(alloc, number, &inner.term)
}

/// The same for a part, which may be known to be a head form.
#[cycle(normal)]
fn part_within(
    alloc: Global,
    bodies: &Bodies,
    t: &Term,
    is_head_form: bool,
    limit: u64,
    nest: u32,
) -> Result<Reduced, ReduceFault>
    requires room { loose t.now ≤ 63536 + nest }
    requires deep { nest + depth t.now ≤ 2000 }
    requires closed { AreClosed bodies.now }
    requires stopped { is_head_form ≡ true → head_step (bodies_in bodies.now) t.now ≡ None }
    ensures end { Goes (bodies_in bodies.now) t.now limit nest result }
    ensures bound { IfOk result (λ reduced. loose reduced.term ≤ loose t.now) }
{
    if is_head_form {
        return parts_from(alloc, bodies, t, 0, limit, nest);
    }
    normal_within(alloc, bodies, t, limit, nest)
}

//! The head form, by substitution.
ghost use Rattle.std.specs.Prelude.{◌≡◌, ◌+◌, ◌^◌, ◌<◌, ◌≤◌, length, IfOk, OnOk, None};
ghost use Rattle.lego_term.specs.Trees.{loose, depth};
ghost use Rattle.lego_term.specs.Sequences.{head_step};
ghost use Rattle.lego_term.specs.BodyMap.{bodies_in, AreClosed};
ghost use Rattle.lego_reduce.specs.private.Frames.{plug, plug_one, contract_one, IsHead, Contracted, Turns, StaysWithin};
ghost use Rattle.lego_reduce.specs.Reduction.{Reduces};

use crate::fault::ReduceFault;
use crate::frames::{Frame, Frames, rebuilt, surrounded, unwound};
use lego_term::{Bodies, MAX_DEPTH, Node, Term, TermFault, subst};
use smallvec::SmallVec;
use std::alloc::{AllocError, Global};

/// The end of a sequence of steps, and the sequence's length.
#[derive(Drop)]
pub struct Reduced {
    pub term: Term,
    pub steps: u64,
}

/// What a turn of the machine came to.
#[derive(Drop)]
pub(crate) enum Turn {
    /// A step was made to this term within the frames.
    Stepped(Term),
    /// There is no step, and this term stands within the frames.
    Stopped(Term),
}

/// The head form of the term and the number of head steps to it.
///
/// The term's loose variables are below 65,536, and no body has one.
pub fn head(alloc: Global, bodies: &Bodies, t: &Term, limit: u64) -> Result<Reduced, ReduceFault>
    requires room { loose t.now ≤ 65536 }
    requires closed { AreClosed bodies.now }
    ensures { Reduces (head_step (bodies_in bodies.now)) t.now limit result }
{
    head_within(alloc, bodies, t, limit)
}

/// The same for each term whose loose variables can be lifted.
pub(crate) fn head_within(
    alloc: Global,
    bodies: &Bodies,
    t: &Term,
    limit: u64,
) -> Result<Reduced, ReduceFault>
    requires room { loose t.now ≤ 2 ^ 30 }
    requires closed { AreClosed bodies.now }
    ensures end { Reduces (head_step (bodies_in bodies.now)) t.now limit result }
    ensures bound { IfOk result (λ reduced. loose reduced.term ≤ loose t.now) }
{
    let mut frames: Frames = SmallVec::new(alloc);
    let mut inner = unwound(t, &mut frames)?;
    let mut steps = 0;
    'machine: loop {
        match next_turn(alloc, bodies, inner, &mut frames, steps < limit)? {
            Turn::Stepped(made) => {
                steps += 1;
                within_depth(alloc, frames.as_slice(), &made)?;
                inner = unwound(&made, &mut frames)?;
            }
            Turn::Stopped(_) if steps == 0 => {
                let term = t.share()?;
                return Ok(Reduced { term, steps });
            }
            Turn::Stopped(end) => {
                let term = rebuilt(alloc, frames.as_slice(), &end)?;
                return Ok(Reduced { term, steps });
            }
        }
    }
}

/// One turn of the machine: a step at the head within the frames, or the end.
fn next_turn(
    alloc: Global,
    bodies: &Bodies,
    inner: Term,
    frames: &mut Frames,
    has_budget: bool,
) -> Result<Turn, ReduceFault>
    requires head { IsHead inner }
    requires room { loose (plug frames.old.items inner) ≤ 2 ^ 30 }
    ensures { Turns (plug frames.old.items inner) (head_step (bodies_in bodies.now) (plug frames.old.items inner)) has_budget (plug frames.new.items) result }
{
    match contracted(alloc, bodies, &inner, has_budget)? {
        Some(made) => Ok(Turn::Stepped(made)),
        None => match frames.pop() {
            Some(frame) => met(alloc, &inner, &frame, has_budget),
            None => Ok(Turn::Stopped(inner)),
        },
    }
}

/// What a head goes to, where it is a constant with a body or a local definition.
fn contracted(
    alloc: Global,
    bodies: &Bodies,
    inner: &Term,
    has_budget: bool,
) -> Result<Option<Term>, ReduceFault>
    requires head { IsHead inner.now }
    requires room { loose inner.now ≤ 2 ^ 30 }
    ensures { Contracted (head_step (bodies_in bodies.now) inner.now) has_budget result }
{
    match inner.view() {
        Node::Const(number) => match bodies.get(number) {
            Some(_) if !has_budget => Err(ReduceFault::Budget),
            Some(body) => Ok(Some(body.share()?)),
            None => Ok(None),
        },
        Node::Local(_, _, _) if !has_budget => Err(ReduceFault::Budget),
        Node::Local(_, value, body) => Ok(Some(subst(alloc, body, value)?)),
        Node::Var(_) | Node::Prop | Node::Univ(_) => Ok(None),
        Node::Pi(_, _, _) | Node::Lam(_, _, _) | Node::Sigma(_, _, _) => Ok(None),
        Node::Pair(_, _, _, _, _) => Ok(None),
        Node::App(_, _, _) | Node::Fst(_) | Node::Snd(_) => Ok(None),
    }
}

/// A step of the redex that the frame and the term are, or the term within the frame.
fn met(alloc: Global, inner: &Term, frame: &Frame, has_budget: bool) -> Result<Turn, ReduceFault>
    requires { loose (plug_one frame.now inner.now) ≤ 2 ^ 30 }
    ensures { Turns (plug_one frame.now inner.now) (contract_one frame.now inner.now) has_budget (λ u. u) result }
{
    match (inner.view(), frame) {
        (Node::Lam(_, _, body), Frame::Argument(_, argument)) => {
            if !has_budget {
                return Err(ReduceFault::Budget);
            }
            Ok(Turn::Stepped(subst(alloc, body, argument)?))
        }
        (Node::Pair(_, _, _, first, _), Frame::First) => {
            if !has_budget {
                return Err(ReduceFault::Budget);
            }
            Ok(Turn::Stepped(first.share()?))
        }
        (Node::Pair(_, _, _, _, second), Frame::Second) => {
            if !has_budget {
                return Err(ReduceFault::Budget);
            }
            Ok(Turn::Stepped(second.share()?))
        }
        _ => Ok(Turn::Stopped(surrounded(alloc, frame, inner)?)),
    }
}

/// Refuses a term that is deeper than any term may be, so that the frames stay few.
fn within_depth(alloc: Global, frames: &[Frame], term: &Term) -> Result<(), TermFault>
    ensures refused { StaysWithin (plug frames.now term.now) result }
    ensures few { OnOk result (length frames.now ≤ 2000) }
{
    if frames.len() > MAX_DEPTH as usize {
        let whole = rebuilt(alloc, frames, term)?;
        let _depth = whole.depth();
    }
    Ok(())
}

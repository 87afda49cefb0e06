//! What matching is to answer, and whether it does.
ghost use Rattle.std.specs.Prelude.{IfOk};
ghost use Rattle.lego_term.specs.BodyMap.{AreClosed};

use crate::trees::{Built, Tree, built};
use lego_match::{Candidate, MatchFault, candidate};
use lego_term::{Binder, Bodies, Term, TermFault, identical, konst};
use std::alloc::Global;

/// The free holes, with their numbers of hypotheses.
const HOLES: [(u32, u32); 4] = [(3, 0), (4, 1), (5, 2), (6, 0)];

/// What is to be answered.
#[derive(Clone, Copy)]
pub(crate) enum Wanted {
    Agreement,
    Solution(u32, Tree),
    Clash(Tree, Tree, &'static [Binder]),
    HigherOrder(Tree, Tree, &'static [Binder]),
    Occurs(u32),
    /// A hole, and a local that its body may not have.
    Scope(u32, u32, &'static [Binder]),
    Budget,
    /// A term of this depth.
    TooLarge(u32),
}

/// Two terms, and what is to be answered.
pub(crate) type Case = (Tree, Tree, Wanted);

/// How many locals the terms stand under, and how many steps may be made.
#[derive(Clone, Copy)]
pub(crate) struct Limits {
    pub(crate) depth: u32,
    pub(crate) steps: u64,
}

/// So many locals, and some steps.
pub(crate) fn under(depth: u32) -> Limits {
    Limits { depth, steps: 100 }
}

/// No locals, and so many steps.
pub(crate) fn within(steps: u64) -> Limits {
    Limits { depth: 0, steps }
}

/// Why a test fails.
#[derive(Debug, Clone, Copy)]
pub(crate) enum Failure {
    /// The number of the case, and what came in place of the answer that is wanted.
    Answer(Number, &'static str),
    /// The terms could not be built.
    Building(TermFault),
}

/// The row of a case in its table, and 1 where its sides are exchanged; or the rows of both terms.
pub(crate) type Number = (usize, usize);

impl From<TermFault> for Failure {
    fn from(fault: TermFault) -> Failure {
        Failure::Building(fault)
    }
}

type Answer = Result<Option<Candidate>, MatchFault>;

/// Tries each case.
pub(crate) fn try_all(alloc: Global, limits: Limits, cases: &[Case]) -> Result<(), Failure> {
    for (row, case) in cases.iter().enumerate() {
        try_case(alloc, limits, (row, 0), case)?;
    }
    Ok(())
}

/// Tries each case, and each with its sides exchanged.
pub(crate) fn try_both_ways(alloc: Global, limits: Limits, cases: &[Case]) -> Result<(), Failure> {
    for (row, case) in cases.iter().enumerate() {
        try_case(alloc, limits, (row, 0), case)?;
        try_case(alloc, limits, (row, 1), &exchanged(case))?;
    }
    Ok(())
}

/// The case with its sides exchanged, where binders that were crossed are those of both sides.
pub(crate) fn exchanged(case: &Case) -> Case {
    let (left, right, wanted) = *case;
    let wanted = match wanted {
        Wanted::Clash(a, b, deeper) => Wanted::Clash(b, a, deeper),
        Wanted::HigherOrder(a, b, deeper) => Wanted::HigherOrder(b, a, deeper),
        other => other,
    };
    (right, left, wanted)
}

/// Tries the case of this number.
pub(crate) fn try_case(
    alloc: Global,
    limits: Limits,
    number: Number,
    case: &Case,
) -> Result<(), Failure> {
    let (left, right, wanted) = case;
    let found = answer(alloc, limits, built(alloc, left), built(alloc, right))?;
    let (a, b) = carried(wanted);
    judged(number, &found, wanted, built(alloc, &a), built(alloc, &b))
}

/// The terms that the answer is to carry, or `Prop` where it has none.
fn carried(wanted: &Wanted) -> (Tree, Tree) {
    match *wanted {
        Wanted::Solution(_, body) => (body, Tree::Prop),
        Wanted::Clash(a, b, _) | Wanted::HigherOrder(a, b, _) => (a, b),
        _ => (Tree::Prop, Tree::Prop),
    }
}

/// A failure where the answer isn't the one that is wanted, with these terms.
fn judged(
    number: Number,
    found: &Answer,
    wanted: &Wanted,
    a: Built,
    b: Built,
) -> Result<(), Failure> {
    if is_wanted(found, wanted, &a?, &b?) {
        return Ok(());
    }
    Err(Failure::Answer(number, came(found)))
}

fn answer(alloc: Global, limits: Limits, a: Built, b: Built) -> Result<Answer, TermFault> {
    matched(alloc, limits, &a?, &b?)
}

/// What is answered for two terms, which have no other variables than the locals.
fn matched(alloc: Global, limits: Limits, a: &Term, b: &Term) -> Result<Answer, TermFault> {
    let depth = limits.depth;
    if depth > 63_536 || a.loose() > depth || b.loose() > depth {
        return Ok(Err(MatchFault::Memory));
    }
    let bodies = chain(alloc, 3)?;
    Ok(candidate(alloc, &bodies, &HOLES, depth, a, b, limits.steps))
}

/// Each number from 1 below `count` unfolds to the one before it.
fn chain(alloc: Global, count: u32) -> Result<Bodies, TermFault>
    ensures { IfOk result (λ bodies. AreClosed bodies) }
{
    let mut bodies = Bodies::new(alloc);
    for number in 1..count {
        let body = konst(alloc, number - 1)?;
        bodies.put(number, &body)?;
    }
    Ok(bodies)
}

/// Whether the answer is the one that is wanted, with these terms.
fn is_wanted(answer: &Answer, wanted: &Wanted, a: &Term, b: &Term) -> bool {
    match *wanted {
        Wanted::Agreement => matches!(answer, Ok(None)),
        Wanted::Solution(hole, _) => is_solution(answer, hole, a),
        Wanted::Clash(_, _, deeper) => is_clash(answer, a, b, deeper),
        Wanted::HigherOrder(_, _, deeper) => is_higher_order(answer, a, b, deeper),
        Wanted::Occurs(hole) => is_occurrence(answer, hole),
        Wanted::Scope(hole, index, deeper) => is_escape(answer, hole, index, deeper),
        Wanted::Budget => matches!(answer, Err(MatchFault::Budget)),
        Wanted::TooLarge(levels) => is_too_large(answer, levels),
    }
}

fn is_solution(answer: &Answer, number: u32, body: &Term) -> bool {
    match answer {
        Ok(Some(found)) => found.hole == number && identical(&found.body, body),
        _ => false,
    }
}

fn is_clash(answer: &Answer, a: &Term, b: &Term, binders: &[Binder]) -> bool {
    match answer {
        Err(
            MatchFault::Clash {
                left,
                right,
                deeper,
            },
        ) => identical(left, a) && identical(right, b) && deeper.items() == binders,
        _ => false,
    }
}

fn is_higher_order(answer: &Answer, a: &Term, b: &Term, binders: &[Binder]) -> bool {
    match answer {
        Err(
            MatchFault::HigherOrder {
                left,
                right,
                deeper,
            },
        ) => identical(left, a) && identical(right, b) && deeper.items() == binders,
        _ => false,
    }
}

fn is_occurrence(answer: &Answer, number: u32) -> bool {
    match answer {
        Err(MatchFault::Occurs { hole }) => *hole == number,
        _ => false,
    }
}

fn is_escape(answer: &Answer, number: u32, index: u32, binders: &[Binder]) -> bool {
    match answer {
        Err(
            MatchFault::Scope {
                hole,
                variable,
                deeper,
            },
        ) => *hole == number && *variable == index && deeper.items() == binders,
        _ => false,
    }
}

fn is_too_large(answer: &Answer, levels: u32) -> bool {
    match answer {
        Err(MatchFault::TooLarge { depth, .. }) => *depth == levels,
        _ => false,
    }
}

/// What came, in a few words.
fn came(answer: &Answer) -> &'static str {
    match answer {
        Ok(None) => "an agreement",
        Ok(Some(_)) => "a candidate",
        Err(MatchFault::Clash { .. }) => "a clash",
        Err(MatchFault::Occurs { .. }) => "an occurrence",
        Err(MatchFault::Scope { .. }) => "a local out of scope",
        Err(MatchFault::HigherOrder { .. }) => "a pair of higher order",
        Err(MatchFault::Budget) => "the budget",
        Err(MatchFault::TooLarge { .. }) => "a term too large",
        Err(MatchFault::Memory) => "want of memory",
    }
}

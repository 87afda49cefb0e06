//! Refusals, as the tests compare them.
use lego_inference::{Counted, TypeFault};
use lego_level::Constraint;
use lego_term::{Seen, Term, identical};
use std::alloc::{AllocError, Global};
use std::test::Fail;

/// Why something is refused.
#[derive(Debug, Clone, Copy, PartialEq, Eq)]
pub(crate) enum Cause {
    NotAType,
    NotAFunction,
    NotAPair,
    Mismatch,
    Universe { is_cycle: bool },
    LevelTooBig { needed: u64 },
    Budget,
    TooLarge { depth: u32 },
    Full { of: Counted, held: u32 },
    NameInUse { at: usize },
    Other,
}

/// A refusal, with the terms that it shows.
#[derive(Drop)]
pub(crate) struct Refusal {
    pub cause: Cause,
    terms: Vec<Term>,
}

impl Refusal {
    /// Whether the refusal shows the term at a place.
    pub fn shows(&self, at: usize, term: &Term) -> bool {
        match self.terms.get(at) {
            Some(shown) => identical(shown, term),
            None => false,
        }
    }
}

/// What is to be refused.
pub(crate) fn refused<T: Drop>(
    alloc: Global,
    outcome: Result<T, TypeFault>,
) -> Result<Refusal, Fail> {
    match outcome {
        Ok(_) => Err(Fail::new("accepted")),
        Err(fault) => Ok(refusal_of(alloc, fault)?),
    }
}

/// What the fault shows. It is dropped here alone, since that is dear to prove.
fn refusal_of(alloc: Global, fault: TypeFault) -> Result<Refusal, AllocError> {
    shown(alloc, &fault)
}

fn shown(alloc: Global, fault: &TypeFault) -> Result<Refusal, AllocError> {
    let terms = terms_of(alloc, fault)?;
    Ok(Refusal {
        cause: cause_of(fault),
        terms,
    })
}

fn cause_of(fault: &TypeFault) -> Cause {
    match fault {
        TypeFault::NotAType { .. } => Cause::NotAType,
        TypeFault::NotAFunction { .. } => Cause::NotAFunction,
        TypeFault::NotAPair { .. } => Cause::NotAPair,
        TypeFault::Mismatch { .. } => Cause::Mismatch,
        TypeFault::Universe { cycle } => Cause::Universe {
            is_cycle: is_cycle(cycle.items()),
        },
        TypeFault::LevelTooBig { needed, .. } => Cause::LevelTooBig { needed: *needed },
        TypeFault::Budget { .. } => Cause::Budget,
        TypeFault::TooLarge { depth, .. } => Cause::TooLarge { depth: *depth },
        TypeFault::Full { of, held } => Cause::Full {
            of: *of,
            held: *held,
        },
        TypeFault::NameInUse { at } => Cause::NameInUse { at: *at },
        _ => Cause::Other,
    }
}

fn terms_of(alloc: Global, fault: &TypeFault) -> Result<Vec<Term>, AllocError> {
    match fault {
        TypeFault::NotAType { term, got } => two_terms(alloc, term, got),
        TypeFault::NotAFunction { term, got } => two_terms(alloc, term, got),
        TypeFault::NotAPair { term, got } => two_terms(alloc, term, got),
        TypeFault::Mismatch { term, have, want } => {
            let mut terms = two_terms(alloc, term, have)?;
            terms.push(want.term.share()?)?;
            Ok(terms)
        }
        _ => Ok(Vec::new(alloc)),
    }
}

fn two_terms(alloc: Global, first: &Seen, second: &Seen) -> Result<Vec<Term>, AllocError> {
    let mut terms = Vec::new(alloc);
    terms.push(first.term.share()?)?;
    terms.push(second.term.share()?)?;
    Ok(terms)
}

/// Whether the constraints are a closed walk whose total is positive.
fn is_cycle(cycle: &[Constraint]) -> bool {
    let Some(last) = cycle.last() else {
        return false;
    };
    let mut at = last.high.base;
    let mut low: u64 = 0;
    let mut high: u64 = 0;
    for constraint in cycle {
        if constraint.low.base != at {
            return false;
        }
        at = constraint.high.base;
        low = low.saturating_add(u64::from(constraint.low.plus));
        high = high.saturating_add(u64::from(constraint.high.plus));
    }
    high < low
}

//! Entries of a context, and what a check is asked and answers.
ghost use Rattle.std.specs.Prelude.{◌≡◌, IfOk};

use lego_base::Place;
use lego_level::Constraint;
use lego_term::{List, Mark, Term};
use std::alloc::{AllocError, Global};

/// What an entry is. A hole has no name; a definition and a filled hole have a body.
#[derive(Debug, Clone, Copy, PartialEq, Eq)]
pub enum EntryKind {
    Assumed,
    Defined,
    Hole,
    Filled,
}

/// An assumption, a definition or a hole.
///
/// `number` is the constant that stands for it in terms, `name` the number of its name. Of a hole
/// the first `hypotheses` products of the type are locals where it stands. `constraints` are kept
/// for as long as the entry is.
#[derive(Drop)]
pub struct Entry {
    pub number: u32,
    pub name: Option<u32>,
    pub mark: Mark,
    pub kind: EntryKind,
    pub ty: Term,
    pub body: Option<Term>,
    pub hypotheses: u32,
    pub constraints: List<Constraint>,
}

impl Entry {
    /// An equal entry, which shares the terms.
    pub fn copy(&self, alloc: Global) -> Result<Entry, AllocError>
        ensures { IfOk result (λ copy. copy ≡ self.now) }
    {
        let ty = self.ty.share()?;
        let body = share_body(&self.body)?;
        let constraints = Vec::from_slice(alloc, self.constraints.items())?;
        Ok(Entry {
            number: self.number,
            name: self.name,
            mark: self.mark,
            kind: self.kind,
            ty,
            body,
            hypotheses: self.hypotheses,
            constraints: List::of(constraints),
        })
    }
}

/// The same body, shared.
fn share_body(body: &Option<Term>) -> Result<Option<Term>, AllocError>
    ensures { IfOk result (λ shared. shared ≡ body.now) }
{
    match body {
        Some(body) => {
            let shared = body.share()?;
            Ok(Some(shared))
        }
        None => Ok(None),
    }
}

/// One written `Type`: its level variable, and where it is written.
#[derive(Debug, Clone, Copy, PartialEq, Eq)]
pub struct Universe {
    pub variable: u32,
    pub place: Place,
}

/// Where a check was asked for, and the most steps of one comparison or reduction in it.
#[derive(Debug, Clone, Copy, PartialEq, Eq)]
pub struct At {
    pub place: Place,
    pub limit: u64,
}

/// The type of a term, the constraints under which it has it, and the number of level variables
/// that are held together with the fresh ones.
#[derive(Drop)]
pub struct Judged {
    pub ty: Term,
    pub constraints: List<Constraint>,
    pub levels: u32,
}

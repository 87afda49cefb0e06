//! Contexts without holes, to which entries are added whose terms are seen to be over them.
ghost use Rattle.std.specs.Prelude.{◌≤◌, []};
ghost use Rattle.std.specs.Bool.{OnTrue};
ghost use Rattle.lego_laws.specs.Ranges.{levels_bound};
ghost use Rattle.lego_inference.specs.Calls.{IsTermOver};
ghost use Rattle.lego_inference.specs.Entries.{laws_entries};
ghost use Rattle.lego_inference.specs.Locals.{NamesEntries};

use crate::fault::BenchFault;
use lego_base::Place;
use lego_context::Context;
use lego_inference::{At, TypeFault};
use lego_term::{Mark, Node, Term, univ};
use std::alloc::Global;
use std::marker::Model;

const PLACE: Place = Place { line: 1, column: 1 };

const AT: At = At {
    place: PLACE,
    limit: 100_000,
};

/// A context without holes, which contracts see as its contents.
#[derive(Drop)]
pub(crate) struct Development {
    context: Context,
}

impl Model for Development {
    ghost use Rattle.lego_context.specs.Contexts.{Contents};
    ghost use Rattle.lego_context.specs.ContentsCode.{contents_code};
    ghost use Rattle.lego_context.specs.Entries.{HasNoHole};

    ghost Value = { Contents };

    ghost coded = { contents_code };

    ghost view = { λ d. d.context };

    ghost invariant = { λ d. HasNoHole d.context.entries };
}

impl Development {
    /// The empty development.
    pub fn new(alloc: Global) -> Development {
        Development {
            context: Context::new(alloc),
        }
    }

    /// How many entries and level variables there are.
    pub fn counts(&self) -> (u64, u64) {
        (self.context.len() as u64, u64::from(self.context.levels()))
    }

    /// `Type` at the next level variable.
    pub fn universe(&mut self, alloc: Global) -> Result<Term, BenchFault> {
        let level = self.context.fresh_level(PLACE)?;
        Ok(univ(alloc, level)?)
    }

    /// Adds an assumption.
    pub fn assume(&mut self, name: u32, ty: &Term) -> Result<(), BenchFault> {
        if !is_over(&self.context, ty) {
            return Err(BenchFault::Usage);
        }
        Ok(self.context.assume(name, Mark::Plain, ty, AT)?)
    }

    /// Adds a definition that has the type of its body.
    pub fn define(&mut self, name: u32, body: &Term) -> Result<(), BenchFault> {
        if !is_over(&self.context, body) {
            return Err(BenchFault::Usage);
        }
        Ok(self.context.define(name, body, None, AT)?)
    }

    /// Adds a definition with a written type.
    pub fn define_as(&mut self, name: u32, body: &Term, ty: &Term) -> Result<(), BenchFault> {
        if !is_over(&self.context, body) || !is_over(&self.context, ty) {
            return Err(BenchFault::Usage);
        }
        Ok(self.context.define(name, body, Some(ty), AT)?)
    }
}

/// Whether the term is over the entries and level variables of the context.
fn is_over(context: &Context, t: &Term) -> bool
    ensures { OnTrue result (IsTermOver context.now.entries [] context.now.levels t.now) }
{
    t.loose() == 0 && names_entries(context, t) && has_levels_below(t, context.levels())
}

/// Whether the constants of the term are entries, and its explicit levels are small.
fn names_entries(context: &Context, t: &Term) -> bool
    ensures { OnTrue result (NamesEntries (laws_entries context.now.entries) t.now) }
{
    match t.view() {
        Node::Var(_) | Node::Prop => true,
        Node::Const(number) => context.find(number).is_some(),
        Node::Univ(level) => level.plus <= 1_000_000,
        Node::Pi(_, a, b) => names_entries(context, a) && names_entries(context, b),
        Node::Lam(_, a, m) => names_entries(context, a) && names_entries(context, m),
        Node::App(_, m, n) => names_entries(context, m) && names_entries(context, n),
        Node::Sigma(_, a, b) => names_entries(context, a) && names_entries(context, b),
        Node::Pair(_, a, b, m, n) => {
            names_entries(context, a)
                && names_entries(context, b)
                && names_entries(context, m)
                && names_entries(context, n)
        }
        Node::Fst(m) => names_entries(context, m),
        Node::Snd(m) => names_entries(context, m),
        Node::Local(_, m, n) => names_entries(context, m) && names_entries(context, n),
    }
}

/// Whether the level variables of the term are below a number.
fn has_levels_below(t: &Term, levels: u32) -> bool
    ensures { OnTrue result (levels_bound t.now ≤ levels) }
{
    match t.view() {
        Node::Var(_) | Node::Const(_) | Node::Prop => true,
        Node::Univ(level) => match level.base {
            Some(variable) => variable < levels,
            None => true,
        },
        Node::Pi(_, a, b) => has_levels_below(a, levels) && has_levels_below(b, levels),
        Node::Lam(_, a, m) => has_levels_below(a, levels) && has_levels_below(m, levels),
        Node::App(_, m, n) => has_levels_below(m, levels) && has_levels_below(n, levels),
        Node::Sigma(_, a, b) => has_levels_below(a, levels) && has_levels_below(b, levels),
        Node::Pair(_, a, b, m, n) => {
            has_levels_below(a, levels)
                && has_levels_below(b, levels)
                && has_levels_below(m, levels)
                && has_levels_below(n, levels)
        }
        Node::Fst(m) => has_levels_below(m, levels),
        Node::Snd(m) => has_levels_below(m, levels),
        Node::Local(_, m, n) => has_levels_below(m, levels) && has_levels_below(n, levels),
    }
}

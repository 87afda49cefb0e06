//! Terms and contexts of the tests, and the calls on terms that are over a context.
ghost use Rattle.std.specs.Prelude.{◌≤◌};
ghost use Rattle.std.specs.Bool.{OnTrue};
ghost use Rattle.lego_laws.specs.Ranges.{levels_bound};
ghost use Rattle.lego_inference.specs.Entries.{laws_entries};
ghost use Rattle.lego_inference.specs.Locals.{NamesEntries};
ghost use Rattle.lego_context.specs.Entries.{HasNoHole, IsNoHole};
ghost use Rattle.lego_context.specs.Calls.{CanTakeType};
ghost use Rattle.lego_context.specs.Contexts.{IsContext};

use lego_base::Place;
use lego_context::Context;
use lego_inference::{At, EntryKind, Judged, Locals, TypeFault};
use lego_term::{Binder, Level, Mark, Node, Term, TermFault, konst, prop, univ};
use std::alloc::Global;
use std::test::Fail;

pub(crate) const PLACE: Place = Place { line: 1, column: 1 };

pub(crate) const AT: At = At {
    place: PLACE,
    limit: 100_000,
};

pub(crate) const PLAIN: Binder = Binder {
    name: None,
    mark: Mark::Plain,
};

/// A universe of a fixed level.
pub(crate) fn universe(alloc: Global, level: u32) -> Result<Term, TermFault> {
    univ(
        alloc,
        Level {
            base: None,
            plus: level,
        },
    )
}

/// The names of the first two entries: a proposition and a proof of it.
pub(crate) const PROPOSITION: u32 = 7;

pub(crate) const PROOF: u32 = 4;

/// Makes a test over the context `A : Prop, a : A`, whose constants are 0 and 1. The context is
/// dropped here and not in each test, since that is dear to prove.
pub(crate) fn over_fixture<F: FnOnce(Global, &mut Context) -> Result<(), Fail>>(
    alloc: Global,
    test: F,
) -> Result<(), Fail>
    requires { F.IsAlwaysCallable test }
{
    let mut context = Context::new(alloc);
    begin(alloc, &mut context)?;
    test(alloc, &mut context)
}

fn begin(alloc: Global, context: &mut Context) -> Result<(), Fail> {
    let prop = prop(alloc)?;
    let proposition = konst(alloc, 0)?;
    assume(context, PROPOSITION, &prop)?;
    assume(context, PROOF, &proposition)
}

/// An error with this text, where the fact doesn't hold.
pub(crate) fn hold(fact: bool, text: &str) -> Result<(), Fail> {
    if fact { Ok(()) } else { Err(Fail::new(text)) }
}

/// What is to be accepted.
pub(crate) fn accepted<T>(outcome: Result<T, TypeFault>) -> Result<T, Fail> {
    match outcome {
        Ok(value) => Ok(value),
        Err(_) => Err(Fail::new("refused")),
    }
}

/// Adds an assumption that is to be accepted.
pub(crate) fn assume(context: &mut Context, name: u32, ty: &Term) -> Result<(), Fail> {
    accepted(try_assume(context, name, ty))
}

/// Adds a definition that is to be accepted.
pub(crate) fn define(
    context: &mut Context,
    name: u32,
    body: &Term,
    ty: Option<&Term>,
) -> Result<(), Fail> {
    accepted(try_define(context, name, body, ty, AT))
}

/// Adds an assumption, whose type is to be over the context.
pub(crate) fn try_assume(context: &mut Context, name: u32, ty: &Term) -> Result<(), TypeFault> {
    if is_over(context, ty) {
        context.assume(name, Mark::Plain, ty, AT)
    } else {
        Err(TypeFault::Memory)
    }
}

/// Adds a definition, whose terms are to be over the context.
pub(crate) fn try_define(
    context: &mut Context,
    name: u32,
    body: &Term,
    ty: Option<&Term>,
    asked: At,
) -> Result<(), TypeFault> {
    match ty {
        None => define_inferred(context, name, body, asked),
        Some(ty) => define_written(context, name, body, ty, asked),
    }
}

fn define_inferred(
    context: &mut Context,
    name: u32,
    body: &Term,
    asked: At,
) -> Result<(), TypeFault> {
    if is_over(context, body) {
        context.define(name, body, None, asked)
    } else {
        Err(TypeFault::Memory)
    }
}

fn define_written(
    context: &mut Context,
    name: u32,
    body: &Term,
    ty: &Term,
    asked: At,
) -> Result<(), TypeFault> {
    if is_over(context, body) && is_over(context, ty) {
        context.define(name, body, Some(ty), asked)
    } else {
        Err(TypeFault::Memory)
    }
}

/// The type of a term that is to be over the context.
pub(crate) fn infer(alloc: Global, context: &Context, m: &Term) -> Result<Judged, TypeFault> {
    let locals = Locals::new(alloc);
    if is_over(context, m) {
        context.infer(&locals, m, AT)
    } else {
        Err(TypeFault::Memory)
    }
}

/// The check that a term has the type `Prop`.
pub(crate) fn check_proposition(
    alloc: Global,
    context: &Context,
    m: &Term,
) -> Result<Judged, TypeFault> {
    let locals = Locals::new(alloc);
    let prop = prop(alloc)?;
    if is_over(context, m) {
        context.check(&locals, m, &prop, AT)
    } else {
        Err(TypeFault::Memory)
    }
}

/// Keeps the entries before a place, where there is no hole.
pub(crate) fn forget(context: &mut Context, at: usize) -> Result<(), Fail> {
    if at > context.len() {
        return Err(Fail::new("there are fewer entries"));
    }
    if has_no_hole(context) {
        context.forget(at);
        Ok(())
    } else {
        Err(Fail::new("there is a hole"))
    }
}

/// Whether the context has no hole, and the term is over its entries and level variables.
fn is_over(context: &Context, t: &Term) -> bool
    ensures over { OnTrue result (CanTakeType context.now t.now) }
    ensures context { IsContext context.now }
{
    has_no_hole(context)
        && t.loose() == 0
        && names_entries(context, t)
        && has_levels_below(t, context.levels())
}

fn has_no_hole(context: &Context) -> bool
    ensures none { OnTrue result (HasNoHole context.now.entries) }
    ensures context { IsContext context.now }
{
    for at in 0..context.len() {
        let Some(entry) = context.entry(at) else {
            return false;
        };
        if !is_no_hole(entry.kind) {
            return false;
        }
    }
    true
}

fn is_no_hole(kind: EntryKind) -> bool
    ensures { OnTrue result (IsNoHole kind) }
{
    match kind {
        EntryKind::Assumed => true,
        EntryKind::Defined => true,
        EntryKind::Hole => false,
        EntryKind::Filled => false,
    }
}

fn names_entries(context: &Context, t: &Term) -> bool
    ensures { OnTrue result (NamesEntries (laws_entries context.now.entries) t.now) }
{
    match t.view() {
        Node::Var(_) | Node::Prop => true,
        Node::Const(number) => context.find(number).is_some(),
        Node::Univ(level) => level.plus <= 1_000_000,
        Node::Pi(_, a, b) => names_entries(context, a) && names_entries(context, b),
        Node::Lam(_, a, m) => names_entries(context, a) && names_entries(context, m),
        Node::App(_, m, n) => names_entries(context, m) && names_entries(context, n),
        Node::Sigma(_, a, b) => names_entries(context, a) && names_entries(context, b),
        Node::Pair(_, a, b, m, n) => {
            names_entries(context, a)
                && names_entries(context, b)
                && names_entries(context, m)
                && names_entries(context, n)
        }
        Node::Fst(m) => names_entries(context, m),
        Node::Snd(m) => names_entries(context, m),
        Node::Local(_, m, n) => names_entries(context, m) && names_entries(context, n),
    }
}

fn has_levels_below(t: &Term, levels: u32) -> bool
    ensures { OnTrue result (levels_bound t.now ≤ levels) }
{
    match t.view() {
        Node::Var(_) | Node::Const(_) | Node::Prop => true,
        Node::Univ(level) => match level.base {
            Some(variable) => variable < levels,
            None => true,
        },
        Node::Pi(_, a, b) => has_levels_below(a, levels) && has_levels_below(b, levels),
        Node::Lam(_, a, m) => has_levels_below(a, levels) && has_levels_below(m, levels),
        Node::App(_, m, n) => has_levels_below(m, levels) && has_levels_below(n, levels),
        Node::Sigma(_, a, b) => has_levels_below(a, levels) && has_levels_below(b, levels),
        Node::Pair(_, a, b, m, n) => {
            has_levels_below(a, levels)
                && has_levels_below(b, levels)
                && has_levels_below(m, levels)
                && has_levels_below(n, levels)
        }
        Node::Fst(m) => has_levels_below(m, levels),
        Node::Snd(m) => has_levels_below(m, levels),
        Node::Local(_, m, n) => has_levels_below(m, levels) && has_levels_below(n, levels),
    }
}

//! Terms as tests write them.

use lego_term::{
    Binder, Level, Mark, Term, TermFault, app, fst, konst, lam, local, pair, pi, prop, sigma, snd,
    univ, var,
};
use std::alloc::Global;

pub(crate) const PLAIN: Binder = Binder {
    name: None,
    mark: Mark::Plain,
};

/// A binder with a name.
pub(crate) const X: Binder = Binder {
    name: Some(1),
    mark: Mark::Implicit,
};

/// Another one.
pub(crate) const Y: Binder = Binder {
    name: Some(2),
    mark: Mark::Implicit,
};

/// A constant that is no hole.
pub(crate) const A: u32 = 50;

/// Another one.
pub(crate) const B: u32 = 51;

/// A term as a test writes it. The binders of the forms that show none are plain and have no
/// name.
#[derive(Clone, Copy)]
pub(crate) enum Tree {
    Var(u16),
    Const(u32),
    Prop,
    /// The universe of a variable.
    Univ(u32),
    Pi(Binder, &'static Tree, &'static Tree),
    Lam(Binder, &'static Tree, &'static Tree),
    Sigma(&'static Tree, &'static Tree),
    App(&'static Tree, &'static Tree),
    Pair(&'static Tree, &'static Tree, &'static Tree, &'static Tree),
    Fst(&'static Tree),
    Snd(&'static Tree),
    Local(&'static Tree, &'static Tree),
    /// A constant applied to these variables.
    Spine(u32, &'static [u16]),
}

/// A term, or why it could not be built.
pub(crate) type Built = Result<Term, TermFault>;

/// The term that is written.
pub(crate) fn built(alloc: Global, tree: &Tree) -> Built {
    match *tree {
        Tree::Var(index) => var(alloc, u32::from(index)),
        Tree::Const(number) => konst(alloc, number),
        Tree::Prop => prop(alloc),
        Tree::Univ(number) => universe(alloc, number),
        Tree::Pi(_, a, b)
        | Tree::Lam(_, a, b)
        | Tree::Sigma(a, b)
        | Tree::App(a, b)
        | Tree::Local(a, b) => with_two(alloc, tree, built(alloc, a), built(alloc, b)),
        Tree::Pair(a, b, m, n) => {
            let types = both(built(alloc, a), built(alloc, b));
            let parts = both(built(alloc, m), built(alloc, n));
            paired(alloc, types, parts)
        }
        Tree::Fst(of) => first(alloc, built(alloc, of)),
        Tree::Snd(of) => second(alloc, built(alloc, of)),
        Tree::Spine(number, variables) => spine(alloc, number, variables),
    }
}

fn universe(alloc: Global, number: u32) -> Built {
    let base = Some(number);
    univ(alloc, Level { base, plus: 0 })
}

fn with_two(alloc: Global, tree: &Tree, a: Built, b: Built) -> Built {
    joined(alloc, tree, &a?, &b?)
}

/// The form of the tree with these two parts.
fn joined(alloc: Global, tree: &Tree, a: &Term, b: &Term) -> Built {
    match *tree {
        Tree::Pi(binder, _, _) => pi(alloc, binder, a, b),
        Tree::Lam(binder, _, _) => lam(alloc, binder, a, b),
        Tree::Sigma(_, _) => sigma(alloc, PLAIN, a, b),
        Tree::Local(_, _) => local(alloc, PLAIN, a, b),
        _ => app(alloc, Mark::Plain, a, b),
    }
}

fn both(a: Built, b: Built) -> Result<(Term, Term), TermFault> {
    Ok((a?, b?))
}

fn paired(
    alloc: Global,
    types: Result<(Term, Term), TermFault>,
    parts: Result<(Term, Term), TermFault>,
) -> Built {
    let (types, parts) = (types?, parts?);
    pair(alloc, PLAIN, &types.0, &types.1, &parts.0, &parts.1)
}

fn first(alloc: Global, of: Built) -> Built {
    fst(alloc, &of?)
}

fn second(alloc: Global, of: Built) -> Built {
    snd(alloc, &of?)
}

fn spine(alloc: Global, number: u32, variables: &[u16]) -> Built {
    let mut t = konst(alloc, number)?;
    for index in variables {
        t = applied(alloc, &t, *index)?;
    }
    Ok(t)
}

fn applied(alloc: Global, t: &Term, index: u16) -> Built {
    app(alloc, Mark::Plain, t, &var(alloc, u32::from(index))?)
}

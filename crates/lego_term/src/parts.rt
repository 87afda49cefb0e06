//! The parts of a term by number, left to right from 0.
ghost use Rattle.std.specs.Prelude.{◌≡◌, ◌+◌, ◌<◌, ◌≤◌, IfSome, option_map, slice_get, if◌then◌else◌};
ghost use Rattle.lego_term.specs.Trees.{depth, loose};
ghost use Rattle.lego_term.specs.Parts.{parts_of, plain_part, bound_part};
ghost use Rattle.lego_term.specs.Numbered.{branch_of, put_part, is_at_head as stands_at_head};
ghost use Rattle.lego_term.specs.Made.{Makes};

use crate::binder::Binder;
use crate::fault::TermFault;
use crate::makers::{app, fst, lam, local, pair, pi, sigma, snd};
use crate::term::{Node, Term};
use std::alloc::Global;

/// A part of a term, and the binder under which it stands, if any.
#[derive(Clone, Copy)]
pub struct Part<'a> {
    pub under: Option<Binder>,
    pub term: &'a Term,
}

/// A part under no binder.
fn plain(term: &Term) -> Part<'_>
    ensures { branch_of result ≡ plain_part term.now }
{
    Part { under: None, term }
}

/// A part under a binder.
fn bound(binder: Binder, term: &Term) -> Part<'_>
    ensures { branch_of result ≡ bound_part binder term.now }
{
    let under = Some(binder);
    Part { under, term }
}

/// The new term or the old one.
fn either<'a>(is_new: bool, new: &'a Term, old: &'a Term) -> &'a Term
    ensures { result.now ≡ if is_new then new.now else old.now }
{
    if is_new { new } else { old }
}

impl Term {
    /// The numbered part, where there is one.
    pub fn part(&self, number: usize) -> Option<Part<'_>>
        ensures part { option_map branch_of result ≡ slice_get (parts_of self.now) number }
        ensures few { IfSome result (λ _. number < 4) }
        ensures above { IfSome result (λ part. depth part.term.now < depth self.now) }
        ensures bound { IfSome result (λ part. loose part.term.now ≤ loose self.now + 1) }
    {
        match (self.view(), number) {
            (Node::Pi(_, a, _), 0) | (Node::Lam(_, a, _), 0) => Some(plain(a)),
            (Node::App(_, m, _), 0) | (Node::Sigma(_, m, _), 0) => Some(plain(m)),
            (Node::Pair(_, a, _, _, _), 0) | (Node::Local(_, a, _), 0) => Some(plain(a)),
            (Node::Fst(m), 0) | (Node::Snd(m), 0) => Some(plain(m)),
            (Node::Pi(x, _, b), 1) | (Node::Lam(x, _, b), 1) => Some(bound(x, b)),
            (Node::Sigma(x, _, b), 1) | (Node::Local(x, _, b), 1) => Some(bound(x, b)),
            (Node::Pair(x, _, b, _, _), 1) => Some(bound(x, b)),
            (Node::App(_, _, n), 1) => Some(plain(n)),
            (Node::Pair(_, _, _, m, _), 2) => Some(plain(m)),
            (Node::Pair(_, _, _, _, n), 3) => Some(plain(n)),
            _ => None,
        }
    }

    /// The term with this part of the number, where it has one, and else the same term.
    pub fn with_part(&self, alloc: Global, number: usize, part: &Term) -> Result<Term, TermFault>
        ensures { Makes (put_part number part.now self.now) result }
    {
        let first = number == 0;
        let second = number == 1;
        match self.view() {
            Node::Var(_) | Node::Const(_) | Node::Prop | Node::Univ(_) => Ok(self.share()?),
            Node::Pi(x, a, b) => pi(alloc, x, either(first, part, a), either(second, part, b)),
            Node::Lam(x, a, m) => lam(alloc, x, either(first, part, a), either(second, part, m)),
            Node::App(k, m, n) => app(alloc, k, either(first, part, m), either(second, part, n)),
            Node::Sigma(x, a, b) => {
                sigma(alloc, x, either(first, part, a), either(second, part, b))
            }
            Node::Pair(x, a, b, m, n) => {
                let a = either(first, part, a);
                let b = either(second, part, b);
                let m = either(number == 2, part, m);
                let n = either(number == 3, part, n);
                pair(alloc, x, a, b, m, n)
            }
            Node::Fst(m) => fst(alloc, either(first, part, m)),
            Node::Snd(m) => snd(alloc, either(first, part, m)),
            Node::Local(x, m, n) => {
                local(alloc, x, either(first, part, m), either(second, part, n))
            }
        }
    }

    /// Whether the numbered part is the function of an application, or what a projection is
    /// taken of: in a head form it is a head form too.
    pub fn is_at_head(&self, number: usize) -> bool
        ensures { result ≡ stands_at_head self.now number }
    {
        match self.view() {
            Node::App(_, _, _) | Node::Fst(_) | Node::Snd(_) => number == 0,
            _ => false,
        }
    }
}

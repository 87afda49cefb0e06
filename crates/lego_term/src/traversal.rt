//! The traversal that puts other leaves into a term.
ghost use Rattle.std.specs.Prelude.{◌≡◌, ◌+◌, ◌^◌, ◌<◌, ◌≤◌, ℕ, true, suc};
ghost use Rattle.lego_term.specs.Trees.{Core, Var, Const, depth, loose, map_leaves};
ghost use Rattle.lego_term.specs.Made.{Rebuilds};

use crate::fault::TermFault;
use crate::makers::{app, fst, lam, local, pair, pi, sigma, snd};
use crate::term::{Node, Term};
use std::alloc::Global;

/// What is put for the variables and the constants of a term.
pub(crate) trait Leaves {
    /// What is put for a variable under so many binders.
    ghost put_variable: { Self → ℕ → ℕ → Core };

    /// What is put for a constant under so many binders.
    ghost put_constant: { Self → ℕ → ℕ → Core };

    /// What the fields have to meet.
    ghost is_ready: { Self → Type 0 };

    /// By how much a number can pass the number of binders.
    ghost past_binders: { Self → ℕ };

    /// What the variables can be counted to.
    ghost highest: { Self → ℕ };

    /// Whether the term is known to stay as it is, so that nothing in it is looked at.
    fn keeps(&self, t: &Term, under: u32) -> bool
        requires { is_ready self.now }
        ensures { result ≡ true → map_leaves suc (put_variable self.now) (put_constant self.now) under t.now ≡ t.now };

    /// What stands for `t`, the variable of this index.
    fn variable(&self, alloc: Global, t: &Term, index: u32, under: u32) -> Result<Term, TermFault>
        requires ready { is_ready self.now }
        requires same { t.now ≡ Var index }
        requires high { index + 1 ≤ highest self.now }
        requires deep { under + past_binders self.now < 2 ^ 32 }
        ensures { Rebuilds (put_variable self.now under index) result };

    /// What stands for `t`, the constant of this number.
    fn constant(&self, alloc: Global, t: &Term, number: u32, under: u32) -> Result<Term, TermFault>
        requires ready { is_ready self.now }
        requires same { t.now ≡ Const number }
        requires deep { under + past_binders self.now < 2 ^ 32 }
        ensures { Rebuilds (put_constant self.now under number) result };
}

/// The term with other leaves, where `under` counts the binders above it.
pub(crate) fn rebuild<L: Leaves>(
    alloc: Global,
    leaves: &L,
    t: &Term,
    under: u32,
) -> Result<Term, TermFault>
    requires ready { L.is_ready leaves.now }
    requires high { loose t.now + depth t.now ≤ L.highest leaves.now }
    requires deep { under + depth t.now + L.past_binders leaves.now < 2 ^ 32 }
    ensures { Rebuilds (map_leaves suc (L.put_variable leaves.now) (L.put_constant leaves.now) under t.now) result }
{
    if leaves.keeps(t, under) {
        return Ok(t.share()?);
    }
    match t.view() {
        Node::Prop | Node::Univ(_) => Ok(t.share()?),
        Node::Var(index) => leaves.variable(alloc, t, index, under),
        Node::Const(number) => leaves.constant(alloc, t, number, under),
        Node::Pi(binder, domain, body) => {
            let domain = rebuild(alloc, leaves, domain, under)?;
            let body = rebuild(alloc, leaves, body, under + 1)?;
            pi(alloc, binder, &domain, &body)
        }
        Node::Lam(binder, domain, body) => {
            let domain = rebuild(alloc, leaves, domain, under)?;
            let body = rebuild(alloc, leaves, body, under + 1)?;
            lam(alloc, binder, &domain, &body)
        }
        Node::App(mark, function, argument) => {
            let function = rebuild(alloc, leaves, function, under)?;
            let argument = rebuild(alloc, leaves, argument, under)?;
            app(alloc, mark, &function, &argument)
        }
        Node::Sigma(binder, first, second) => {
            let first = rebuild(alloc, leaves, first, under)?;
            let second = rebuild(alloc, leaves, second, under + 1)?;
            sigma(alloc, binder, &first, &second)
        }
        Node::Pair(binder, a, b, m, n) => {
            let a = rebuild(alloc, leaves, a, under)?;
            let b = rebuild(alloc, leaves, b, under + 1)?;
            let m = rebuild(alloc, leaves, m, under)?;
            let n = rebuild(alloc, leaves, n, under)?;
            pair(alloc, binder, &a, &b, &m, &n)
        }
        Node::Fst(of) => {
            let of = rebuild(alloc, leaves, of, under)?;
            fst(alloc, &of)
        }
        Node::Snd(of) => {
            let of = rebuild(alloc, leaves, of, under)?;
            snd(alloc, &of)
        }
        Node::Local(binder, value, scope) => {
            let value = rebuild(alloc, leaves, value, under)?;
            let scope = rebuild(alloc, leaves, scope, under + 1)?;
            local(alloc, binder, &value, &scope)
        }
    }
}

//! Equality of terms.
ghost use Rattle.std.specs.Prelude.{◌≡◌, ◌↔◌, IsTrue};
ghost use Rattle.lego_term.specs.Trees.{Equal, EqualButLevels};
ghost use Rattle.lego_term.specs.private.Agreement.{agrees, same_binder as same_binders, same_mark as same_marks, same_level as same_levels};

use crate::binder::{Binder, Mark};
use crate::digest::lower_half;
use crate::level::Level;
use crate::term::{Node, Term};

/// Whether two terms are equal, names and marks aside.
pub fn equal(a: &Term, b: &Term) -> bool
    ensures { IsTrue result ↔ Equal a.now b.now }
{
    if a.digest() != b.digest() {
        return false;
    }
    agree(a, b, false, true)
}

/// Whether two terms are equal, names and marks too.
pub fn identical(a: &Term, b: &Term) -> bool
    ensures { IsTrue result ↔ a.now ≡ b.now }
{
    if a.digest() != b.digest() {
        return false;
    }
    agree(a, b, true, true)
}

/// Whether two terms are equal, names, marks and levels aside.
pub fn equal_but_levels(a: &Term, b: &Term) -> bool
    ensures { IsTrue result ↔ EqualButLevels a.now b.now }
{
    if lower_half(a.digest()) != lower_half(b.digest()) {
        return false;
    }
    agree(a, b, false, false)
}

/// Whether two terms agree node by node, where `names` asks for the same names and marks
/// too, and `levels` for the same levels.
fn agree(a: &Term, b: &Term, names: bool, levels: bool) -> bool
    ensures { result ≡ agrees names levels a.now b.now }
{
    match (a.view(), b.view()) {
        (Node::Var(i), Node::Var(j)) => i == j,
        (Node::Const(k), Node::Const(n)) => k == n,
        (Node::Prop, Node::Prop) => true,
        (Node::Univ(l), Node::Univ(m)) => !levels || same_level(l, m),
        (Node::Pi(x, a, b), Node::Pi(y, c, d)) => {
            (!names || same_binder(x, y))
                && agree(a, c, names, levels)
                && agree(b, d, names, levels)
        }
        (Node::Lam(x, a, b), Node::Lam(y, c, d)) => {
            (!names || same_binder(x, y))
                && agree(a, c, names, levels)
                && agree(b, d, names, levels)
        }
        (Node::App(k, a, b), Node::App(n, c, d)) => {
            (!names || same_mark(k, n)) && agree(a, c, names, levels) && agree(b, d, names, levels)
        }
        (Node::Sigma(x, a, b), Node::Sigma(y, c, d)) => {
            (!names || same_binder(x, y))
                && agree(a, c, names, levels)
                && agree(b, d, names, levels)
        }
        (Node::Pair(x, a, b, m, n), Node::Pair(y, c, d, p, q)) => {
            (!names || same_binder(x, y))
                && agree(a, c, names, levels)
                && agree(b, d, names, levels)
                && agree(m, p, names, levels)
                && agree(n, q, names, levels)
        }
        (Node::Fst(a), Node::Fst(c)) => agree(a, c, names, levels),
        (Node::Snd(a), Node::Snd(c)) => agree(a, c, names, levels),
        (Node::Local(x, a, b), Node::Local(y, c, d)) => {
            (!names || same_binder(x, y))
                && agree(a, c, names, levels)
                && agree(b, d, names, levels)
        }
        _ => false,
    }
}

fn same_binder(x: Binder, y: Binder) -> bool
    ensures { result ≡ same_binders x y }
{
    x.name == y.name && same_mark(x.mark, y.mark)
}

fn same_mark(k: Mark, n: Mark) -> bool
    ensures { result ≡ same_marks k n }
{
    match (k, n) {
        (Mark::Plain, Mark::Plain) | (Mark::Implicit, Mark::Implicit) => true,
        _ => false,
    }
}

fn same_level(l: Level, m: Level) -> bool
    ensures { result ≡ same_levels l m }
{
    l.base == m.base && l.plus == m.plus
}

//! When two terms agree: equal, names, marks and universes aside.
ghost use Rattle.std.specs.Prelude.{◌≡◌, ◌↔◌, IsTrue};
ghost use Rattle.lego_match.specs.Agreement.{Agree};
ghost use Rattle.lego_match.specs.private.Codes.{agrees, agree_at_root as roots_agree};

use lego_term::{Node, Term};

/// Whether two terms agree.
pub(crate) fn agree(a: &Term, b: &Term) -> bool
    ensures { IsTrue result ↔ Agree a.now b.now }
{
    agree_by_node(a, b)
}

/// The same, node by node.
fn agree_by_node(a: &Term, b: &Term) -> bool
    ensures { result ≡ agrees a.now b.now }
{
    match (a.view(), b.view()) {
        (Node::Var(i), Node::Var(j)) => i == j,
        (Node::Const(k), Node::Const(n)) => k == n,
        (Node::Prop, Node::Prop) | (Node::Prop, Node::Univ(_)) => true,
        (Node::Univ(_), Node::Prop) | (Node::Univ(_), Node::Univ(_)) => true,
        (Node::Pi(_, a, b), Node::Pi(_, c, d)) => agree_by_node(a, c) && agree_by_node(b, d),
        (Node::Lam(_, a, b), Node::Lam(_, c, d)) => agree_by_node(a, c) && agree_by_node(b, d),
        (Node::App(_, a, b), Node::App(_, c, d)) => agree_by_node(a, c) && agree_by_node(b, d),
        (Node::Sigma(_, a, b), Node::Sigma(_, c, d)) => agree_by_node(a, c) && agree_by_node(b, d),
        (Node::Pair(_, a, b, m, n), Node::Pair(_, c, d, p, q)) => {
            agree_by_node(a, c) && agree_by_node(b, d) && agree_by_node(m, p) && agree_by_node(n, q)
        }
        (Node::Fst(a), Node::Fst(c)) => agree_by_node(a, c),
        (Node::Snd(a), Node::Snd(c)) => agree_by_node(a, c),
        (Node::Local(_, a, b), Node::Local(_, c, d)) => agree_by_node(a, c) && agree_by_node(b, d),
        _ => false,
    }
}

/// Whether two head forms agree but for their parts.
pub(crate) fn agree_at_root(a: &Term, b: &Term) -> bool
    ensures { result ≡ roots_agree a.now b.now }
{
    match (a.view(), b.view()) {
        (Node::Var(i), Node::Var(j)) => i == j,
        (Node::Const(k), Node::Const(n)) => k == n,
        (Node::Prop, Node::Prop) | (Node::Prop, Node::Univ(_)) => true,
        (Node::Univ(_), Node::Prop) | (Node::Univ(_), Node::Univ(_)) => true,
        (Node::Pi(_, _, _), Node::Pi(_, _, _)) => true,
        (Node::Lam(_, _, _), Node::Lam(_, _, _)) => true,
        (Node::App(_, _, _), Node::App(_, _, _)) => true,
        (Node::Sigma(_, _, _), Node::Sigma(_, _, _)) => true,
        (Node::Pair(_, _, _, _, _), Node::Pair(_, _, _, _, _)) => true,
        (Node::Fst(_), Node::Fst(_)) => true,
        (Node::Snd(_), Node::Snd(_)) => true,
        _ => false,
    }
}

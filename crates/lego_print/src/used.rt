//! Whether a variable is used.
ghost use Rattle.std.specs.Prelude.{◌≡◌};
ghost use Rattle.lego_term.specs.Trees.{uses_variable};

use lego_term::{Node, Term};

/// Whether the term uses the loose variable of an index.
pub(crate) fn uses_variable(term: &Term, index: u32) -> bool
    ensures { result ≡ uses_variable index term.now }
{
    if term.loose() <= index {
        return false;
    }
    match term.view() {
        Node::Var(other) => other == index,
        Node::Const(_) | Node::Prop | Node::Univ(_) => false,
        Node::Pi(_, a, b) | Node::Lam(_, a, b) | Node::Sigma(_, a, b) | Node::Local(_, a, b) => {
            uses_variable(a, index) || uses_variable(b, index + 1)
        }
        Node::App(_, m, n) => uses_variable(m, index) || uses_variable(n, index),
        Node::Pair(_, a, b, m, n) => {
            uses_variable(a, index)
                || uses_variable(b, index + 1)
                || uses_variable(m, index)
                || uses_variable(n, index)
        }
        Node::Fst(m) | Node::Snd(m) => uses_variable(m, index),
    }
}

//! The ranks of the texts of terms.
ghost use Rattle.std.specs.Prelude.{◌≡◌};
ghost use Rattle.lego_print.specs.private.Parts.{is_below};

use crate::used::uses_variable;
use lego_term::{Node, Term};

/// Whether the rank of the term's text is below the wanted one, so that it stands in
/// parentheses.
pub(crate) fn is_below(term: &Term, wanted: u32) -> bool
    ensures { result ≡ is_below wanted term.now }
{
    match term.view() {
        Node::Pi(_, _, _) | Node::Lam(_, _, _) | Node::Local(_, _, _) => wanted > 0,
        Node::Sigma(_, _, b) => {
            let rank = if uses_variable(b, 0) { 0 } else { 1 };
            wanted > rank
        }
        Node::App(_, _, _) => wanted > 2,
        Node::Var(_) | Node::Const(_) | Node::Prop | Node::Univ(_) => false,
        Node::Pair(_, _, _, _, _) | Node::Fst(_) | Node::Snd(_) => false,
    }
}

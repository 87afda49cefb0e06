//! How the parts of two head forms are to be related.
ghost use Rattle.std.specs.Prelude.{◌≡◌};
ghost use Rattle.lego_compare.specs.private.Codes.{relation_at as relation_of_part};

use lego_term::{Node, Term};

/// How two terms are to be related.
#[derive(Debug, Clone, Copy, PartialEq, Eq)]
pub(crate) enum Relation {
    /// The first is below the second.
    Below,
    /// They convert.
    Same,
}

/// How the numbered parts of head forms of this form are to be related, where the head forms
/// are to be related so: only bodies of products and the parts of Sigma types as the whole.
pub(crate) fn relation_at(relation: Relation, t: &Term, number: usize) -> Relation
    ensures { result ≡ relation_of_part relation t.now number }
{
    match t.view() {
        Node::Sigma(_, _, _) => relation,
        Node::Pi(_, _, _) if number > 0 => relation,
        _ => Relation::Same,
    }
}

//! The roots of two head forms.
ghost use Rattle.std.specs.Prelude.{◌≡◌, if◌then◌else◌};
ghost use Rattle.lego_compare.specs.private.Codes.{roots_of};
ghost use Rattle.lego_compare.specs.declared.roots.Roots.TheVariants.{Alike, Apart};

use crate::relation::Relation;
use lego_term::{Level, Node, Term};

/// What the roots of two head forms say of their relation.
#[derive(Debug, Clone, Copy, PartialEq, Eq)]
pub(crate) enum Roots {
    /// The head forms are not related.
    Apart,
    /// Both are universes, of these levels.
    Universes(Level, Level),
    /// The head forms are related where their parts are.
    Alike,
}

/// What the roots say.
pub(crate) fn compare_roots(relation: Relation, a: &Term, b: &Term) -> Roots
    ensures { result ≡ roots_of relation a.now b.now }
{
    match (a.view(), b.view()) {
        (Node::Var(i), Node::Var(j)) => alike_if(i == j),
        (Node::Const(k), Node::Const(n)) => alike_if(k == n),
        (Node::Prop, Node::Prop) => Roots::Alike,
        (Node::Prop, Node::Univ(_)) => match relation {
            Relation::Below => Roots::Alike,
            Relation::Same => Roots::Apart,
        },
        (Node::Univ(low), Node::Univ(high)) => Roots::Universes(low, high),
        (Node::Pi(_, _, _), Node::Pi(_, _, _)) => Roots::Alike,
        (Node::Lam(_, _, _), Node::Lam(_, _, _)) => Roots::Alike,
        (Node::App(_, _, _), Node::App(_, _, _)) => Roots::Alike,
        (Node::Sigma(_, _, _), Node::Sigma(_, _, _)) => Roots::Alike,
        (Node::Pair(_, _, _, _, _), Node::Pair(_, _, _, _, _)) => Roots::Alike,
        (Node::Fst(_), Node::Fst(_)) => Roots::Alike,
        (Node::Snd(_), Node::Snd(_)) => Roots::Alike,
        _ => Roots::Apart,
    }
}

fn alike_if(is_alike: bool) -> Roots
    ensures { result ≡ if is_alike then Alike else Apart }
{
    if is_alike { Roots::Alike } else { Roots::Apart }
}

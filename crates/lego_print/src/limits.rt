//! The limits of terms, as terms and their levels show them.
ghost use Rattle.std.specs.Prelude.{ℕ, ◌<◌, ◌^◌, All, IfSome, get_or};
ghost use Rattle.std.specs.Option.{option_copied};
ghost use Rattle.lego_term.specs.Levels.{level_value};
ghost use Rattle.lego_term.specs.Trees.{levels_of};
ghost use Rattle.lego_print.specs.Entries.{item_entries};
ghost use Rattle.lego_print.specs.Showable.{IsSmallTerm, IsSmallEntry};

use crate::item::Item;
use crate::pieces::node_value;
use lego_term::{Level, Node, Term};

/// The value of a level is a number of 64 bits.
#[tactic(auto, using(crate::proofs::LimitLemmas::level_small))]
fn level_is_small(level: Level, values: &[u64])
    requires { (u : ℕ) → get_or values.now u 0 < 2 ^ 63 }
    ensures { level_value values.now level < 2 ^ 64 }
{
    let _value = u128::from(node_value(values, level.base)) + u128::from(level.plus);
}

/// The values of the levels of a term are numbers of 64 bits.
fn levels_are_small(term: &Term, values: &[u64])
    requires { (u : ℕ) → get_or values.now u 0 < 2 ^ 63 }
    ensures { All (λ l. level_value values.now l < 2 ^ 64) (levels_of term.now) }
{
    match term.view() {
        Node::Var(_) | Node::Const(_) | Node::Prop => {}
        Node::Univ(level) => level_is_small(level, values),
        Node::Pi(_, a, b) | Node::Lam(_, a, b) | Node::Sigma(_, a, b) | Node::Local(_, a, b) => {
            levels_are_small(a, values);
            levels_are_small(b, values);
        }
        Node::App(_, m, n) => {
            levels_are_small(m, values);
            levels_are_small(n, values);
        }
        Node::Pair(_, a, b, m, n) => {
            levels_are_small(a, values);
            levels_are_small(b, values);
            levels_are_small(m, values);
            levels_are_small(n, values);
        }
        Node::Fst(m) | Node::Snd(m) => levels_are_small(m, values),
    }
}

/// A term is within the limits of terms.
fn term_is_small(term: &Term, values: &[u64])
    requires { (u : ℕ) → get_or values.now u 0 < 2 ^ 63 }
    ensures { IsSmallTerm values.now term.now }
{
    let _depth = term.depth();
    levels_are_small(term, values);
}

/// A body is within the limits of terms, where there is one.
fn body_is_small(body: Option<&Term>, values: &[u64])
    requires { (u : ℕ) → get_or values.now u 0 < 2 ^ 63 }
    ensures { IfSome (option_copied body.entry) (IsSmallTerm values.now) }
{
    if let Some(body) = body {
        term_is_small(body, values);
    }
}

/// The types and the bodies of items are within the limits of terms, and the values of their levels
/// are numbers of 64 bits. It reads each type and body once, and says by its contract what the
/// types of the program show.
pub fn items_are_small(items: &[Item<'_>], values: &[u64])
    requires { (u : ℕ) → get_or values.now u 0 < 2 ^ 63 }
    ensures { All (IsSmallEntry values.now) (item_entries items.now) }
{
    for item in items {
        term_is_small(item.ty, values);
        body_is_small(item.body, values);
    }
}

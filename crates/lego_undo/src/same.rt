//! Comparison by each part.
ghost use Rattle.std.specs.Prelude.{◌≡◌, ◌↔◌, IsTrue, take, length};

use lego_inference::{Entry, Universe};
use lego_level::Constraint;
use lego_term::{Term, identical};

/// Values that are told apart by each of their parts.
pub(crate) trait Same {
    /// Whether both are equal.
    fn is_same(&self, other: &Self) -> bool
        ensures { IsTrue result ↔ self.now ≡ other.now };
}

impl Same for Universe {
    fn is_same(&self, other: &Self) -> bool {
        self == other
    }
}

impl Same for Constraint {
    fn is_same(&self, other: &Self) -> bool {
        self == other
    }
}

impl Same for Entry {
    fn is_same(&self, other: &Self) -> bool {
        self.number == other.number
            && self.name == other.name
            && self.mark == other.mark
            && self.kind == other.kind
            && self.hypotheses == other.hypotheses
            && identical(&self.ty, &other.ty)
            && is_same_body(&self.body, &other.body)
            && is_same_list(self.constraints.items(), other.constraints.items())
    }
}

/// Whether both have the same body, or none.
fn is_same_body(a: &Option<Term>, b: &Option<Term>) -> bool
    ensures { IsTrue result ↔ a.now ≡ b.now }
{
    match (a, b) {
        (Some(a), Some(b)) => identical(a, b),
        (None, None) => true,
        _ => false,
    }
}

/// Whether both lists have the same items.
fn is_same_list<T: Same>(a: &[T], b: &[T]) -> bool
    ensures { IsTrue result ↔ a.now ≡ b.now }
{
    a.len() == b.len() && begins_with(a, b)
}

/// Whether the items of the second list are the first ones of the other.
pub(crate) fn begins_with<T: Same>(list: &[T], front: &[T]) -> bool
    ensures { IsTrue result ↔ take (length front.now) list.now ≡ front.now }
{
    if list.len() < front.len() {
        return false;
    }
    for at in 0..front.len() {
        if !list[at].is_same(&front[at]) {
            return false;
        }
    }
    true
}

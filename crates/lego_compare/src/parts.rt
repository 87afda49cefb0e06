//! The parts of a head form, by number, left to right from 0.
ghost use Rattle.std.specs.Prelude.{◌≡◌, ◌+◌, ◌<◌, ◌≤◌, IfSome, option_map, slice_get};
ghost use Rattle.std.specs.Option.{option_copied};
ghost use Rattle.lego_term.specs.Trees.{loose};
ghost use Rattle.lego_term.specs.Parts.{parts_of, shape_of};
ghost use Rattle.lego_compare.specs.private.Codes.{term_of, binds as has_binder, is_at_head as stands_at_head};

use lego_term::{Node, Term};

/// The numbered part, where there is one.
pub(crate) fn part_at(t: &Term, number: usize) -> Option<&Term>
    ensures part { option_copied result ≡ option_map term_of (slice_get (parts_of t.now) number) }
    ensures few { IfSome result (λ _. number < 4) }
    ensures bound { IfSome result (λ part. loose part.now ≤ loose t.now + 1) }
{
    let part = t.part(number)?;
    Some(part.term)
}

/// Whether the numbered part, where there is one, stands under a binder of the form.
pub(crate) fn binds(t: &Term, number: usize) -> bool
    ensures { result ≡ has_binder t.now number }
{
    match t.view() {
        Node::Pi(_, _, _) | Node::Lam(_, _, _) | Node::Sigma(_, _, _) => number == 1,
        Node::Local(_, _, _) | Node::Pair(_, _, _, _, _) => number == 1,
        _ => false,
    }
}

/// Whether the numbered part, where there is one, is where a head step of the form may be made:
/// the function of an application, or what a projection is taken of. In a head form it is a head
/// form too.
pub(crate) fn is_at_head(t: &Term, number: usize) -> bool
    ensures { result ≡ stands_at_head (shape_of t.now) number }
{
    match t.view() {
        Node::App(_, _, _) | Node::Fst(_) | Node::Snd(_) => number == 0,
        _ => false,
    }
}

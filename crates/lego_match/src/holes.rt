//! Free holes at the heads of terms.
ghost use Rattle.std.specs.Prelude.{◌≡◌, ℕ, ◌≤◌, IfOk, IfSome, IfNone};
ghost use Rattle.std.specs.Ordering.{nat_cmp};
ghost use Rattle.std.specs.BTreeMap.{get};
ghost use Rattle.lego_term.specs.Parts.{head_constant as constant_at_head, own_arguments as own_count};
ghost use Rattle.lego_match.specs.Holes.{listed, has_free_head as is_free_head, IsApplied};

use lego_term::{Node, Term};
use std::alloc::{AllocError, Global};
use std::collections::BTreeMap;

/// A free hole, with the number of its hypotheses.
#[derive(Debug, Clone, Copy, PartialEq, Eq)]
pub(crate) struct Hole {
    pub(crate) number: u32,
    pub(crate) hypotheses: u32,
}

/// The number of hypotheses of each free hole; of a hole that is listed twice, the first.
pub(crate) fn free_holes(
    alloc: Global,
    free: &[(u32, u32)],
) -> Result<BTreeMap<u32, u32>, AllocError>
    ensures { IfOk result (λ holes. (k : ℕ) → get nat_cmp holes k ≡ listed free.now k) }
{
    let mut holes = BTreeMap::new(alloc);
    for index in 0..free.len() {
        let (number, hypotheses) = free[free.len() - 1 - index];
        let Ok(_) = holes.insert(number, hypotheses) else {
            return Err(AllocError);
        };
    }
    Ok(holes)
}

/// The constant at the head of a term, below applications and projections.
fn head_constant(t: &Term) -> Option<u32>
    ensures { result ≡ constant_at_head t.now }
{
    match t.view() {
        Node::Const(number) => Some(number),
        Node::App(_, function, _) => head_constant(function),
        Node::Fst(of) => head_constant(of),
        Node::Snd(of) => head_constant(of),
        _ => None,
    }
}

/// Whether a free hole stands at the head of a term.
pub(crate) fn has_free_head(free: &BTreeMap<u32, u32>, t: &Term) -> bool
    ensures { result ≡ is_free_head (get nat_cmp free.now) t.now }
{
    match head_constant(t) {
        Some(number) => free.get(&number).is_some(),
        None => false,
    }
}

/// The number of arguments of a constant that is applied to outermost locals, in order, and to
/// nothing else.
fn own_arguments(t: &Term, locals: u32) -> Option<u32>
    ensures count { result ≡ own_count locals t.now }
    ensures few { IfSome result (λ count. count ≤ locals) }
{
    match t.view() {
        Node::Const(_) => Some(0),
        Node::App(_, function, argument) => {
            let Node::Var(index) = argument.view() else {
                return None;
            };
            let before = own_arguments(function, locals)?;
            let place = u64::from(index) + u64::from(before) + 1;
            if place == u64::from(locals) {
                Some(before + 1)
            } else {
                None
            }
        }
        _ => None,
    }
}

/// The free hole that the term is, applied to just its own hypotheses.
pub(crate) fn applied_hole(free: &BTreeMap<u32, u32>, t: &Term, locals: u32) -> Option<Hole>
    ensures some { IfSome result (λ hole. IsApplied (get nat_cmp free.now) locals t.now hole.number hole.hypotheses) }
    ensures few { IfSome result (λ hole. hole.hypotheses ≤ locals) }
    ensures none { IfNone result ((k n : ℕ) → IsApplied (get nat_cmp free.now) locals t.now k n → ⊥) }
{
    let number = head_constant(t)?;
    let hypotheses = *free.get(&number)?;
    let count = own_arguments(t, locals)?;
    if count == hypotheses {
        Some(Hole { number, hypotheses })
    } else {
        None
    }
}

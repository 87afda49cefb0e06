//! Height and weight: depth and size where each local definition is its value put for its
//! variable, and the value by itself.
ghost use Rattle.std.specs.Prelude.{◌≡◌, ◌+◌, ◌<◌, ◌≤◌, ◌++◌, ◌∷◌, [], max, OnOk};
ghost use Rattle.std.specs.List.{AllByRecursion};
ghost use Rattle.lego_term.specs.Weight.{IsMeasured, LocalsCountInstances};
ghost use Rattle.lego_term.specs.private.Counted.{IsWithin, IsCounted, scope_of, height_in, weight_in};

use crate::fault::TermFault;
use crate::term::{MAX_DEPTH, MAX_SIZE, Node, Term};
use std::alloc::Global;

/// The height and the weight of a term.
#[derive(Debug, Clone, Copy, PartialEq, Eq)]
pub struct Extent {
    pub height: u32,
    pub weight: u64,
}

/// What a leaf counts.
const LEAF: Extent = Extent {
    height: 1,
    weight: 1,
};

/// The height and the weight of the term, in work bounded by its size.
///
/// `TooLarge`, with one more than the greatest size and depth, comes where the height is over
/// 2,000 or the weight over 1,048,576.
pub fn measure(alloc: Global, t: &Term) -> Result<Extent, TermFault>
    ensures { IsMeasured t.now result }
{
    let mut scope = Vec::new(alloc);
    measure_within(t, &mut scope)
}

/// The same where the variables in scope are counted.
#[cycle(measure)]
fn measure_within(t: &Term, scope: &mut Vec<Extent>) -> Result<Extent, TermFault>
    requires { AllByRecursion IsWithin scope.old.items }
    ensures counted { IsCounted (height_in scope.old.items t.now) (weight_in scope.old.items t.now) result }
    ensures kept { OnOk result (scope.new.items ≡ scope.old.items) }
{
    match t.view() {
        Node::Var(index) => Ok(counted(scope.as_slice(), index)),
        Node::Const(_) => Ok(LEAF),
        Node::Prop => Ok(LEAF),
        Node::Univ(_) => Ok(LEAF),
        Node::Fst(of) => around(measure_within(of, scope)?),
        Node::Snd(of) => around(measure_within(of, scope)?),
        Node::App(_, function, argument) => {
            let function = measure_within(function, scope)?;
            let argument = measure_within(argument, scope)?;
            around(beside(function, argument))
        }
        Node::Pi(_, a, b) => {
            let a = measure_within(a, scope)?;
            let b = measure_under(b, LEAF, scope)?;
            around(beside(a, b))
        }
        Node::Lam(_, a, b) => {
            let a = measure_within(a, scope)?;
            let b = measure_under(b, LEAF, scope)?;
            around(beside(a, b))
        }
        Node::Sigma(_, a, b) => {
            let a = measure_within(a, scope)?;
            let b = measure_under(b, LEAF, scope)?;
            around(beside(a, b))
        }
        Node::Pair(_, a, b, m, n) => {
            let a = measure_within(a, scope)?;
            let b = measure_under(b, LEAF, scope)?;
            let m = measure_within(m, scope)?;
            let n = measure_within(n, scope)?;
            around(beside(beside(a, b), beside(m, n)))
        }
        Node::Local(_, value, body) => {
            let value = measure_within(value, scope)?;
            let body = measure_under(body, value, scope)?;
            around(beside(value, body))
        }
    }
}

/// The same under one binder more, whose variable counts so.
#[cycle(measure)]
fn measure_under(t: &Term, bound: Extent, scope: &mut Vec<Extent>) -> Result<Extent, TermFault>
    requires scope { AllByRecursion IsWithin scope.old.items }
    requires bound { IsWithin bound }
    ensures counted { IsCounted (height_in (scope.old.items ++ bound ∷ []) t.now) (weight_in (scope.old.items ++ bound ∷ []) t.now) result }
    ensures kept { OnOk result (scope.new.items ≡ scope.old.items) }
{
    let Ok(()) = scope.push(bound) else {
        return Err(TermFault::Memory);
    };
    let counted = measure_within(t, scope)?;
    scope.pop();
    Ok(counted)
}

/// What a variable counts: as its local definition's value, or as a leaf.
fn counted(scope: &[Extent], index: u32) -> Extent
    requires { AllByRecursion IsWithin scope.now }
    ensures height { result.height ≡ scope_of (λ x. x.height) scope.now index }
    ensures weight { result.weight ≡ scope_of (λ x. x.weight) scope.now index }
    ensures within { IsWithin result }
{
    let index = index as usize;
    if index < scope.len() {
        scope[scope.len() - 1 - index]
    } else {
        LEAF
    }
}

/// Two parts together.
fn beside(a: Extent, b: Extent) -> Extent
    requires { a.weight + b.weight < 4194305 }
    ensures height { result.height ≡ max a.height b.height }
    ensures weight { result.weight ≡ a.weight + b.weight }
{
    Extent {
        height: a.height.max(b.height),
        weight: a.weight + b.weight,
    }
}

/// A node around its parts.
fn around(parts: Extent) -> Result<Extent, TermFault>
    requires { (parts.height < 4194305) × (parts.weight < 4194305) }
    ensures { IsCounted (1 + parts.height) (1 + parts.weight) result }
{
    let height = parts.height + 1;
    let weight = parts.weight + 1;
    if height > MAX_DEPTH || weight > MAX_SIZE {
        return Err(TermFault::TooLarge {
            size: MAX_SIZE + 1,
            depth: MAX_DEPTH + 1,
        });
    }
    Ok(Extent { height, weight })
}

/// Height and weight count `Let M N` as 1 more than M and N with M for its variable.
pub fn locals_count_instances()
    ensures { LocalsCountInstances }
{}

//! The number of nodes of a term, where a local definition counts as its value put for its
//! variable, and the value by itself.
ghost use Rattle.std.specs.Prelude.{◌≡◌, ◌+◌, ◌≤◌, ◌++◌, ◌∷◌, [], OnOk, IfOk, IfErr};
ghost use Rattle.lego_laws.specs.RuleTypes.{nodes as nodes_of};
ghost use Rattle.lego_rule_types.specs.private.Counting.{Counts, IsCounted, IsBehind, scope_of, nodes_in};
ghost use Rattle.lego_inference.specs.declared.fault.TypeFault.TheVariants as why;
ghost use Rattle.lego_rule_types.specs.declared.nodes.Uncounted.TheVariants.{Memory};

use lego_inference::{Counted, TypeFault};
use lego_term::{Node, Term};
use std::alloc::{AllocError, Global};

/// The most level variables that are held.
const MAX_LEVELS: u32 = 1_048_576;

/// Why nodes were not counted.
#[derive(Debug, Clone, Copy, PartialEq, Eq)]
pub(crate) enum Uncounted {
    /// There are more.
    Over,
    /// Memory ran out.
    Memory,
}

impl From<AllocError> for Uncounted {
    ghost from_gives = { λ _ given. given ≡ Memory };

    fn from(_: AllocError) -> Uncounted {
        Uncounted::Memory
    }
}

/// The number of nodes of the term, which is to be at most so many, in work bounded by its size.
pub(crate) fn nodes(alloc: Global, t: &Term, most: u32) -> Result<u32, Uncounted>
    ensures { IsCounted (nodes_of t.now) most result }
{
    let mut scope = Vec::new(alloc);
    let counted = nodes_within(t, most, &mut scope)?;
    within(u64::from(counted), most)
}

/// The same where the variables in scope are counted.
#[cycle(nodes)]
fn nodes_within(t: &Term, most: u32, scope: &mut Vec<u32>) -> Result<u32, Uncounted>
    ensures counted { Counts (nodes_in scope.old.items t.now) most result }
    ensures kept { OnOk result (scope.new.items ≡ scope.old.items) }
{
    match t.view() {
        Node::Var(index) => Ok(counted(scope.as_slice(), index)),
        Node::Const(_) => Ok(0),
        Node::Prop => Ok(0),
        Node::Univ(_) => Ok(1),
        Node::Fst(of) => nodes_within(of, most, scope),
        Node::Snd(of) => nodes_within(of, most, scope),
        Node::App(_, function, argument) => {
            let function = nodes_within(function, most, scope)?;
            let argument = nodes_within(argument, most, scope)?;
            within(u64::from(function) + u64::from(argument), most)
        }
        Node::Pi(_, a, b) => {
            let a = nodes_within(a, most, scope)?;
            let b = nodes_under(b, 0, most, scope)?;
            within(1 + u64::from(a) + u64::from(b), most)
        }
        Node::Lam(_, a, b) => {
            let a = nodes_within(a, most, scope)?;
            let b = nodes_under(b, 0, most, scope)?;
            within(u64::from(a) + u64::from(b), most)
        }
        Node::Sigma(_, a, b) => {
            let a = nodes_within(a, most, scope)?;
            let b = nodes_under(b, 0, most, scope)?;
            within(1 + u64::from(a) + u64::from(b), most)
        }
        Node::Pair(_, a, b, m, n) => {
            let a = nodes_within(a, most, scope)?;
            let b = nodes_under(b, 0, most, scope)?;
            let m = nodes_within(m, most, scope)?;
            let n = nodes_within(n, most, scope)?;
            let former = u64::from(a) + u64::from(b);
            within(former + u64::from(m) + u64::from(n), most)
        }
        Node::Local(_, value, body) => {
            let value = nodes_within(value, most, scope)?;
            let body = nodes_under(body, value, most, scope)?;
            within(u64::from(value) + u64::from(body), most)
        }
    }
}

/// The same under one binder more, whose variable counts so.
#[cycle(nodes)]
fn nodes_under(t: &Term, bound: u32, most: u32, scope: &mut Vec<u32>) -> Result<u32, Uncounted>
    ensures counted { Counts (nodes_in (scope.old.items ++ bound ∷ []) t.now) most result }
    ensures kept { OnOk result (scope.new.items ≡ scope.old.items) }
{
    let Ok(()) = scope.push(bound) else {
        return Err(Uncounted::Memory);
    };
    let counted = nodes_within(t, most, scope)?;
    scope.pop();
    Ok(counted)
}

/// What a variable counts: as its local definition's value, or nothing.
fn counted(scope: &[u32], index: u32) -> u32
    ensures { result ≡ scope_of scope.now index }
{
    let index = index as usize;
    if index < scope.len() {
        scope[scope.len() - 1 - index]
    } else {
        0
    }
}

/// The number, where it is at most so much.
fn within(count: u64, most: u32) -> Result<u32, Uncounted>
    ensures { IsCounted count most result }
{
    if count > u64::from(most) {
        return Err(Uncounted::Over);
    }
    Ok(count as u32)
}

/// The number of the node behind the term, whose nodes are numbered from `first` on.
pub(crate) fn counted_behind(alloc: Global, t: &Term, first: u32) -> Result<u32, TypeFault>
    requires { first ≤ 1048576 }
    ensures { IsBehind (first + nodes_of t.now) result }
{
    match nodes(alloc, t, MAX_LEVELS - first) {
        Ok(count) => Ok(first + count),
        Err(Uncounted::Over) => Err(TypeFault::Full {
            of: Counted::Levels,
            held: MAX_LEVELS,
        }),
        Err(Uncounted::Memory) => Err(TypeFault::Memory),
    }
}

/// The same of a term whose nodes all have level variables.
pub(crate) fn behind(alloc: Global, t: &Term, first: u32) -> Result<u32, TypeFault>
    requires { first + nodes_of t.now ≤ 1048576 }
    ensures ok { IfOk result (λ next. next ≡ first + nodes_of t.now) }
    ensures err { IfErr result (λ fault. fault ≡ why.Memory) }
{
    match counted_behind(alloc, t, first) {
        Ok(next) => Ok(next),
        Err(_) => Err(TypeFault::Memory),
    }
}

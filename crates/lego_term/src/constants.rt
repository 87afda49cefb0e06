//! Constants in terms: whether one is mentioned, bodies put for them, and variables put
//! for them.
ghost use Rattle.std.specs.Prelude.{◌≡◌, ◌+◌, ◌^◌, ◌<◌, ◌≤◌, ◌-◌, length, IfOk, IfErr, nat_lt, if◌then◌else◌, unwrap_or, option_map};
ghost use Rattle.lego_term.specs.Trees.{Var, Const, depth, loose, mentions as is_mentioned, replace_constants, close_over as closed_over, listed_variable};
ghost use Rattle.lego_term.specs.Made.{Rebuilds};
ghost use Rattle.lego_term.specs.BodyMap.{bodies_in};
ghost use Rattle.lego_term.specs.private.Listed.{HasVariables};
ghost use Rattle.lego_term.specs.private.ConstantBound.{NoneBelow};
ghost use Rattle.lego_term.specs.declared.fault.TermFault.TheVariants.{Memory};

use crate::bodies::Bodies;
use crate::fault::TermFault;
use crate::makers::variable;
use crate::term::{Node, Term};
use crate::traversal::{Leaves, rebuild};
use std::alloc::{AllocError, Global};
use std::collections::BTreeMap;

/// Whether the constant of this number occurs.
pub fn mentions(t: &Term, number: u32) -> bool
    ensures { result ≡ is_mentioned number t.now }
{
    if u64::from(number) >= t.constants() {
        return false;
    }
    match t.view() {
        Node::Var(_) | Node::Prop | Node::Univ(_) => false,
        Node::Const(k) => number == k,
        Node::Pi(_, a, b) => mentions(a, number) || mentions(b, number),
        Node::Lam(_, a, m) => mentions(a, number) || mentions(m, number),
        Node::App(_, m, n) => mentions(m, number) || mentions(n, number),
        Node::Sigma(_, a, b) => mentions(a, number) || mentions(b, number),
        Node::Pair(_, a, b, m, n) => {
            mentions(a, number) || mentions(b, number) || mentions(m, number) || mentions(n, number)
        }
        Node::Fst(m) => mentions(m, number),
        Node::Snd(m) => mentions(m, number),
        Node::Local(_, m, n) => mentions(m, number) || mentions(n, number),
    }
}

/// Puts each constant's body for it, once, without going into the bodies.
pub fn replace_consts(alloc: Global, t: &Term, bodies: &Bodies) -> Result<Term, TermFault>
    ensures { Rebuilds (replace_constants (bodies_in bodies.now) t.now) result }
{
    let _loose = t.loose();
    rebuild(alloc, &Replaced { bodies }, t, 0)
}

/// Each constant is its body, where it has one.
#[derive(Drop)]
struct Replaced<'a> {
    bodies: &'a Bodies,
}

impl Leaves for Replaced<'_> {
    ghost put_variable = { λ s n i. Var i };

    ghost put_constant = { λ s n k. unwrap_or (bodies_in s.bodies.now k) (Const k) };

    ghost is_ready = { λ s. Unit {0} };

    ghost past_binders = { λ s. 0 };

    ghost highest = { λ s. 2 ^ 32 + 2000 };

    fn keeps(&self, t: &Term, _: u32) -> bool {
        t.constants() <= self.bodies.least()
    }

    fn variable(&self, _: Global, t: &Term, _: u32, _: u32) -> Result<Term, TermFault> {
        Ok(t.share()?)
    }

    fn constant(&self, _: Global, t: &Term, number: u32, _: u32) -> Result<Term, TermFault> {
        match self.bodies.get(number) {
            Some(body) => Ok(body.share()?),
            None => Ok(t.share()?),
        }
    }
}

/// Turns the listed constants into variables, the last of them variable 0 at the root, and
/// lifts the other loose variables by the list's length.
pub fn close_over(alloc: Global, t: &Term, numbers: &[u32]) -> Result<Term, TermFault>
    requires { loose t.now + length numbers.now ≤ 65536 }
    ensures ok { IfOk result (λ u. u ≡ closed_over numbers.now 0 t.now) }
    ensures err { IfErr result (λ fault. fault ≡ Memory) }
{
    let _loose = (t.loose(), t.depth());
    let variables = variables_of(alloc, numbers)?;
    let leaves = Closed {
        numbers,
        variables: &variables,
        least: least_of(numbers),
    };
    rebuild(alloc, &leaves, t, 0)
}

/// A number below which no constant is listed.
fn least_of(numbers: &[u32]) -> u64
    ensures { NoneBelow result (listed_variable numbers.now) }
{
    let mut least = u64::MAX;
    for number in numbers {
        least = least.min(u64::from(*number));
    }
    least
}

/// The variables of the listed constants, where the last is variable 0.
fn variables_of(alloc: Global, numbers: &[u32]) -> Result<BTreeMap<u32, u32>, AllocError>
    requires { length numbers.now ≤ 65536 }
    ensures { IfOk result (λ m. HasVariables numbers.now m) }
{
    let mut variables = BTreeMap::new(alloc);
    for index in 0..numbers.len() {
        let number = numbers[numbers.len() - 1 - index];
        let Ok(_) = variables.insert(number, index as u32) else {
            return Err(AllocError);
        };
    }
    Ok(variables)
}

/// Each listed constant is its variable, and each variable that no binder above it binds is raised.
#[derive(Drop)]
struct Closed<'a> {
    numbers: &'a [u32],
    variables: &'a BTreeMap<u32, u32>,
    // no constant below it is listed
    least: u64,
}

impl Leaves for Closed<'_> {
    ghost put_variable = { λ s n i. Var (if nat_lt i n then i else i + length s.numbers.now) };

    ghost put_constant = { λ s n k. unwrap_or (option_map (λ i. Var (i + n)) (listed_variable s.numbers.now k)) (Const k) };

    ghost is_ready = { λ s. HasVariables s.numbers.now s.variables.now × NoneBelow s.least (listed_variable s.numbers.now) };

    ghost past_binders = { λ s. length s.numbers.now };

    ghost highest = { λ s. 2 ^ 32 - 1 - length s.numbers.now };

    fn keeps(&self, t: &Term, under: u32) -> bool {
        t.loose() <= under && t.constants() <= self.least
    }

    fn variable(&self, alloc: Global, t: &Term, index: u32, under: u32) -> Result<Term, TermFault> {
        if index < under {
            Ok(t.share()?)
        } else {
            variable(alloc, index + self.numbers.len() as u32)
        }
    }

    fn constant(
        &self,
        alloc: Global,
        t: &Term,
        number: u32,
        under: u32,
    ) -> Result<Term, TermFault> {
        match self.variables.get(&number) {
            Some(index) => variable(alloc, *index + under),
            None => Ok(t.share()?),
        }
    }
}

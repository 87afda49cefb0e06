//! The calls that make a term from its parts.
ghost use Rattle.std.specs.Prelude.{◌≡◌, ◌+◌, ◌^◌, ◌<◌};
ghost use Rattle.lego_term.specs.Trees.{Var, Const, Prop, Univ, Pi, Lam, App, Sigma, Pair, Fst, Snd, Let};
ghost use Rattle.lego_term.specs.Made.{Makes};

use crate::binder::{Binder, Mark};
use crate::digest::{level_digest, mix};
use crate::fault::TermFault;
use crate::level::Level;
use crate::numbers::Numbers;
use crate::term::{Form, Term};
use std::alloc::Global;

/// The variable of this index.
pub fn var(alloc: Global, index: u32) -> Result<Term, TermFault>
    requires { index < 65536 }
    ensures { Makes (Var index) result }
{
    variable(alloc, index)
}

/// The same for each index that can be counted past.
pub(crate) fn variable(alloc: Global, index: u32) -> Result<Term, TermFault>
    requires { index + 1 < 2 ^ 32 }
    ensures { Makes (Var index) result }
{
    let numbers = Numbers {
        loose: index + 1,
        ..Numbers::node(mix(1, u64::from(index)))
    };
    Term::of(alloc, Form::Var(index), numbers)
}

/// The constant of this number.
pub fn konst(alloc: Global, number: u32) -> Result<Term, TermFault>
    ensures { Makes (Const number) result }
{
    let numbers = Numbers {
        constants: u64::from(number) + 1,
        ..Numbers::node(mix(2, u64::from(number)))
    };
    Term::of(alloc, Form::Const(number), numbers)
}

/// The universe of propositions.
pub fn prop(alloc: Global) -> Result<Term, TermFault>
    ensures { Makes Prop result }
{
    Term::of(alloc, Form::Prop, Numbers::node(mix(3, 0)))
}

/// A universe.
pub fn univ(alloc: Global, level: Level) -> Result<Term, TermFault>
    ensures { Makes (Univ level) result }
{
    let digest = mix(4, level_digest(level));
    Term::of(alloc, Form::Univ(level), Numbers::node(digest))
}

/// The product over a domain.
pub fn pi(alloc: Global, binder: Binder, domain: &Term, body: &Term) -> Result<Term, TermFault>
    ensures { Makes (Pi binder domain.now body.now) result }
{
    let numbers = Numbers::node(5).with(domain).with_body(body);
    let form = Form::Pi(binder, domain.share()?, body.share()?);
    Term::of(alloc, form, numbers)
}

/// The abstraction over a domain.
pub fn lam(alloc: Global, binder: Binder, domain: &Term, body: &Term) -> Result<Term, TermFault>
    ensures { Makes (Lam binder domain.now body.now) result }
{
    let numbers = Numbers::node(6).with(domain).with_body(body);
    let form = Form::Lam(binder, domain.share()?, body.share()?);
    Term::of(alloc, form, numbers)
}

/// A function applied to an argument.
pub fn app(alloc: Global, mark: Mark, function: &Term, argument: &Term) -> Result<Term, TermFault>
    ensures { Makes (App mark function.now argument.now) result }
{
    let numbers = Numbers::node(7).with(function).with(argument);
    let form = Form::App(mark, function.share()?, argument.share()?);
    Term::of(alloc, form, numbers)
}

/// The type of the pairs over two types.
pub fn sigma(alloc: Global, binder: Binder, first: &Term, second: &Term) -> Result<Term, TermFault>
    ensures { Makes (Sigma binder first.now second.now) result }
{
    let numbers = Numbers::node(8).with(first).with_body(second);
    let form = Form::Sigma(binder, first.share()?, second.share()?);
    Term::of(alloc, form, numbers)
}

/// The pair of `m` and `n`, at the type of pairs over `a` and `b`.
pub fn pair(
    alloc: Global,
    binder: Binder,
    a: &Term,
    b: &Term,
    m: &Term,
    n: &Term,
) -> Result<Term, TermFault>
    ensures { Makes (Pair binder a.now b.now m.now n.now) result }
{
    let numbers = Numbers::node(9).with(a).with_body(b).with(m).with(n);
    let form = Form::Pair(binder, a.share()?, b.share()?, m.share()?, n.share()?);
    Term::of(alloc, form, numbers)
}

/// The first part of a pair.
pub fn fst(alloc: Global, of: &Term) -> Result<Term, TermFault>
    ensures { Makes (Fst of.now) result }
{
    let numbers = Numbers::node(10).with(of);
    Term::of(alloc, Form::Fst(of.share()?), numbers)
}

/// The second part of a pair.
pub fn snd(alloc: Global, of: &Term) -> Result<Term, TermFault>
    ensures { Makes (Snd of.now) result }
{
    let numbers = Numbers::node(11).with(of);
    Term::of(alloc, Form::Snd(of.share()?), numbers)
}

/// The local definition of the variable of `binder` in `body`.
pub fn local(alloc: Global, binder: Binder, value: &Term, body: &Term) -> Result<Term, TermFault>
    ensures { Makes (Let binder value.now body.now) result }
{
    let numbers = Numbers::node(12).with(value).with_body(body);
    let form = Form::Local(binder, value.share()?, body.share()?);
    Term::of(alloc, form, numbers)
}

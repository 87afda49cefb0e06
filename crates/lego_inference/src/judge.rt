//! Types of terms by their form, with the constraints of a check.
//!
//! The rules, where each premise is judged at fresh level variables and its constraints are added:
//!
//! - Ax: `Prop : Type(0)`. T: `Type(l) : Type(w)` with a fresh w above l.
//! - var: a variable has its type, and a constant that of its entry.
//! - Pi1, Pi2: `{x:A}B` where A and B are types: it is in `Prop` where B is, and else in `Type(w)`
//!   with a fresh w at least both sorts.
//! - lambda: `[x:A]M : {x:A}B` where A is a type and M : B.
//! - app: `M N : B[N]` where M has a type with the head form `{x:A}B`, and N : A.
//! - Sigma: `<x:A>B : Type(w)` where A and B are types, with a fresh w at least both sorts.
//! - pair: `(M, N : <x:A>B) : <x:A>B` where A and B are types, M : A and N : B[M].
//! - pi1, pi2: `M.1 : A` and `M.2 : B[M.1]` where M has a type with the head form `<x:A>B`.
//! - cum: a term of a type has each type above it; so N : A asks that N's own type is below A.
//! - local definitions: `[x=M]N` has the type of N[M], where M has a type too.
ghost use Rattle.std.specs.Prelude.{◌≡◌, ◌≤◌, length, OnOk};
ghost use Rattle.lego_term.specs.Trees.{Pi, Lam, App, Pair, Fst, Let, loose};
ghost use Rattle.lego_inference.specs.Entries.{laws_entries};
ghost use Rattle.lego_inference.specs.Locals.{site_of};
ghost use Rattle.lego_inference.specs.private.Judging.{site_under, IsReady, Infers, FindsSort, ChecksAt, Forms, Projects};

use crate::fault::TypeFault;
use crate::gathered::Gathered;
use crate::head::{Former, product_of, sigma_of, sort_of};
use crate::locals::Locals;
use crate::made::{instance, product, second_type, sigma_former};
use crate::rules::{
    Formed, constant, product_type, prop_type, sigma_type, universe_type, variable,
};
use crate::setting::{Bound, Setting};
use crate::stated::compare;
use lego_term::{Binder, Level, Mark, Node, Term};

/// The type of the term.
#[cycle(judge)]
pub(crate) fn judge(
    setting: &Setting<'_>,
    locals: &mut Locals,
    m: &Term,
    found: &mut Gathered,
) -> Result<Term, TypeFault>
    requires { IsReady (laws_entries setting.now.signature.now) (site_of locals.old found.old.levels) m.now }
    ensures judged { Infers (laws_entries setting.now.signature.now) setting.now.asked (site_of locals.old found.old.levels) m.now found.old found.new result }
    ensures kept { OnOk result (locals.new ≡ locals.old) }
{
    match m.view() {
        Node::Prop => prop_type(setting.alloc),
        Node::Univ(level) => universe_type(setting, level, found),
        Node::Var(index) => variable(setting, locals, index),
        Node::Const(number) => constant(setting, number),
        Node::Pi(binder, domain, body) => {
            let bound = Bound {
                binder,
                domain,
                body,
            };
            let formed = formed(setting, locals, &bound, found)?;
            product_type(setting, formed, found)
        }
        Node::Sigma(binder, domain, body) => {
            let bound = Bound {
                binder,
                domain,
                body,
            };
            let formed = formed(setting, locals, &bound, found)?;
            sigma_type(setting, formed, found)
        }
        Node::Lam(binder, domain, body) => {
            let bound = Bound {
                binder,
                domain,
                body,
            };
            abstraction(setting, locals, &bound, found)
        }
        Node::App(mark, function, argument) => {
            application(setting, locals, mark, function, argument, found)
        }
        Node::Pair(binder, domain, body, first, second) => {
            let bound = Bound {
                binder,
                domain,
                body,
            };
            pair(setting, locals, &bound, first, second, found)
        }
        Node::Fst(of) => {
            let former = projected(setting, locals, of, found)?;
            Ok(former.domain)
        }
        Node::Snd(of) => {
            let former = projected(setting, locals, of, found)?;
            second_type(setting.alloc, m, of, &former)
        }
        Node::Local(binder, value, body) => local(setting, locals, binder, value, body, found),
    }
}

/// The sort of a type.
#[cycle(judge)]
pub(crate) fn type_at(
    setting: &Setting<'_>,
    locals: &mut Locals,
    a: &Term,
    found: &mut Gathered,
) -> Result<Option<Level>, TypeFault>
    requires { IsReady (laws_entries setting.now.signature.now) (site_of locals.old found.old.levels) a.now }
    ensures sort { FindsSort (laws_entries setting.now.signature.now) setting.now.asked (site_of locals.old found.old.levels) a.now found.old found.new result }
    ensures kept { OnOk result (locals.new ≡ locals.old) }
{
    let ty = judge(setting, locals, a, found)?;
    sort_of(setting, locals, a, &ty)
}

/// The sort of a type under a binder.
#[cycle(judge)]
fn type_under(
    setting: &Setting<'_>,
    locals: &mut Locals,
    bound: &Bound<'_>,
    found: &mut Gathered,
) -> Result<Option<Level>, TypeFault>
    requires { IsReady (laws_entries setting.now.signature.now) (site_under bound.now.binder bound.now.domain.now locals.old found.old.levels) bound.now.body.now }
    ensures sort { FindsSort (laws_entries setting.now.signature.now) setting.now.asked (site_under bound.now.binder bound.now.domain.now locals.old found.old.levels) bound.now.body.now found.old found.new result }
    ensures kept { OnOk result (locals.new ≡ locals.old) }
{
    locals.push(bound.binder, bound.domain)?;
    let sort = type_at(setting, locals, bound.body, found)?;
    locals.pop();
    Ok(sort)
}

/// The parts of a product or a Sigma type, which are types: the premises of Pi1, Pi2 and Sigma.
#[cycle(judge)]
fn formed(
    setting: &Setting<'_>,
    locals: &mut Locals,
    bound: &Bound<'_>,
    found: &mut Gathered,
) -> Result<Formed, TypeFault>
    requires { IsReady (laws_entries setting.now.signature.now) (site_of locals.old found.old.levels) (Pi bound.now.binder bound.now.domain.now bound.now.body.now) }
    ensures parts { Forms (laws_entries setting.now.signature.now) setting.now.asked (site_of locals.old found.old.levels) bound.now.binder bound.now.domain.now bound.now.body.now found.old found.new result }
    ensures kept { OnOk result (locals.new ≡ locals.old) }
{
    let own = found.take_level()?;
    let domain = type_at(setting, locals, bound.domain, found)?;
    let body = type_under(setting, locals, bound, found)?;
    Ok(Formed { own, domain, body })
}

/// Rule lambda.
#[cycle(judge)]
fn abstraction(
    setting: &Setting<'_>,
    locals: &mut Locals,
    bound: &Bound<'_>,
    found: &mut Gathered,
) -> Result<Term, TypeFault>
    requires { IsReady (laws_entries setting.now.signature.now) (site_of locals.old found.old.levels) (Lam bound.now.binder bound.now.domain.now bound.now.body.now) }
    ensures judged { Infers (laws_entries setting.now.signature.now) setting.now.asked (site_of locals.old found.old.levels) (Lam bound.now.binder bound.now.domain.now bound.now.body.now) found.old found.new result }
    ensures kept { OnOk result (locals.new ≡ locals.old) }
{
    type_at(setting, locals, bound.domain, found)?;
    locals.push(bound.binder, bound.domain)?;
    let body = judge(setting, locals, bound.body, found)?;
    locals.pop();
    product(setting.alloc, bound.binder, bound.domain, &body)
}

/// Rule app.
#[cycle(judge)]
fn application(
    setting: &Setting<'_>,
    locals: &mut Locals,
    mark: Mark,
    function: &Term,
    argument: &Term,
    found: &mut Gathered,
) -> Result<Term, TypeFault>
    requires { IsReady (laws_entries setting.now.signature.now) (site_of locals.old found.old.levels) (App mark function.now argument.now) }
    ensures judged { Infers (laws_entries setting.now.signature.now) setting.now.asked (site_of locals.old found.old.levels) (App mark function.now argument.now) found.old found.new result }
    ensures kept { OnOk result (locals.new ≡ locals.old) }
{
    let ty = judge(setting, locals, function, found)?;
    let former = product_of(setting, locals, function, &ty)?;
    checked(setting, locals, argument, &former.domain, found)?;
    instance(setting.alloc, &former.body, argument)
}

/// A term of a stated type: the conclusion of cum.
#[cycle(judge)]
pub(crate) fn checked(
    setting: &Setting<'_>,
    locals: &mut Locals,
    m: &Term,
    want: &Term,
    found: &mut Gathered,
) -> Result<(), TypeFault>
    requires ready { IsReady (laws_entries setting.now.signature.now) (site_of locals.old found.old.levels) m.now }
    requires stated { loose want.now ≤ length locals.old }
    ensures judged { ChecksAt (laws_entries setting.now.signature.now) setting.now.asked (site_of locals.old found.old.levels) m.now want.now found.old found.new result }
    ensures kept { OnOk result (locals.new ≡ locals.old) }
{
    let have = judge(setting, locals, m, found)?;
    compare(setting, locals, m, &have, want, found)
}

/// Rule pair.
#[cycle(judge)]
fn pair(
    setting: &Setting<'_>,
    locals: &mut Locals,
    bound: &Bound<'_>,
    first: &Term,
    second: &Term,
    found: &mut Gathered,
) -> Result<Term, TypeFault>
    requires { IsReady (laws_entries setting.now.signature.now) (site_of locals.old found.old.levels) (Pair bound.now.binder bound.now.domain.now bound.now.body.now first.now second.now) }
    ensures judged { Infers (laws_entries setting.now.signature.now) setting.now.asked (site_of locals.old found.old.levels) (Pair bound.now.binder bound.now.domain.now bound.now.body.now first.now second.now) found.old found.new result }
    ensures kept { OnOk result (locals.new ≡ locals.old) }
{
    type_at(setting, locals, bound.domain, found)?;
    type_under(setting, locals, bound, found)?;
    checked(setting, locals, first, bound.domain, found)?;
    let have = judge(setting, locals, second, found)?;
    // Behind the second component's own type, so that a type too large is that of a wanted pair.
    let _size = have.size();
    let _depth = have.depth();
    let want = instance(setting.alloc, bound.body, first)?;
    compare(setting, locals, second, &have, &want, found)?;
    sigma_former(setting.alloc, bound.binder, bound.domain, bound.body)
}

/// The Sigma type of a pair: the premise of pi1 and pi2.
#[cycle(judge)]
fn projected(
    setting: &Setting<'_>,
    locals: &mut Locals,
    of: &Term,
    found: &mut Gathered,
) -> Result<Former, TypeFault>
    requires { IsReady (laws_entries setting.now.signature.now) (site_of locals.old found.old.levels) (Fst of.now) }
    ensures judged { Projects (laws_entries setting.now.signature.now) setting.now.asked (site_of locals.old found.old.levels) of.now found.old found.new result }
    ensures kept { OnOk result (locals.new ≡ locals.old) }
{
    let ty = judge(setting, locals, of, found)?;
    sigma_of(setting, locals, of, &ty)
}

/// The rule of local definitions.
#[cycle(judge)]
fn local(
    setting: &Setting<'_>,
    locals: &mut Locals,
    binder: Binder,
    value: &Term,
    body: &Term,
    found: &mut Gathered,
) -> Result<Term, TypeFault>
    requires { IsReady (laws_entries setting.now.signature.now) (site_of locals.old found.old.levels) (Let binder value.now body.now) }
    ensures judged { Infers (laws_entries setting.now.signature.now) setting.now.asked (site_of locals.old found.old.levels) (Let binder value.now body.now) found.old found.new result }
    ensures kept { OnOk result (locals.new ≡ locals.old) }
{
    judge(setting, locals, value, found)?;
    let with_value = instance(setting.alloc, body, value)?;
    judge(setting, locals, &with_value, found)
}

//! Reading by the form of the written term.
ghost use Rattle.std.specs.Prelude.{◌≡◌, ◌≢◌, ℕ, List, [], length, map, OnOk, IfOk, IfErr};
ghost use Rattle.lego_laws.specs.Entries.{Entry};
ghost use Rattle.lego_grammar.specs.Reading.{binder as binder_of, bind_core, project_core};
ghost use Rattle.lego_grammar.specs.Scopes.{Scope as Locals, TypeVariables};
ghost use Rattle.lego_grammar.specs.Surface.{written, applied, projected};
ghost use Rattle.lego_grammar.specs.Written.{Written, Bind as Binds, Local as Locally, Pair as Pairs};
ghost use Rattle.lego_inference.specs.Entries.{laws_entries};
ghost use Rattle.lego_reading.specs.Universes.{variables_for};
ghost use Rattle.lego_reading.specs.private.Parts.{IsReady, IsReading, Stops, Outcome, ReadsAs, IsMade};
ghost use Rattle.lego_reading.specs.private.Binders.{AreDomains, inner_scope, written_argument};

use crate::annotation::annotation;
use crate::fault::{ReadFault, made};
use crate::leaves::{any_type, name, proposition, type_at};
use crate::scope::{Scope, Variable};
use crate::setting::Setting;
use lego_grammar::{Kind, Part, Surface};
use lego_term::{Binder, Mark, Term, app, fst, lam, local, pair, pi, sigma, snd};

/// A binder: what it makes, its mark, its names and its domain.
#[derive(Clone, Copy)]
pub(crate) struct Head<'a> {
    pub(crate) kind: Kind,
    pub(crate) mark: Mark,
    pub(crate) names: &'a [u32],
    pub(crate) domain: &'a Surface,
}

/// The core of a written term.
#[cycle(reading)]
pub(crate) fn core_of(
    setting: &Setting<'_>,
    scope: &mut Scope,
    s: &Surface,
) -> Result<Term, ReadFault>
    requires { IsReady setting.now.context.now setting.now.places.now scope.old (written s.now) }
    ensures core { ReadsAs setting.now.context.now setting.now.places.now setting.now.limit scope.old (written s.now) result }
    ensures scope { OnOk result (scope.new ≡ scope.old) }
{
    match s {
        Surface::Name { place, name: n } => name(setting, scope, *place, *n),
        Surface::Prop => proposition(setting, scope),
        Surface::AnyType { place } => any_type(setting, scope, *place),
        Surface::TypeAt { level } => type_at(setting, scope, *level),
        Surface::Hole { place, number } => Err(ReadFault::UnknownGoal {
            place: *place,
            number: *number,
        }),
        Surface::Bind {
            kind,
            mark,
            names,
            domain,
            body,
        } => {
            let head = Head {
                kind: *kind,
                mark: *mark,
                names: names.items(),
                domain: domain.get(),
            };
            if head.names.is_empty() {
                nameless(setting, scope, &head, body.get())
            } else {
                named(setting, scope, &head, body.get())
            }
        }
        Surface::Local { name, value, body } => {
            local_definition(setting, scope, *name, value.get(), body.get())
        }
        Surface::Apply {
            function,
            arguments,
        } => application(setting, scope, function.get(), arguments.items()),
        Surface::Pair { first, second, ty } => {
            pairing(setting, scope, first.get(), second.get(), ty.get())
        }
        Surface::Project { of, parts } => {
            let of = core_of(setting, scope, of.get())?;
            projections(setting, of, parts.items())
        }
    }
}

/// A binder without a name.
#[cycle(reading)]
fn nameless(
    setting: &Setting<'_>,
    scope: &mut Scope,
    head: &Head<'_>,
    body: &Surface,
) -> Result<Term, ReadFault>
    requires { IsReady setting.now.context.now setting.now.places.now scope.old (Binds head.now.kind head.now.mark [] (written head.now.domain.now) (written body.now)) }
    ensures core { ReadsAs setting.now.context.now setting.now.places.now setting.now.limit scope.old (Binds head.now.kind head.now.mark [] (written head.now.domain.now) (written body.now)) result }
    ensures scope { OnOk result (scope.new ≡ scope.old) }
{
    let domain = core_of(setting, scope, head.domain)?;
    scope.push(Variable::Bound(None))?;
    let body = core_of(setting, scope, body)?;
    scope.pop();
    bound(setting, head, None, &domain, &body)
}

/// A binder of several names, which repeats its domain under each.
#[cycle(reading)]
fn named(
    setting: &Setting<'_>,
    scope: &mut Scope,
    head: &Head<'_>,
    body: &Surface,
) -> Result<Term, ReadFault>
    requires names { head.now.names.now ≢ [] }
    requires ready { IsReady setting.now.context.now setting.now.places.now scope.old (Binds head.now.kind head.now.mark head.now.names.now (written head.now.domain.now) (written body.now)) }
    ensures core { ReadsAs setting.now.context.now setting.now.places.now setting.now.limit scope.old (Binds head.now.kind head.now.mark head.now.names.now (written head.now.domain.now) (written body.now)) result }
    ensures scope { OnOk result (scope.new ≡ scope.old) }
{
    let domains = domains(setting, scope, head, body)?;
    let body = core_of(setting, scope, body)?;
    scope.leave(head.names.len());
    enclosed(setting, head, &domains, body)
}

/// The cores of the domain of a binder, under each front of its names, which go in scope.
#[cycle(reading)]
fn domains(
    setting: &Setting<'_>,
    scope: &mut Scope,
    head: &Head<'_>,
    body: &Surface,
) -> Result<Vec<Term>, ReadFault>
    requires { IsReady setting.now.context.now setting.now.places.now scope.old (Binds head.now.kind head.now.mark head.now.names.now (written head.now.domain.now) (written body.now)) }
    ensures cores { IfOk result (λ domains. AreDomains (laws_entries setting.now.context.now.entries) (variables_for setting.now.context.now.levels setting.now.places.now) (written head.now.domain.now) scope.old head.now.names.now domains.items) }
    ensures err { IfErr result (λ fault. Stops (laws_entries setting.now.context.now.entries) (variables_for setting.now.context.now.levels setting.now.places.now) setting.now.limit scope.old (Binds head.now.kind head.now.mark head.now.names.now (written head.now.domain.now) (written body.now)) fault) }
    ensures scope { OnOk result (scope.new ≡ inner_scope scope.old head.now.names.now) }
{
    let mut domains = Vec::new(setting.alloc);
    for name in head.names {
        let domain = core_of(setting, scope, head.domain)?;
        let Ok(()) = domains.push(domain) else {
            return Err(ReadFault::Memory);
        };
        scope.push(Variable::Bound(Some(*name)))?;
    }
    Ok(domains)
}

/// The body of a binder within it, name by name from the innermost.
fn enclosed(
    setting: &Setting<'_>,
    head: &Head<'_>,
    domains: &[Term],
    body: Term,
) -> Result<Term, ReadFault>
    requires names { head.now.names.now ≢ [] }
    requires each { length domains.now ≡ length head.now.names.now }
    ensures { (es : List Entry) (types : TypeVariables) (limit : ℕ) (outer : Locals) (s t : Written) → AreDomains es types s outer head.now.names.now domains.now → IsReading es types (inner_scope outer head.now.names.now) t body → Outcome es types limit outer (Binds head.now.kind head.now.mark head.now.names.now s t) result }
{
    let mut closed = body;
    for inside in 0..head.names.len() {
        let at = head.names.len() - 1 - inside;
        closed = bound(setting, head, Some(head.names[at]), &domains[at], &closed)?;
    }
    Ok(closed)
}

/// The core of one binder.
fn bound(
    setting: &Setting<'_>,
    head: &Head<'_>,
    name: Option<u32>,
    domain: &Term,
    body: &Term,
) -> Result<Term, ReadFault>
    ensures { IsMade (bind_core head.now.kind (binder_of name head.now.mark) domain.now body.now) result }
{
    let binder = Binder {
        name,
        mark: head.mark,
    };
    match head.kind {
        Kind::Lambda => made(lam(setting.alloc, binder, domain, body)),
        Kind::Pi => made(pi(setting.alloc, binder, domain, body)),
        Kind::Sigma => made(sigma(setting.alloc, binder, domain, body)),
    }
}

/// `[name=value]body`.
#[cycle(reading)]
fn local_definition(
    setting: &Setting<'_>,
    scope: &mut Scope,
    name: u32,
    value: &Surface,
    body: &Surface,
) -> Result<Term, ReadFault>
    requires { IsReady setting.now.context.now setting.now.places.now scope.old (Locally name (written value.now) (written body.now)) }
    ensures core { ReadsAs setting.now.context.now setting.now.places.now setting.now.limit scope.old (Locally name (written value.now) (written body.now)) result }
    ensures scope { OnOk result (scope.new ≡ scope.old) }
{
    let value = core_of(setting, scope, value)?;
    let shared = value.share()?;
    scope.push(Variable::Defined(name, shared))?;
    let body = core_of(setting, scope, body)?;
    scope.pop();
    let binder = Binder {
        name: Some(name),
        mark: Mark::Plain,
    };
    made(local(setting.alloc, binder, &value, &body))
}

/// A function applied to its arguments, one after the other.
#[cycle(reading)]
fn application(
    setting: &Setting<'_>,
    scope: &mut Scope,
    function: &Surface,
    arguments: &[(Mark, Surface)],
) -> Result<Term, ReadFault>
    requires { IsReady setting.now.context.now setting.now.places.now scope.old (applied (written function.now) (map written_argument arguments.now)) }
    ensures core { ReadsAs setting.now.context.now setting.now.places.now setting.now.limit scope.old (applied (written function.now) (map written_argument arguments.now)) result }
    ensures scope { OnOk result (scope.new ≡ scope.old) }
{
    let mut applied = core_of(setting, scope, function)?;
    for (mark, argument) in arguments {
        let argument = core_of(setting, scope, argument)?;
        applied = made(app(setting.alloc, *mark, &applied, &argument))?;
    }
    Ok(applied)
}

/// A pair, whose type is read first.
#[cycle(reading)]
fn pairing(
    setting: &Setting<'_>,
    scope: &mut Scope,
    first: &Surface,
    second: &Surface,
    ty: &Surface,
) -> Result<Term, ReadFault>
    requires { IsReady setting.now.context.now setting.now.places.now scope.old (Pairs (written first.now) (written second.now) (written ty.now)) }
    ensures core { ReadsAs setting.now.context.now setting.now.places.now setting.now.limit scope.old (Pairs (written first.now) (written second.now) (written ty.now)) result }
    ensures scope { OnOk result (scope.new ≡ scope.old) }
{
    let ty = core_of(setting, scope, ty)?;
    let sigma = annotation(setting, scope, &ty)?;
    let first = core_of(setting, scope, first)?;
    let second = core_of(setting, scope, second)?;
    made(pair(
        setting.alloc,
        sigma.binder,
        &sigma.first,
        &sigma.second,
        &first,
        &second,
    ))
}

/// A run of projections of a core, the innermost first.
fn projections(setting: &Setting<'_>, of: Term, parts: &[Part]) -> Result<Term, ReadFault>
    ensures { (es : List Entry) (types : TypeVariables) (limit : ℕ) (scope : Locals) (s : Written) → IsReading es types scope s of → Outcome es types limit scope (projected s parts.now) result }
{
    let mut projected = of;
    for part in parts {
        projected = projection(setting, *part, &projected)?;
    }
    Ok(projected)
}

/// One projection.
fn projection(setting: &Setting<'_>, part: Part, of: &Term) -> Result<Term, ReadFault>
    ensures { IsMade (project_core part of.now) result }
{
    match part {
        Part::First => made(fst(setting.alloc, of)),
        Part::Second => made(snd(setting.alloc, of)),
    }
}

//! Level variables of terms, constraints and entries.
ghost use Rattle.std.specs.Prelude.{◌≡◌, max, ◌||◌, false, option_map, unwrap_or};
ghost use Rattle.std.specs.List.{list_any};
ghost use Rattle.lego_term.specs.Trees.{uses_level as is_used, is_over};
ghost use Rattle.lego_laws.specs.Entries.{entry_uses as is_used_by};
ghost use Rattle.lego_laws.specs.Principal.{body_bound as bound_of_body, entries_bound as bound_of_entries};
ghost use Rattle.lego_laws.specs.Ranges.{level_bound as bound_of_level, levels_bound as bound_of_term, pairs_bound};
ghost use Rattle.lego_level.specs.Graphs.{pairs_of};
ghost use Rattle.lego_inference.specs.Entries.{laws_entry, laws_entries};
ghost use Rattle.lego_context.specs.Forgetting.{universes_bound as bound_of_universes};

use lego_inference::{Entry, Universe};
use lego_level::Constraint;
use lego_term::{Level, Node, Term};

/// One above the greatest level variable of the entries' types, bodies and constraints, or 0.
pub(crate) fn entries_bound(entries: &[Entry]) -> u64
    ensures { result ≡ bound_of_entries (laws_entries entries.now) }
{
    let mut bound = 0;
    for entry in entries {
        bound = entry_bound(entry).max(bound);
    }
    bound
}

/// One above the greatest variable of the universes, or 0.
pub(crate) fn universes_bound(universes: &[Universe]) -> u64
    ensures { result ≡ bound_of_universes universes.now }
{
    let mut bound = 0;
    for universe in universes {
        bound = (u64::from(universe.variable) + 1).max(bound);
    }
    bound
}

/// Whether the type, the body or the constraints of some entry have the level variable.
pub(crate) fn is_named(entries: &[Entry], variable: u32) -> bool
    ensures { result ≡ list_any (is_used_by variable) (laws_entries entries.now) }
{
    for entry in entries {
        if entry_uses(entry, variable) {
            return true;
        }
    }
    false
}

fn entry_bound(entry: &Entry) -> u64
    ensures { result ≡ max (max (bound_of_term entry.now.ty) (bound_of_body entry.now.body)) (pairs_bound (pairs_of entry.now.constraints)) }
{
    let ty = term_bound(&entry.ty);
    let body = body_bound(&entry.body);
    let constraints = constraints_bound(entry.constraints.items());
    ty.max(body).max(constraints)
}

fn body_bound(body: &Option<Term>) -> u64
    ensures { result ≡ bound_of_body body.now }
{
    match body {
        Some(body) => term_bound(body),
        None => 0,
    }
}

fn constraints_bound(constraints: &[Constraint]) -> u64
    ensures { result ≡ pairs_bound (pairs_of constraints.now) }
{
    let mut bound = 0;
    for constraint in constraints {
        let sides = level_bound(constraint.low).max(level_bound(constraint.high));
        bound = sides.max(bound);
    }
    bound
}

fn term_bound(t: &Term) -> u64
    ensures { result ≡ bound_of_term t.now }
{
    match t.view() {
        Node::Var(_) | Node::Const(_) | Node::Prop => 0,
        Node::Univ(level) => level_bound(level),
        Node::Pi(_, a, b) => term_bound(a).max(term_bound(b)),
        Node::Lam(_, a, m) => term_bound(a).max(term_bound(m)),
        Node::App(_, m, n) => term_bound(m).max(term_bound(n)),
        Node::Sigma(_, a, b) => term_bound(a).max(term_bound(b)),
        Node::Pair(_, a, b, m, n) => {
            let ty = term_bound(a).max(term_bound(b));
            let parts = term_bound(m).max(term_bound(n));
            ty.max(parts)
        }
        Node::Fst(m) => term_bound(m),
        Node::Snd(m) => term_bound(m),
        Node::Local(_, m, n) => term_bound(m).max(term_bound(n)),
    }
}

fn level_bound(level: Level) -> u64
    ensures { result ≡ bound_of_level level }
{
    match level.base {
        Some(variable) => u64::from(variable) + 1,
        None => 0,
    }
}

fn entry_uses(entry: &Entry, variable: u32) -> bool
    ensures { result ≡ is_used_by variable (laws_entry entry.now) }
{
    term_uses(&entry.ty, variable)
        || body_uses(&entry.body, variable)
        || constraints_use(entry.constraints.items(), variable)
}

fn body_uses(body: &Option<Term>, variable: u32) -> bool
    ensures { result ≡ unwrap_or (option_map (is_used variable) body.now) false }
{
    match body {
        Some(body) => term_uses(body, variable),
        None => false,
    }
}

fn constraints_use(constraints: &[Constraint], variable: u32) -> bool
    ensures { result ≡ list_any (λ c. is_over variable c.low || is_over variable c.high) (pairs_of constraints.now) }
{
    for constraint in constraints {
        if constraint_uses(*constraint, variable) {
            return true;
        }
    }
    false
}

fn constraint_uses(constraint: Constraint, variable: u32) -> bool
    ensures { result ≡ (is_over variable constraint.low || is_over variable constraint.high) }
{
    level_uses(constraint.low, variable) || level_uses(constraint.high, variable)
}

fn term_uses(t: &Term, variable: u32) -> bool
    ensures { result ≡ is_used variable t.now }
{
    match t.view() {
        Node::Var(_) | Node::Const(_) | Node::Prop => false,
        Node::Univ(level) => level_uses(level, variable),
        Node::Pi(_, a, b) => term_uses(a, variable) || term_uses(b, variable),
        Node::Lam(_, a, m) => term_uses(a, variable) || term_uses(m, variable),
        Node::App(_, m, n) => term_uses(m, variable) || term_uses(n, variable),
        Node::Sigma(_, a, b) => term_uses(a, variable) || term_uses(b, variable),
        Node::Pair(_, a, b, m, n) => {
            term_uses(a, variable)
                || term_uses(b, variable)
                || term_uses(m, variable)
                || term_uses(n, variable)
        }
        Node::Fst(m) => term_uses(m, variable),
        Node::Snd(m) => term_uses(m, variable),
        Node::Local(_, m, n) => term_uses(m, variable) || term_uses(n, variable),
    }
}

fn level_uses(level: Level, variable: u32) -> bool
    ensures { result ≡ is_over variable level }
{
    match level.base {
        Some(base) => variable == base,
        None => false,
    }
}

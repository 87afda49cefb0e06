//! The universes of a development, and their lines.
ghost use Rattle.std.specs.Prelude.{◌≡◌, ℕ, ◌++◌, ◌||◌, nat_eq, false, option_map, unwrap_or, OnOk, IfOk, IsPermutation, IsSortedBy};
ghost use Rattle.std.specs.Option.{option_copied};
ghost use Rattle.std.specs.List.{list_any};
ghost use Rattle.std.specs.Ordering.{is_lt};
ghost use Rattle.lego_term.specs.Trees.{uses_level, is_over};
ghost use Rattle.lego_print.specs.Entries.{item_entries};
ghost use Rattle.lego_print.specs.Developments.{occurs_in, used_once, is_before, universe_line, universe_lines};

use crate::item::Item;
use crate::pieces::{node_value, push_number, push_place};
use indexmap::IndexSet;
use lego_base::Place;
use lego_term::{Level, Node, Term};
use std::alloc::{AllocError, Global};
use std::cmp::Ordering;

/// One written `Type`: its level variable, and where it is written.
#[derive(Debug, Clone, Copy, PartialEq, Eq)]
pub struct Universe {
    pub variable: u32,
    pub place: Place,
}

/// Adds the variable of a level to a set.
fn note_level(level: Level, variables: &mut IndexSet<u32>) -> Result<(), AllocError>
    ensures { OnOk result ((u : ℕ) → list_any (nat_eq u) variables.new.keys ≡ (list_any (nat_eq u) variables.old.keys || is_over u level)) }
{
    let Some(variable) = level.base else {
        return Ok(());
    };
    match variables.insert(variable) {
        Ok(_) => Ok(()),
        Err(_) => Err(AllocError),
    }
}

/// Adds the level variables of a term to a set.
fn note_term(term: &Term, variables: &mut IndexSet<u32>) -> Result<(), AllocError>
    ensures { OnOk result ((u : ℕ) → list_any (nat_eq u) variables.new.keys ≡ (list_any (nat_eq u) variables.old.keys || uses_level u term.now)) }
{
    match term.view() {
        Node::Var(_) | Node::Const(_) | Node::Prop => Ok(()),
        Node::Univ(level) => note_level(level, variables),
        Node::Pi(_, a, b) | Node::Lam(_, a, b) | Node::Sigma(_, a, b) | Node::Local(_, a, b) => {
            note_term(a, variables)?;
            note_term(b, variables)
        }
        Node::App(_, m, n) => {
            note_term(m, variables)?;
            note_term(n, variables)
        }
        Node::Pair(_, a, b, m, n) => {
            note_term(a, variables)?;
            note_term(b, variables)?;
            note_term(m, variables)?;
            note_term(n, variables)
        }
        Node::Fst(m) | Node::Snd(m) => note_term(m, variables),
    }
}

/// Adds the level variables of a body to a set, where there is one.
fn note_body(body: Option<&Term>, variables: &mut IndexSet<u32>) -> Result<(), AllocError>
    ensures { OnOk result ((u : ℕ) → list_any (nat_eq u) variables.new.keys ≡ (list_any (nat_eq u) variables.old.keys || unwrap_or (option_map (uses_level u) (option_copied body.entry)) false)) }
{
    match body {
        Some(body) => note_term(body, variables),
        None => Ok(()),
    }
}

/// The level variables that occur in a type or body of the entries.
fn variables_of(alloc: Global, items: &[Item<'_>]) -> Result<IndexSet<u32>, AllocError>
    ensures { IfOk result (λ variables. (u : ℕ) → list_any (nat_eq u) variables.keys ≡ occurs_in (item_entries items.now) u) }
{
    let mut variables = IndexSet::new(alloc);
    for item in items {
        note_term(item.ty, &mut variables)?;
        note_body(item.body, &mut variables)?;
    }
    Ok(variables)
}

/// The universes whose variables are in the set, each variable once.
fn used_once(
    alloc: Global,
    universes: &[Universe],
    mut variables: IndexSet<u32>,
) -> Result<Vec<Universe>, AllocError>
    ensures { IfOk result (λ used. used.items ≡ used_once (λ u. list_any (nat_eq u) variables.keys) universes.now) }
{
    let mut used = Vec::new(alloc);
    for universe in universes {
        if variables.swap_remove(&universe.variable) {
            used.push(*universe)?;
        }
    }
    Ok(used)
}

/// Compares lines, and columns in one line.
fn compare(p: Place, q: Place) -> Ordering
    ensures { is_lt result ≡ is_before p q }
{
    p.line.cmp(&q.line).then(p.column.cmp(&q.column))
}

/// Puts universes in the order of their places.
fn put_in_order(universes: &mut Vec<Universe>) -> Result<(), AllocError>
    ensures same { OnOk result (IsPermutation universes.old.items universes.new.items) }
    ensures order { OnOk result (IsSortedBy (λ u w. is_before u.place w.place) universes.new.items) }
{
    universes.sort_by(|u, w| compare(u.place, w.place))
}

/// Adds the line of a universe: its place, and the value of its variable.
fn push_line(text: &mut Vec<u8>, universe: Universe, values: &[u64]) -> Result<(), AllocError>
    ensures { OnOk result (text.new.items ≡ text.old.items ++ universe_line values.now universe) }
{
    text.extend_from_slice(b"(* universe ")?;
    push_place(text, universe.place)?;
    text.extend_from_slice(b" at ")?;
    push_number(text, node_value(values, Some(universe.variable)))?;
    text.extend_from_slice(b" *)\n")
}

/// Adds the lines of universes.
pub(crate) fn push_lines(
    text: &mut Vec<u8>,
    universes: &[Universe],
    values: &[u64],
) -> Result<(), AllocError>
    ensures { OnOk result (text.new.items ≡ text.old.items ++ universe_lines values.now universes.now) }
{
    for universe in universes {
        push_line(text, *universe, values)?;
    }
    Ok(())
}

/// The universes whose variables occur in a type or body of the entries, each variable once, in
/// the order of their places.
pub(crate) fn listed(
    alloc: Global,
    items: &[Item<'_>],
    universes: &[Universe],
) -> Result<Vec<Universe>, AllocError>
    ensures once { IfOk result (λ listed. IsPermutation (used_once (occurs_in (item_entries items.now)) universes.now) listed.items) }
    ensures by_place { IfOk result (λ listed. IsSortedBy (λ u w. is_before u.place w.place) listed.items) }
{
    let variables = variables_of(alloc, items)?;
    let mut listed = used_once(alloc, universes, variables)?;
    put_in_order(&mut listed)?;
    Ok(listed)
}

//! All pairs of small normal forms, and holes against each of them.

use crate::answers::{Failure, Wanted, exchanged, try_case, under};
use crate::trees::{A, B, PLAIN, Tree};
use std::alloc::Global;

/// One of each form with parts, two variables, two constants and two sorts, the last.
const FORMS: [Tree; 13] = [
    Tree::Pi(PLAIN, &Tree::Const(A), &Tree::Const(B)),
    Tree::Sigma(&Tree::Const(A), &Tree::Const(B)),
    Tree::Lam(PLAIN, &Tree::Const(A), &Tree::Const(B)),
    Tree::App(&Tree::Const(A), &Tree::Const(B)),
    Tree::Pair(
        &Tree::Const(A),
        &Tree::Const(B),
        &Tree::Const(A),
        &Tree::Const(B),
    ),
    Tree::Fst(&Tree::Const(A)),
    Tree::Snd(&Tree::Const(A)),
    Tree::Var(0),
    Tree::Var(1),
    Tree::Const(A),
    Tree::Const(B),
    Tree::Prop,
    Tree::Univ(7),
];

/// What two of the forms, by their numbers, give.
fn wanted_of(number: usize, a: Tree, other: usize, b: Tree) -> Wanted {
    if number == other || (number > 10 && other > 10) {
        Wanted::Agreement
    } else {
        Wanted::Clash(a, b, &[])
    }
}

/// Tries the form of this number against each.
fn try_form(alloc: Global, number: usize, form: &Tree, forms: &[Tree]) -> Result<(), Failure> {
    for (other, against) in forms.iter().enumerate() {
        let wanted = wanted_of(number, *form, other, *against);
        let case = (*form, *against, wanted);
        try_case(alloc, under(2), (number, other), &case)?;
    }
    Ok(())
}

#[test]
fn different_forms_clash_and_sorts_agree(rt: HostRuntime) -> Result<(), Failure> {
    let forms = &FORMS;
    for (number, form) in forms.iter().enumerate() {
        try_form(rt.alloc(), number, form, forms)?;
    }
    Ok(())
}

/// The hole 5 applied to just its own hypotheses, and other terms with this hole at the head.
const SPINES: [Tree; 10] = [
    Tree::Spine(5, &[1, 0]),
    Tree::Spine(5, &[0, 1]),
    Tree::Spine(5, &[1]),
    Tree::Const(5),
    Tree::Spine(5, &[1, 1]),
    Tree::Spine(5, &[1, 0, 0]),
    Tree::Fst(&Tree::Spine(5, &[1, 0])),
    Tree::Snd(&Tree::Spine(5, &[1, 0])),
    Tree::App(&Tree::Spine(5, &[1]), &Tree::Const(A)),
    Tree::App(&Tree::Fst(&Tree::Spine(5, &[1, 0])), &Tree::Var(0)),
];

/// What the spine of this number and a form give.
fn wanted_of_spine(number: usize, spine: Tree, form: Tree) -> Wanted {
    if number == 0 {
        Wanted::Solution(5, form)
    } else {
        Wanted::HigherOrder(spine, form, &[])
    }
}

/// Tries the spine of this number against each form, both ways.
fn try_spine(alloc: Global, number: usize, spine: &Tree, forms: &[Tree]) -> Result<(), Failure> {
    for (other, form) in forms.iter().enumerate() {
        let case = (*spine, *form, wanted_of_spine(number, *spine, *form));
        try_case(alloc, under(2), (number, other), &case)?;
        try_case(alloc, under(2), (number, other), &exchanged(&case))?;
    }
    Ok(())
}

#[test]
fn a_hole_is_solved_just_with_its_own_hypotheses(rt: HostRuntime) -> Result<(), Failure> {
    for (number, spine) in SPINES.iter().enumerate() {
        try_spine(rt.alloc(), number, spine, &FORMS)?;
    }
    Ok(())
}

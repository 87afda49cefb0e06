//! Terms without a normal form, budgets at their edge, and the most locals.

use crate::answers::{Case, Failure, Wanted, try_all, try_both_ways, under, within};
use crate::trees::{A, B, PLAIN, Tree, X, Y};

/// `[x:Prop]x x`
const TWICE: Tree = Tree::Lam(PLAIN, &Tree::Prop, &Tree::App(&Tree::Var(0), &Tree::Var(0)));

/// The same applied to itself, which has no normal form.
const ENDLESS: Tree = Tree::App(&TWICE, &TWICE);

/// Pairs before parts without a normal form, and behind such parts that are equal.
const NEAR: [Case; 2] = [
    (
        Tree::App(&Tree::App(&Tree::Const(A), &Tree::Const(A)), &ENDLESS),
        Tree::App(
            &Tree::App(&Tree::Const(A), &Tree::Const(B)),
            &Tree::App(&ENDLESS, &Tree::Const(A)),
        ),
        Wanted::Clash(Tree::Const(A), Tree::Const(B), &[]),
    ),
    (
        Tree::Pi(PLAIN, &ENDLESS, &Tree::Const(3)),
        Tree::Pi(PLAIN, &ENDLESS, &Tree::Const(A)),
        Wanted::Solution(3, Tree::Const(A)),
    ),
];

#[test]
fn a_difference_near_the_root_costs_no_normal_form(rt: HostRuntime) -> Result<(), Failure> {
    try_both_ways(rt.alloc(), within(0), &NEAR)
}

const IN_A_PART: [Case; 1] = [(
    Tree::App(&Tree::Const(A), &ENDLESS),
    Tree::App(&Tree::Const(A), &Tree::Const(B)),
    Wanted::Budget,
)];

#[test]
fn a_part_without_a_normal_form_meets_the_limit(rt: HostRuntime) -> Result<(), Failure> {
    try_both_ways(rt.alloc(), within(1_000), &IN_A_PART)
}

/// The constant 2 and this have the normal form 0, each in two steps.
const LOCAL: Tree = Tree::Local(&Tree::Const(1), &Tree::Var(0));

const ENOUGH: [Case; 2] = [
    (Tree::Const(2), LOCAL, Wanted::Agreement),
    (
        Tree::Fst(&Tree::Const(2)),
        Tree::Snd(&LOCAL),
        Wanted::Clash(Tree::Fst(&Tree::Const(0)), Tree::Snd(&Tree::Const(0)), &[]),
    ),
];

const TOO_FEW: [Case; 2] = [
    (Tree::Const(2), LOCAL, Wanted::Budget),
    (
        Tree::Fst(&Tree::Const(2)),
        Tree::Snd(&LOCAL),
        Wanted::Budget,
    ),
];

#[test]
fn the_limit_counts_both_sides(rt: HostRuntime) -> Result<(), Failure> {
    try_both_ways(rt.alloc(), within(4), &ENOUGH)?;
    try_both_ways(rt.alloc(), within(3), &TOO_FEW)
}

#[test]
fn equal_terms_take_no_steps(rt: HostRuntime) -> Result<(), Failure> {
    let case = (Tree::Const(2), Tree::Const(2), Wanted::Agreement);
    try_all(rt.alloc(), within(0), &[case])
}

/// `[x:Prop]x x x`
const THRICE: Tree = Tree::Lam(
    PLAIN,
    &Tree::Prop,
    &Tree::App(&Tree::App(&Tree::Var(0), &Tree::Var(0)), &Tree::Var(0)),
);

const GROWS: [Case; 1] = [(
    Tree::App(&THRICE, &THRICE),
    Tree::Const(A),
    Wanted::TooLarge(2_001),
)];

#[test]
fn a_term_that_grows_without_end_is_too_large(rt: HostRuntime) -> Result<(), Failure> {
    try_both_ways(rt.alloc(), within(100_000), &GROWS)
}

/// Parts under more variables than can be normalised by themselves: the whole terms are.
const MOST_LOCALS: [Case; 2] = [
    (
        Tree::Pi(PLAIN, &Tree::Const(A), &Tree::Spine(4, &[63_536])),
        Tree::Pi(PLAIN, &Tree::Const(A), &Tree::Spine(A, &[63_536])),
        Wanted::Solution(4, Tree::Spine(A, &[0])),
    ),
    (
        Tree::Pi(X, &Tree::Const(A), &Tree::Fst(&Tree::Var(63_536))),
        Tree::Pi(Y, &Tree::Const(A), &Tree::Snd(&Tree::Var(63_536))),
        Wanted::Clash(
            Tree::Fst(&Tree::Var(63_536)),
            Tree::Snd(&Tree::Var(63_536)),
            &[X],
        ),
    ),
];

#[test]
fn a_pair_may_stand_under_the_most_locals(rt: HostRuntime) -> Result<(), Failure> {
    try_all(rt.alloc(), under(63_536), &MOST_LOCALS)
}

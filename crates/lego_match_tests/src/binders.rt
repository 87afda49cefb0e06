//! Pairs inside other terms: under binders, and behind parts that agree.

use crate::answers::{Case, Failure, Wanted, try_all, try_both_ways, under};
use crate::trees::{A, B, PLAIN, Tree, X, Y};

/// The domain of the inner binders.
const DOMAIN: Tree = Tree::Spine(B, &[0]);

/// Pairs under the binders `{x:A}[y:B x]` on the left and `{y:A}[x:B y]` on the right.
const UNDER_BINDERS: [Case; 6] = [
    (
        Tree::Pi(X, &Tree::Const(A), &Tree::Lam(Y, &DOMAIN, &Tree::Var(0))),
        Tree::Pi(Y, &Tree::Const(A), &Tree::Lam(X, &DOMAIN, &Tree::Var(2))),
        Wanted::Clash(Tree::Var(0), Tree::Var(2), &[X, Y]),
    ),
    (
        Tree::Pi(
            X,
            &Tree::Const(A),
            &Tree::Lam(Y, &DOMAIN, &Tree::Spine(5, &[2, 0])),
        ),
        Tree::Pi(Y, &Tree::Const(A), &Tree::Lam(X, &DOMAIN, &Tree::Var(2))),
        Wanted::HigherOrder(Tree::Spine(5, &[2, 0]), Tree::Var(2), &[X, Y]),
    ),
    (
        Tree::Pi(X, &Tree::Const(A), &Tree::Lam(Y, &DOMAIN, &Tree::Const(3))),
        Tree::Pi(
            Y,
            &Tree::Const(A),
            &Tree::Lam(X, &DOMAIN, &Tree::Spine(A, &[0])),
        ),
        Wanted::Scope(3, 0, &[X, Y]),
    ),
    (
        Tree::Pi(X, &Tree::Const(A), &Tree::Lam(Y, &DOMAIN, &Tree::Const(3))),
        Tree::Pi(
            Y,
            &Tree::Const(A),
            &Tree::Lam(X, &DOMAIN, &Tree::Spine(A, &[2])),
        ),
        Wanted::Scope(3, 2, &[X, Y]),
    ),
    (
        Tree::Pi(
            X,
            &Tree::Const(A),
            &Tree::Lam(Y, &DOMAIN, &Tree::Spine(4, &[2])),
        ),
        Tree::Pi(
            Y,
            &Tree::Const(A),
            &Tree::Lam(X, &DOMAIN, &Tree::Spine(A, &[1])),
        ),
        Wanted::Scope(4, 1, &[X, Y]),
    ),
    (
        Tree::Pi(
            X,
            &Tree::Const(A),
            &Tree::Lam(Y, &DOMAIN, &Tree::Spine(4, &[2])),
        ),
        Tree::Pi(
            Y,
            &Tree::Const(A),
            &Tree::Lam(X, &DOMAIN, &Tree::Spine(A, &[2])),
        ),
        Wanted::Solution(4, Tree::Spine(A, &[0])),
    ),
];

#[test]
fn pairs_stand_under_the_binders_of_the_left_side(rt: HostRuntime) -> Result<(), Failure> {
    try_all(rt.alloc(), under(1), &UNDER_BINDERS)
}

/// Pairs behind parts that agree, also where sorts differ in these.
const BEHIND: [Case; 3] = [
    (
        Tree::Pair(
            &Tree::Prop,
            &Tree::Univ(1),
            &Tree::Const(3),
            &Tree::Const(B),
        ),
        Tree::Pair(
            &Tree::Univ(2),
            &Tree::Prop,
            &Tree::Const(A),
            &Tree::Const(A),
        ),
        Wanted::Solution(3, Tree::Const(A)),
    ),
    (
        Tree::App(
            &Tree::App(&Tree::Const(A), &Tree::Const(B)),
            &Tree::Const(3),
        ),
        Tree::App(
            &Tree::App(&Tree::Const(A), &Tree::Const(A)),
            &Tree::Const(A),
        ),
        Wanted::Clash(Tree::Const(B), Tree::Const(A), &[]),
    ),
    (
        Tree::App(&Tree::Const(3), &Tree::Prop),
        Tree::App(&Tree::Const(3), &Tree::Univ(2)),
        Wanted::Agreement,
    ),
];

#[test]
fn the_first_parts_that_disagree_are_taken(rt: HostRuntime) -> Result<(), Failure> {
    try_both_ways(rt.alloc(), under(0), &BEHIND)
}

/// The pairs of the worked scripts.
const ROWS: [Case; 5] = [
    (
        Tree::Const(A),
        Tree::Const(3),
        Wanted::Solution(3, Tree::Const(A)),
    ),
    (
        Tree::Pi(PLAIN, &Tree::Const(A), &Tree::Const(B)),
        Tree::Pi(PLAIN, &Tree::Const(3), &Tree::Const(3)),
        Wanted::Solution(3, Tree::Const(A)),
    ),
    (
        Tree::Pi(PLAIN, &Tree::Const(A), &Tree::Const(B)),
        Tree::Pi(PLAIN, &Tree::Const(A), &Tree::Const(A)),
        Wanted::Clash(Tree::Const(B), Tree::Const(A), &[PLAIN]),
    ),
    (
        Tree::Const(A),
        Tree::App(&Tree::Const(3), &Tree::Const(A)),
        Wanted::HigherOrder(
            Tree::Const(A),
            Tree::App(&Tree::Const(3), &Tree::Const(A)),
            &[],
        ),
    ),
    (
        Tree::Univ(0),
        Tree::Const(3),
        Wanted::Solution(3, Tree::Univ(0)),
    ),
];

#[test]
fn the_worked_rows(rt: HostRuntime) -> Result<(), Failure> {
    try_both_ways(rt.alloc(), under(0), &ROWS)
}

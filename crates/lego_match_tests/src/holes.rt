//! Which hole is solved, and the bodies that it may have.

use crate::answers::{Case, Failure, Wanted, exchanged, try_both_ways, try_case, under};
use crate::trees::{A, PLAIN, Tree};

/// Under two locals; the holes 3 and 6 have no hypotheses, 4 has one and 5 two.
const TWO_HOLES: [Case; 8] = [
    (
        Tree::Const(3),
        Tree::Spine(4, &[1]),
        Wanted::Solution(4, Tree::Const(3)),
    ),
    (
        Tree::Const(3),
        Tree::Spine(5, &[1, 0]),
        Wanted::Solution(5, Tree::Const(3)),
    ),
    (
        Tree::Const(3),
        Tree::Const(6),
        Wanted::Solution(6, Tree::Const(3)),
    ),
    (
        Tree::Spine(4, &[1]),
        Tree::Spine(5, &[1, 0]),
        Wanted::Solution(5, Tree::Spine(4, &[1])),
    ),
    (
        Tree::Spine(4, &[1]),
        Tree::Const(6),
        Wanted::Scope(6, 1, &[]),
    ),
    (
        Tree::Spine(5, &[1, 0]),
        Tree::Const(6),
        Wanted::Scope(6, 1, &[]),
    ),
    (
        Tree::Spine(4, &[1]),
        Tree::Spine(4, &[1]),
        Wanted::Agreement,
    ),
    (
        Tree::Spine(5, &[1]),
        Tree::Spine(4, &[1]),
        Wanted::Solution(4, Tree::Spine(5, &[0])),
    ),
];

/// Also where the body of the greater isn't allowed and that of the other would be.
#[test]
fn of_two_holes_the_greater_is_solved(rt: HostRuntime) -> Result<(), Failure> {
    try_both_ways(rt.alloc(), under(2), &TWO_HOLES)
}

/// Terms that mention the hole 3, in each part that a form may have, also under binders.
const MENTIONS: [Tree; 9] = [
    Tree::Pi(PLAIN, &Tree::Const(A), &Tree::Const(3)),
    Tree::Sigma(&Tree::Const(A), &Tree::Const(3)),
    Tree::Lam(PLAIN, &Tree::Const(A), &Tree::Fst(&Tree::Const(3))),
    Tree::App(&Tree::Const(A), &Tree::Const(3)),
    Tree::Pair(
        &Tree::Const(A),
        &Tree::Const(3),
        &Tree::Const(A),
        &Tree::Const(A),
    ),
    Tree::Pair(
        &Tree::Const(A),
        &Tree::Const(A),
        &Tree::Const(A),
        &Tree::Const(3),
    ),
    Tree::Fst(&Tree::App(&Tree::Const(A), &Tree::Const(3))),
    Tree::Snd(&Tree::App(&Tree::Const(A), &Tree::Const(3))),
    Tree::Pi(
        PLAIN,
        &Tree::Const(A),
        &Tree::Pi(PLAIN, &Tree::Const(3), &Tree::Var(1)),
    ),
];

#[test]
fn a_hole_does_not_occur_in_its_body(rt: HostRuntime) -> Result<(), Failure> {
    for (number, term) in MENTIONS.iter().enumerate() {
        let case = (Tree::Const(3), *term, Wanted::Occurs(3));
        try_case(rt.alloc(), under(0), (number, 0), &case)?;
        try_case(rt.alloc(), under(0), (number, 1), &exchanged(&case))?;
    }
    Ok(())
}

/// Under three locals.
const BODIES: [Case; 5] = [
    (
        Tree::Spine(4, &[2]),
        Tree::Spine(A, &[2]),
        Wanted::Solution(4, Tree::Spine(A, &[0])),
    ),
    (
        Tree::Spine(4, &[2]),
        Tree::Lam(PLAIN, &Tree::Spine(A, &[2]), &Tree::Spine(A, &[0, 3])),
        Wanted::Solution(
            4,
            Tree::Lam(PLAIN, &Tree::Spine(A, &[0]), &Tree::Spine(A, &[0, 1])),
        ),
    ),
    (
        Tree::Spine(4, &[2]),
        Tree::Spine(A, &[2, 1, 0]),
        Wanted::Scope(4, 1, &[]),
    ),
    (
        Tree::Spine(4, &[2]),
        Tree::Pi(PLAIN, &Tree::Spine(A, &[2]), &Tree::Spine(A, &[0, 1, 2])),
        Wanted::Scope(4, 0, &[]),
    ),
    (
        Tree::Const(3),
        Tree::Spine(A, &[2]),
        Wanted::Scope(3, 2, &[]),
    ),
];

#[test]
fn a_body_stands_under_the_hypotheses_alone(rt: HostRuntime) -> Result<(), Failure> {
    try_both_ways(rt.alloc(), under(3), &BODIES)
}

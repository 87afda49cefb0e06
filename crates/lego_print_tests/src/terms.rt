//! The text of each form of a term, in each rank.
use crate::desk::{
    ENTRIES, IMPLICIT_Z, NAMELESS, Z, apply, arrow, entry, f_a, f_z, fixed, names, sum, text_of,
};
use lego_print::{Shown, typing_text};
use lego_term::{
    Binder, List, Mark, Seen, Term, app, fst, lam, local, pair, pi, prop, sigma, snd, univ, var,
};
use std::alloc::Global;
use std::test::Fail;

#[test]
fn sorts_are_printed(rt: HostRuntime) -> Result<(), Fail> {
    let alloc = rt.alloc();
    let made = text_of(alloc, prop(alloc)?)?;
    assert!(rt; made.as_slice() == b"Prop".as_slice(), "{made:?}");
    let made = text_of(alloc, univ(alloc, fixed(3))?)?;
    assert!(rt; made.as_slice() == b"Type(3)".as_slice(), "{made:?}");
    Ok(())
}

#[test]
fn arrows_go_to_the_right(rt: HostRuntime) -> Result<(), Fail> {
    let alloc = rt.alloc();
    let (a, b, arrow) = (entry(alloc, 0)?, entry(alloc, 1)?, arrow(alloc)?);
    let made = text_of(alloc, pi(alloc, NAMELESS, &arrow, &b)?)?;
    assert!(rt; made.as_slice() == b"(A->B)->B".as_slice(), "{made:?}");
    let made = text_of(alloc, pi(alloc, NAMELESS, &a, &arrow)?)?;
    assert!(rt; made.as_slice() == b"A->A->B".as_slice(), "{made:?}");
    Ok(())
}

#[test]
fn products_bind_what_is_used_or_implicit(rt: HostRuntime) -> Result<(), Fail> {
    let alloc = rt.alloc();
    let (a, b) = (entry(alloc, 0)?, entry(alloc, 1)?);
    let implicit = pi(alloc, IMPLICIT_Z, &a, &b)?;
    let made = text_of(alloc, pi(alloc, NAMELESS, &implicit, &b)?)?;
    assert!(rt; made.as_slice() == b"({z|A}B)->B".as_slice(), "{made:?}");
    let made = text_of(alloc, pi(alloc, Z, &a, &f_z(alloc)?)?)?;
    assert!(rt; made.as_slice() == b"{z:A}f z".as_slice(), "{made:?}");
    Ok(())
}

#[test]
fn functions_are_printed(rt: HostRuntime) -> Result<(), Fail> {
    let alloc = rt.alloc();
    let (a, v) = (entry(alloc, 0)?, var(alloc, 0)?);
    let made = text_of(alloc, lam(alloc, IMPLICIT_Z, &a, &v)?)?;
    assert!(rt; made.as_slice() == b"[z|A]z".as_slice(), "{made:?}");
    let applied = apply(alloc, &entry(alloc, 3)?, &lam(alloc, Z, &a, &v)?)?;
    let made = text_of(alloc, applied)?;
    assert!(rt; made.as_slice() == b"f ([z:A]z)".as_slice(), "{made:?}");
    Ok(())
}

#[test]
fn sums_go_to_the_right(rt: HostRuntime) -> Result<(), Fail> {
    let alloc = rt.alloc();
    let (a, b, sum) = (entry(alloc, 0)?, entry(alloc, 1)?, sum(alloc)?);
    let made = text_of(alloc, sigma(alloc, NAMELESS, &sum, &b)?)?;
    assert!(rt; made.as_slice() == b"(A#B)#B".as_slice(), "{made:?}");
    let made = text_of(alloc, sigma(alloc, NAMELESS, &a, &sum)?)?;
    assert!(rt; made.as_slice() == b"A#A#B".as_slice(), "{made:?}");
    Ok(())
}

#[test]
fn sums_stand_before_arrows(rt: HostRuntime) -> Result<(), Fail> {
    let alloc = rt.alloc();
    let b = entry(alloc, 1)?;
    let made = text_of(alloc, pi(alloc, NAMELESS, &sum(alloc)?, &b)?)?;
    assert!(rt; made.as_slice() == b"A#B->B".as_slice(), "{made:?}");
    let made = text_of(alloc, sigma(alloc, NAMELESS, &arrow(alloc)?, &b)?)?;
    assert!(rt; made.as_slice() == b"(A->B)#B".as_slice(), "{made:?}");
    Ok(())
}

#[test]
fn sigma_types_bind_what_is_used(rt: HostRuntime) -> Result<(), Fail> {
    let alloc = rt.alloc();
    let a = entry(alloc, 0)?;
    let bound = sigma(alloc, Z, &a, &f_z(alloc)?)?;
    let made = text_of(alloc, sigma(alloc, NAMELESS, &a, &bound)?)?;
    assert!(rt; made.as_slice() == b"A#(<z:A>f z)".as_slice(), "{made:?}");
    Ok(())
}

#[test]
fn applications_go_to_the_left(rt: HostRuntime) -> Result<(), Fail> {
    let alloc = rt.alloc();
    let (f, b, applied) = (entry(alloc, 3)?, entry(alloc, 1)?, f_a(alloc)?);
    let made = text_of(alloc, apply(alloc, &applied, &b)?)?;
    assert!(rt; made.as_slice() == b"f A B".as_slice(), "{made:?}");
    let made = text_of(alloc, apply(alloc, &f, &applied)?)?;
    assert!(rt; made.as_slice() == b"f (f A)".as_slice(), "{made:?}");
    let made = text_of(alloc, app(alloc, Mark::Implicit, &f, &b)?)?;
    assert!(rt; made.as_slice() == b"f|B".as_slice(), "{made:?}");
    Ok(())
}

#[test]
fn pairs_have_their_types(rt: HostRuntime) -> Result<(), Fail> {
    let alloc = rt.alloc();
    let (a, b) = (entry(alloc, 0)?, entry(alloc, 1)?);
    let made = text_of(alloc, pair(alloc, NAMELESS, &a, &b, &a, &b)?)?;
    assert!(rt; made.as_slice() == b"(A,B:A#B)".as_slice(), "{made:?}");
    let made = text_of(alloc, pair(alloc, Z, &a, &f_z(alloc)?, &a, &b)?)?;
    assert!(rt; made.as_slice() == b"(A,B:<z:A>f z)".as_slice(), "{made:?}");
    Ok(())
}

#[test]
fn projections_are_printed(rt: HostRuntime) -> Result<(), Fail> {
    let alloc = rt.alloc();
    let made = text_of(alloc, fst(alloc, &snd(alloc, &entry(alloc, 3)?)?)?)?;
    assert!(rt; made.as_slice() == b"f.2.1".as_slice(), "{made:?}");
    let made = text_of(alloc, snd(alloc, &f_a(alloc)?)?)?;
    assert!(rt; made.as_slice() == b"(f A).2".as_slice(), "{made:?}");
    Ok(())
}

#[test]
fn local_definitions_are_printed(rt: HostRuntime) -> Result<(), Fail> {
    let alloc = rt.alloc();
    let defined = local(alloc, Z, &entry(alloc, 0)?, &f_z(alloc)?)?;
    let made = text_of(alloc, apply(alloc, &entry(alloc, 3)?, &defined)?)?;
    assert!(rt; made.as_slice() == b"f ([z=A]f z)".as_slice(), "{made:?}");
    Ok(())
}

/// A term and its type under the same binders.
fn typing(alloc: Global, under: &[Binder], term: Term, ty: Term) -> Result<Vec<u8>, Fail> {
    let names = names(alloc)?;
    let term = Seen {
        under: List::of(Vec::from_slice(alloc, under)?),
        term,
    };
    let ty = Seen {
        under: List::of(Vec::from_slice(alloc, under)?),
        term: ty,
    };
    Ok(typing_text(alloc, &names, &ENTRIES, &term, &ty, Shown::Hidden)?)
}

#[test]
fn typings_are_printed(rt: HostRuntime) -> Result<(), Fail> {
    let alloc = rt.alloc();
    let made = typing(alloc, &[], entry(alloc, 2)?, entry(alloc, 0)?)?;
    assert!(rt; made.as_slice() == b"a : A".as_slice(), "{made:?}");
    let made = typing(alloc, &[Z, Z], f_z(alloc)?, var(alloc, 1)?)?;
    assert!(rt; made.as_slice() == b"f z1 : z".as_slice(), "{made:?}");
    Ok(())
}

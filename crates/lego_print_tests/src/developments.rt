//! The lines and commands of entries, and the text of a development.
use crate::desk::{ENTRIES, NAMELESS, names};
use crate::few::{Few, Later};
use lego_base::Place;
use lego_print::{
    Item, Shown, Universe, development_text, entry_command, entry_lines, entry_text,
    items_are_small,
};
use lego_term::{Binder, Level, Mark, Term, konst, lam, pi, prop, univ, var};
use std::alloc::Global;
use std::test::Fail;

/// Entries of which none is called `A` or `a`.
const OTHERS: Few = Few {
    names: [9, 9, 9, 9, 9, 9, 9, 9],
};

/// Entries of which none is in scope.
const LATER: Later = Later {
    names: [0, 1, 2, 3, 4, 5, 6, 7],
};

/// The implicit binder `A`, and the plain binder `a`.
const BIG: Binder = Binder {
    name: Some(0),
    mark: Mark::Implicit,
};

const SMALL: Binder = Binder {
    name: Some(2),
    mark: Mark::Plain,
};

/// `Type` at the level variable of a number.
fn sort(alloc: Global, variable: u32) -> Result<Term, Fail> {
    let level = Level {
        base: Some(variable),
        plus: 0,
    };
    Ok(univ(alloc, level)?)
}

/// `[A|Type][a:A]a`.
fn identity(alloc: Global) -> Result<Term, Fail> {
    let v = var(alloc, 0)?;
    Ok(lam(alloc, BIG, &sort(alloc, 0)?, &lam(alloc, SMALL, &v, &v)?)?)
}

/// `{A|Type}A->A`.
fn identity_type(alloc: Global) -> Result<Term, Fail> {
    let arrow = pi(alloc, NAMELESS, &var(alloc, 0)?, &var(alloc, 1)?)?;
    Ok(pi(alloc, BIG, &sort(alloc, 0)?, &arrow)?)
}

fn assumption(number: u32, name: u32, mark: Mark, ty: &Term) -> Item<'_> {
    Item {
        number,
        name,
        mark,
        ty,
        body: None,
    }
}

fn definition<'a>(name: u32, ty: &'a Term, body: &'a Term) -> Item<'a> {
    Item {
        number: 0,
        name,
        mark: Mark::Plain,
        ty,
        body: Some(body),
    }
}

#[test]
fn definitions_are_printed(rt: HostRuntime) -> Result<(), Fail> {
    let alloc = rt.alloc();
    let names = names(alloc)?;
    let (body, ty) = (identity(alloc)?, identity_type(alloc)?);
    let item = definition(6, &ty, &body);
    let made = entry_text(alloc, &names, &OTHERS, item, Shown::Least(&[2]))?;
    assert!(rt;
        made.as_slice() == b"c1 = [A|Type(2)][a:A]a : {A|Type(2)}A->A".as_slice(),
        "{made:?}"
    );
    let made = entry_command(alloc, &names, &OTHERS, item, Shown::Least(&[2]))?;
    assert!(rt;
        made.as_slice() == b"[c1=[A|Type(2)][a:A]a:{A|Type(2)}A->A];\n".as_slice(),
        "{made:?}"
    );
    Ok(())
}

#[test]
fn assumptions_are_printed(rt: HostRuntime) -> Result<(), Fail> {
    let alloc = rt.alloc();
    let names = names(alloc)?;
    let sort = sort(alloc, 0)?;
    let plain = assumption(0, 5, Mark::Plain, &sort);
    let made = entry_text(alloc, &names, &OTHERS, plain, Shown::Least(&[2]))?;
    assert!(rt; made.as_slice() == b"y : Type(2)".as_slice(), "{made:?}");
    let implicit = assumption(0, 5, Mark::Implicit, &sort);
    let made = entry_command(alloc, &names, &OTHERS, implicit, Shown::Least(&[2]))?;
    assert!(rt; made.as_slice() == b"[y|Type(2)];\n".as_slice(), "{made:?}");
    Ok(())
}

#[test]
fn developments_list_used_universes_by_place(rt: HostRuntime) -> Result<(), Fail> {
    let alloc = rt.alloc();
    let names = names(alloc)?;
    let (first, second) = (sort(alloc, 2)?, sort(alloc, 0)?);
    let items = [
        assumption(0, 0, Mark::Plain, &first),
        assumption(1, 1, Mark::Plain, &second),
    ];
    let universes = [
        universe(0, 2, 4),
        universe(1, 1, 9),
        universe(2, 1, 4),
        universe(2, 1, 5),
    ];
    let made = development_text(alloc, &names, &OTHERS, &items, &universes, &[5, 6, 7])?;
    let wanted =
        b"Explicit;\n[A:Type(7)];\n[B:Type(5)];\n(* universe 1:4 at 7 *)\n(* universe 2:4 at 5 *)\n".as_slice();
    assert!(rt; made.as_slice() == wanted, "{made:?}, wanted {wanted:?}");
    Ok(())
}

fn universe(variable: u32, line: u32, column: u32) -> Universe {
    Universe {
        variable,
        place: Place { line, column },
    }
}

#[test]
fn entries_have_lines(rt: HostRuntime) -> Result<(), Fail> {
    let alloc = rt.alloc();
    let names = names(alloc)?;
    let (sort, entry) = (prop(alloc)?, konst(alloc, 0)?);
    let items = [
        assumption(0, 0, Mark::Plain, &sort),
        assumption(2, 2, Mark::Implicit, &entry),
    ];
    let made = entry_lines(alloc, &names, &LATER, &items, Shown::Hidden)?;
    assert!(rt;
        made.as_slice() == b"A : Prop\na | A\n".as_slice(),
        "{made:?}"
    );
    let made = entry_lines(alloc, &names, &LATER, &[], Shown::Hidden)?;
    assert!(rt; made.as_slice() == b"".as_slice(), "{made:?}");
    Ok(())
}

#[test]
fn lines_know_the_entries_before_them(rt: HostRuntime) -> Result<(), Fail> {
    let alloc = rt.alloc();
    let names = names(alloc)?;
    let (body, ty, sort) = (identity(alloc)?, identity_type(alloc)?, prop(alloc)?);
    let items = [
        definition(6, &ty, &body),
        assumption(1, 0, Mark::Plain, &sort),
        definition(7, &ty, &body),
    ];
    let made = entry_lines(alloc, &names, &LATER, &items, Shown::Least(&[2]))?;
    let wanted =
        b"c1 = [A|Type(2)][a:A]a : {A|Type(2)}A->A\nA : Prop\nc2 = [A1|Type(2)][a:A1]a : {A1|Type(2)}A1->A1\n".as_slice();
    assert!(rt; made.as_slice() == wanted, "{made:?}, wanted {wanted:?}");
    Ok(())
}

#[test]
fn lines_know_the_entries_in_scope(rt: HostRuntime) -> Result<(), Fail> {
    let alloc = rt.alloc();
    let names = names(alloc)?;
    let (body, ty) = (identity(alloc)?, identity_type(alloc)?);
    let items = [definition(8, &ty, &body)];
    items_are_small(&items, &[]);
    let made = entry_lines(alloc, &names, &ENTRIES, &items, Shown::Least(&[2]))?;
    let wanted = b"z = [A1|Type(2)][a1:A1]a1 : {A1|Type(2)}A1->A1\n".as_slice();
    assert!(rt; made.as_slice() == wanted, "{made:?}, wanted {wanted:?}");
    Ok(())
}

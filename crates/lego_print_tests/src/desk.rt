//! What the tests print with: names, a few entries, and terms over them.
use crate::few::Few;
use lego_base::Names;
use lego_print::{Shown, term_text};
use lego_term::{Binder, Level, List, Mark, Seen, Term, app, konst, pi, sigma, var};
use std::alloc::Global;
use std::test::Fail;

/// Names by number: the entries are `A`, `B`, `a`, `f`, `x`, `y`, `c1` and `c2`; the others
/// are names of binders.
const TEXTS: [&[u8]; 10] = [b"A", b"B", b"a", b"f", b"x", b"y", b"c1", b"c2", b"z", b"T"];

/// The entries, each with the name of its number.
pub const ENTRIES: Few = Few {
    names: [0, 1, 2, 3, 4, 5, 6, 7],
};

/// A plain binder without a name.
pub const NAMELESS: Binder = Binder {
    name: None,
    mark: Mark::Plain,
};

/// The plain and the implicit binder `z`.
pub const Z: Binder = Binder {
    name: Some(8),
    mark: Mark::Plain,
};

pub const IMPLICIT_Z: Binder = Binder {
    name: Some(8),
    mark: Mark::Implicit,
};

/// A level that is a number.
pub const fn fixed(plus: u32) -> Level {
    Level { base: None, plus }
}

/// The names that the tests use.
pub fn names(alloc: Global) -> Result<Names, Fail> {
    let mut names = Names::new(alloc);
    for text in TEXTS {
        if text.is_empty() || text.len() > 255 {
            return Err(Fail::new("no name"));
        }
        if names.intern(text).is_err() {
            return Err(Fail::new("no number"));
        }
    }
    Ok(names)
}

/// The text of a term under these binders.
pub fn text_under(
    alloc: Global,
    under: Vec<Binder>,
    term: Term,
    levels: Shown<'_>,
) -> Result<Vec<u8>, Fail> {
    let names = names(alloc)?;
    let seen = Seen {
        under: List::of(under),
        term,
    };
    Ok(term_text(alloc, &names, &ENTRIES, &seen, levels)?)
}

/// The text of a term under no binder, without values of level variables.
pub fn text_of(alloc: Global, term: Term) -> Result<Vec<u8>, Fail> {
    text_under(alloc, Vec::new(alloc), term, Shown::Least(&[]))
}

/// A plain application.
pub fn apply(alloc: Global, m: &Term, n: &Term) -> Result<Term, Fail> {
    Ok(app(alloc, Mark::Plain, m, n)?)
}

/// The entry of a number.
pub fn entry(alloc: Global, number: u32) -> Result<Term, Fail> {
    Ok(konst(alloc, number)?)
}

/// `f z`, where `z` is the innermost variable.
pub fn f_z(alloc: Global) -> Result<Term, Fail> {
    apply(alloc, &konst(alloc, 3)?, &var(alloc, 0)?)
}

/// `f A`.
pub fn f_a(alloc: Global) -> Result<Term, Fail> {
    apply(alloc, &konst(alloc, 3)?, &konst(alloc, 0)?)
}

/// `A->B`.
pub fn arrow(alloc: Global) -> Result<Term, Fail> {
    Ok(pi(alloc, NAMELESS, &konst(alloc, 0)?, &konst(alloc, 1)?)?)
}

/// `A#B`.
pub fn sum(alloc: Global) -> Result<Term, Fail> {
    Ok(sigma(alloc, NAMELESS, &konst(alloc, 0)?, &konst(alloc, 1)?)?)
}

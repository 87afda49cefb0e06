//! The names of binders, and the levels.
use crate::desk::{NAMELESS, Z, apply, fixed, text_of, text_under};
use lego_print::Shown;
use lego_term::{Binder, Level, Mark, lam, pi, prop, univ, var};
use std::test::Fail;

/// A plain binder of a name.
fn named(name: u32) -> Binder {
    Binder {
        name: Some(name),
        mark: Mark::Plain,
    }
}

#[test]
fn binders_avoid_entries(rt: HostRuntime) -> Result<(), Fail> {
    let alloc = rt.alloc();
    let (p, v) = (prop(alloc)?, var(alloc, 0)?);
    let made = text_of(alloc, lam(alloc, named(4), &p, &v)?)?;
    assert!(rt; made.as_slice() == b"[x1:Prop]x1".as_slice(), "{made:?}");
    let made = text_of(alloc, lam(alloc, NAMELESS, &p, &v)?)?;
    assert!(rt; made.as_slice() == b"[x1:Prop]x1".as_slice(), "{made:?}");
    let made = text_of(alloc, lam(alloc, named(6), &p, &v)?)?;
    assert!(rt; made.as_slice() == b"[c11:Prop]c11".as_slice(), "{made:?}");
    Ok(())
}

#[test]
fn binders_avoid_binders_around(rt: HostRuntime) -> Result<(), Fail> {
    let alloc = rt.alloc();
    let (p, v) = (prop(alloc)?, var(alloc, 0)?);
    let both = apply(alloc, &var(alloc, 1)?, &v)?;
    let made = text_of(alloc, lam(alloc, Z, &p, &lam(alloc, Z, &v, &both)?)?)?;
    assert!(rt;
        made.as_slice() == b"[z:Prop][z1:z]z z1".as_slice(),
        "{made:?}"
    );
    Ok(())
}

#[test]
fn a_name_is_free_behind_its_binder(rt: HostRuntime) -> Result<(), Fail> {
    let alloc = rt.alloc();
    let (p, v) = (prop(alloc)?, var(alloc, 0)?);
    let domain = pi(alloc, Z, &p, &v)?;
    let made = text_of(alloc, lam(alloc, Z, &domain, &v)?)?;
    assert!(rt; made.as_slice() == b"[z:{z:Prop}z]z".as_slice(), "{made:?}");
    Ok(())
}

#[test]
fn arrows_reserve_no_name(rt: HostRuntime) -> Result<(), Fail> {
    let alloc = rt.alloc();
    let p = prop(alloc)?;
    let inner = lam(alloc, Z, &p, &var(alloc, 0)?)?;
    let made = text_of(alloc, pi(alloc, Z, &p, &inner)?)?;
    assert!(rt;
        made.as_slice() == b"Prop->[z:Prop]z".as_slice(),
        "{made:?}"
    );
    Ok(())
}

#[test]
fn binders_around_have_names(rt: HostRuntime) -> Result<(), Fail> {
    let alloc = rt.alloc();
    let under = vec![in alloc; Z, NAMELESS]?;
    let both = apply(alloc, &var(alloc, 1)?, &var(alloc, 0)?)?;
    let made = text_under(alloc, under, both, Shown::Hidden)?;
    assert!(rt; made.as_slice() == b"z x1".as_slice(), "{made:?}");
    Ok(())
}

#[test]
fn levels_are_values_or_hidden(rt: HostRuntime) -> Result<(), Fail> {
    let alloc = rt.alloc();
    let raised = Level {
        base: Some(1),
        plus: 2,
    };
    let values: [u64; 2] = [7, 1_000_000];
    let term = univ(alloc, raised)?;
    let made = text_under(alloc, Vec::new(alloc), term, Shown::Least(&values))?;
    assert!(rt; made.as_slice() == b"Type(1000002)".as_slice(), "{made:?}");
    let made = text_under(
        alloc,
        Vec::new(alloc),
        univ(alloc, fixed(2))?,
        Shown::Hidden,
    )?;
    assert!(rt; made.as_slice() == b"Type".as_slice(), "{made:?}");
    Ok(())
}

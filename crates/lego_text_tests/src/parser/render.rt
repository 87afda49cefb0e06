//! Trees as texts, each form in parentheses of its own.
use lego_base::Names;
use lego_grammar::{Act, Binding, BindingKind, Kind, Part, Surface};
use lego_term::Mark;
use std::alloc::AllocError;

/// Adds the text of a name.
fn push_name(text: &mut Vec<u8>, names: &Names, name: u32) -> Result<(), AllocError> {
    if name < names.len() {
        text.extend_from_slice(names.text(name))
    } else {
        text.extend_from_slice(b"@")
    }
}

/// Adds names, with commas between.
fn push_names(text: &mut Vec<u8>, names: &Names, held: &[u32]) -> Result<(), AllocError> {
    let mut is_first = true;
    for name in held {
        if !is_first {
            text.push(b',')?;
        }
        is_first = false;
        push_name(text, names, *name)?;
    }
    Ok(())
}

/// Adds a number below 10.
pub fn push_digit(text: &mut Vec<u8>, number: u32) -> Result<(), AllocError> {
    let digit = b"0123456789".get(number as usize);
    text.push(digit.copied().unwrap_or(b'+'))?;
    Ok(())
}

fn push_mark(text: &mut Vec<u8>, mark: Mark) -> Result<(), AllocError> {
    text.extend_from_slice(match mark {
        Mark::Plain => b":",
        Mark::Implicit => b"|",
    })
}

fn push_kind(text: &mut Vec<u8>, kind: Kind) -> Result<(), AllocError> {
    text.extend_from_slice(match kind {
        Kind::Lambda => b"L",
        Kind::Pi => b"P",
        Kind::Sigma => b"S",
    })
}

fn push_parts(text: &mut Vec<u8>, parts: &[Part]) -> Result<(), AllocError> {
    for part in parts {
        text.extend_from_slice(match part {
            Part::First => b"1",
            Part::Second => b"2",
        })?;
    }
    Ok(())
}

/// Adds a term: `(Px:A B)` for a binder of kind `P`, without a name for an arrow; `(=x M B)` for
/// a local definition, `(f a |b)` for an application, `(,M N T)` for a pair, `(.12 M)` for
/// projections.
pub fn push_term(text: &mut Vec<u8>, names: &Names, term: &Surface) -> Result<(), AllocError> {
    match term {
        Surface::Name { place: _, name } => push_name(text, names, *name),
        Surface::Prop => text.extend_from_slice(b"Prop"),
        Surface::AnyType { place: _ } => text.extend_from_slice(b"Type"),
        Surface::TypeAt { level } => {
            text.extend_from_slice(b"Type")?;
            push_digit(text, *level)
        }
        Surface::Hole { place: _, number } => {
            text.push(b'?')?;
            push_digit(text, *number)
        }
        Surface::Bind {
            kind,
            mark,
            names: bound,
            domain,
            body,
        } => {
            text.push(b'(')?;
            push_kind(text, *kind)?;
            push_names(text, names, bound.items())?;
            push_mark(text, *mark)?;
            push_term(text, names, domain.get())?;
            text.push(b' ')?;
            push_term(text, names, body.get())?;
            text.extend_from_slice(b")")
        }
        Surface::Local { name, value, body } => {
            text.extend_from_slice(b"(=")?;
            push_name(text, names, *name)?;
            text.push(b' ')?;
            push_term(text, names, value.get())?;
            text.push(b' ')?;
            push_term(text, names, body.get())?;
            text.extend_from_slice(b")")
        }
        Surface::Apply {
            function,
            arguments,
        } => {
            text.push(b'(')?;
            push_term(text, names, function.get())?;
            for (mark, argument) in arguments.items() {
                text.push(b' ')?;
                if *mark == Mark::Implicit {
                    text.push(b'|')?;
                }
                push_term(text, names, argument)?;
            }
            text.extend_from_slice(b")")
        }
        Surface::Pair { first, second, ty } => {
            text.extend_from_slice(b"(,")?;
            push_term(text, names, first.get())?;
            text.push(b' ')?;
            push_term(text, names, second.get())?;
            text.push(b' ')?;
            push_term(text, names, ty.get())?;
            text.extend_from_slice(b")")
        }
        Surface::Project { of, parts } => {
            text.extend_from_slice(b"(.")?;
            push_parts(text, parts.items())?;
            text.push(b' ')?;
            push_term(text, names, of.get())?;
            text.extend_from_slice(b")")
        }
    }
}

/// Adds a binding of a context command.
fn push_binding(text: &mut Vec<u8>, names: &Names, binding: &Binding) -> Result<(), AllocError> {
    text.extend_from_slice(b"[")?;
    push_names(text, names, binding.names.items())?;
    match &binding.kind {
        BindingKind::Assume { mark, ty } => {
            push_mark(text, *mark)?;
            push_term(text, names, ty)?;
        }
        BindingKind::Define { body, ty } => {
            text.extend_from_slice(b"=")?;
            push_term(text, names, body)?;
            if let Some(ty) = ty {
                text.extend_from_slice(b":")?;
                push_term(text, names, ty)?;
            }
        }
    }
    text.extend_from_slice(b"]")
}

/// Adds a word and a term.
fn push_with(
    text: &mut Vec<u8>,
    names: &Names,
    word: &[u8],
    term: &Surface,
) -> Result<(), AllocError> {
    text.extend_from_slice(word)?;
    text.extend_from_slice(b" ")?;
    push_term(text, names, term)
}

/// Adds a word, and a name where there is one.
fn push_named(
    text: &mut Vec<u8>,
    names: &Names,
    word: &[u8],
    name: Option<u32>,
) -> Result<(), AllocError> {
    text.extend_from_slice(word)?;
    match name {
        Some(name) => {
            text.extend_from_slice(b" ")?;
            push_name(text, names, name)
        }
        None => Ok(()),
    }
}

/// Adds a word and a number.
fn push_numbered(text: &mut Vec<u8>, word: &[u8], number: u32) -> Result<(), AllocError> {
    text.extend_from_slice(word)?;
    text.extend_from_slice(b" ")?;
    push_digit(text, number)
}

/// Adds the bindings of a context command, one behind the other.
fn push_bindings(
    text: &mut Vec<u8>,
    names: &Names,
    bindings: &[Binding],
) -> Result<(), AllocError> {
    for binding in bindings {
        push_binding(text, names, binding)?;
    }
    Ok(())
}

/// Adds what a command asks for.
pub fn push_act(text: &mut Vec<u8>, names: &Names, act: &Act) -> Result<(), AllocError> {
    match act {
        Act::Bind { bindings } => push_bindings(text, names, bindings.items()),
        Act::Goal { name, ty } => {
            push_named(text, names, b"Goal", *name)?;
            push_with(text, names, b"", ty)
        }
        Act::Intros {
            places: _,
            names: bound,
        } => {
            text.extend_from_slice(b"Intros ")?;
            push_names(text, names, bound.items())
        }
        Act::Refine { term } => push_with(text, names, b"Refine", term),
        Act::Claim { ty } => push_with(text, names, b"Claim", ty),
        Act::Equiv { ty } => push_with(text, names, b"Equiv", ty),
        Act::Hnf { term } => push_with(text, names, b"Hnf", term),
        Act::Normal { term } => push_with(text, names, b"Normal", term),
        Act::Show { term } => push_term(text, names, term),
        Act::Next { number } => push_numbered(text, b"Next", *number),
        Act::Undo { count } => push_numbered(text, b"Undo", *count),
        Act::Save { name } => push_named(text, names, b"Save", *name),
        Act::Forget { place: _, name } => push_named(text, names, b"Forget", Some(*name)),
        Act::Discharge { place: _, name } => push_named(text, names, b"Discharge", Some(*name)),
        Act::Assumption => text.extend_from_slice(b"Assumption"),
        Act::KillRef => text.extend_from_slice(b"KillRef"),
        Act::Prf => text.extend_from_slice(b"Prf"),
        Act::Ctxt => text.extend_from_slice(b"Ctxt"),
        Act::Explicit => text.extend_from_slice(b"Explicit"),
        Act::Implicit => text.extend_from_slice(b"Implicit"),
    }
}

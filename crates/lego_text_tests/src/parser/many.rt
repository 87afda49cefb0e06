//! Binders of many names.
ghost use Rattle.std.specs.Prelude.{◌<◌, length};

use super::parsed;
use super::render::push_digit;
use lego_base::Names;
use lego_grammar::{Act, Command};
use std::alloc::{AllocError, Global};
use std::test::*;

/// A context command that assumes 8,000 names of one type.
fn assumptions(alloc: Global) -> Result<Vec<u8>, AllocError> {
    let mut text = Vec::new(alloc);
    text.extend_from_slice(b"[")?;
    for number in 0..8000u32 {
        text.extend_from_slice(b"x")?;
        push_digit(&mut text, number / 1000)?;
        push_digit(&mut text, number / 100 % 10)?;
        push_digit(&mut text, number / 10 % 10)?;
        push_digit(&mut text, number % 10)?;
        text.extend_from_slice(b",")?;
    }
    text.extend_from_slice(b"x:Prop];")?;
    Ok(text)
}

/// How many names the first binding of a command has.
fn first_names(command: &Command) -> usize {
    match &command.act {
        Act::Bind { bindings } => match bindings.items().first() {
            Some(binding) => binding.names.items().len(),
            None => 0,
        },
        _ => 0,
    }
}

/// How many names the text's first binding has, where it is a command.
fn bound_names(alloc: Global, names: &mut Names, text: &[u8]) -> usize
    requires { length text.now < 16777216 }
{
    match parsed(alloc, text, names) {
        Ok(command) => {
            let count = first_names(&command);
            // By a call, since a drop in place goes through all that a command may hold.
            drop(command);
            count
        }
        Err(_fault) => 0,
    }
}

#[test]
fn a_binder_has_thousands_of_names(rt: HostRuntime) -> Result<(), Fail> {
    let text = assumptions(rt.alloc())?;
    let mut names = Names::new(rt.alloc());
    if text.len() < 65_537 {
        let count = bound_names(rt.alloc(), &mut names, &text);
        assert_eq!(rt; count, 8001);
    }
    assert_eq!(rt; names.len(), 8001);
    Ok(())
}

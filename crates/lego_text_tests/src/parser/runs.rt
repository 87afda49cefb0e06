//! Runs of more bindings than a term may nest.
ghost use Rattle.std.specs.Prelude.{◌<◌, length};

use super::parsed;
use super::refusals::{nested, nested_fault, too_deep, unexpected};
use lego_base::Names;
use lego_grammar::{Act, Command};
use lego_parser::ParseFault;
use std::alloc::Global;
use std::test::*;

/// How many bindings a command has.
fn count_bindings(command: &Command) -> usize {
    match &command.act {
        Act::Bind { bindings } => bindings.items().len(),
        _ => 0,
    }
}

/// How many bindings a text has, where it is a context command.
fn bindings(alloc: Global, text: &[u8]) -> usize
    requires { length text.now < 16777216 }
{
    let mut names = Names::new(alloc);
    match parsed(alloc, text, &mut names) {
        Ok(command) => {
            let count = count_bindings(&command);
            // By a call, since a drop in place goes through all that a command may hold.
            drop(command);
            count
        }
        Err(_fault) => 0,
    }
}

#[test]
fn a_run_before_its_end_is_a_context(rt: HostRuntime) -> Result<(), Fail> {
    let text = nested(rt.alloc(), b"[x:A]", 501, b"", b"")?;
    let count = if text.len() < 65_537 {
        bindings(rt.alloc(), &text)
    } else {
        0
    };
    assert_eq!(rt; count, 501);
    Ok(())
}

#[test]
fn a_run_is_nested_as_what_goes_on(rt: HostRuntime) -> Result<(), Fail> {
    // Behind 501 bindings, which end at column 2505: as a term's, whose last name is nested 501 levels deep, where a
    // term stands there or both a term and a context might go on; else as a context's, where nothing is that deep.
    let cases: [(&[u8], Option<ParseFault>); 4] = [
        (b"x", too_deep(2502)),
        (b",", too_deep(2502)),
        (b"[y:]", unexpected(2509)),
        (b"[y=M:A]x", unexpected(2513)),
    ];
    for (end, want) in &cases {
        let got = nested_fault(rt.alloc(), b"[x:A]", 501, end, b"")?;
        assert_eq!(rt; got, *want, "501 bindings and {end:?}");
    }
    Ok(())
}

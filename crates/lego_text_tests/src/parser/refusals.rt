//! Where commands are refused, and why.
ghost use Rattle.std.specs.Prelude.{◌≡◌, ◌<◌, ◌≤◌, length};

use super::parsed;
use lego_base::{Names, Place};
use lego_parser::ParseFault;
use std::alloc::{AllocError, Global};
use std::test::*;

/// Why a text is no command; none where it is one.
fn fault(alloc: Global, text: &[u8]) -> Option<ParseFault>
    requires { length text.now < 16777216 }
{
    let mut names = Names::new(alloc);
    match parsed(alloc, text, &mut names) {
        Ok(command) => {
            // By a call, since a drop in place goes through all that a command may hold.
            drop(command);
            None
        }
        Err(fault) => Some(fault),
    }
}

/// Why a short text is no command.
fn short_fault(alloc: Global, text: &[u8]) -> Option<ParseFault> {
    if text.len() > 1000 {
        return Some(ParseFault::Memory);
    }
    fault(alloc, text)
}

pub fn unexpected(column: u32) -> Option<ParseFault> {
    Some(ParseFault::Unexpected {
        place: Place { line: 1, column },
    })
}

pub fn too_deep(column: u32) -> Option<ParseFault> {
    Some(ParseFault::TooDeep {
        place: Place { line: 1, column },
    })
}

#[test]
fn tokens_are_refused_at_the_first_without_a_reading(rt: HostRuntime) -> Result<(), Fail> {
    let cases: [(&[u8], u32); 50] = [
        (b";", 1),
        (b"[;", 2),
        (b"[x;", 3),
        (b"[x,;", 4),
        (b"[x:;", 4),
        (b"[x:A;", 5),
        (b"[x:A];;", 7),
        (b"[x:A]y:A;", 7),
        (b"[x:A],;", 6),
        (b"[x=M:A]x;", 8),
        (b"[x:A][y=M:A]y;", 13),
        (b"[x,y=A]B;", 5),
        (b"[x=M;", 5),
        (b"x];", 2),
        (b"{x=A}B;", 3),
        (b"{x:A};", 6),
        (b"{x:A]B;", 5),
        (b"<x|A>B;", 3),
        (b"<x:A>;", 6),
        (b"A->;", 4),
        (b"->A;", 1),
        (b"A#;", 3),
        (b"f|;", 3),
        (b"f||a;", 3),
        (b"p.;", 3),
        (b"p.3;", 3),
        (b"?;", 2),
        (b"?x;", 2),
        (b"(A;", 3),
        (b"();", 2),
        (b"(A,B;", 5),
        (b"(A,B);", 5),
        (b"(A,B:C;", 7),
        (b"(A:B);", 3),
        (b"Type(3;", 7),
        (b"Type(3 a);", 8),
        (b"3;", 1),
        (b"A 3;", 3),
        (b"A;B;", 3),
        (b"Intros;", 7),
        (b"Intros 3;", 8),
        (b"Next x;", 6),
        (b"Undo;", 5),
        (b"Forget;", 7),
        (b"Save x y;", 8),
        (b"Goal;", 5),
        (b"Goal g:;", 8),
        (b"Prf x;", 5),
        (b"Refine;", 7),
        (b"Module;", 1),
    ];
    for (text, column) in &cases {
        let got = short_fault(rt.alloc(), text);
        assert_eq!(rt; got, unexpected(*column), "{text:?}");
    }
    Ok(())
}

/// A piece so many times, then what stands in the middle, another piece so many times, and an end.
pub fn nested(
    alloc: Global,
    open: &[u8],
    count: usize,
    middle: &[u8],
    close: &[u8],
) -> Result<Vec<u8>, AllocError> {
    let mut text = Vec::new(alloc);
    for _ in 0..count {
        text.extend_from_slice(open)?;
    }
    text.extend_from_slice(middle)?;
    for _ in 0..count {
        text.extend_from_slice(close)?;
    }
    text.extend_from_slice(b";")?;
    Ok(text)
}

/// The answer to a nested text; nothing where memory ran out or the text is long.
pub fn nested_fault(
    alloc: Global,
    open: &[u8],
    count: usize,
    middle: &[u8],
    close: &[u8],
) -> Result<Option<ParseFault>, AllocError> {
    let text = nested(alloc, open, count, middle, close)?;
    if text.len() < 65_537 {
        Ok(fault(alloc, &text))
    } else {
        Ok(Some(ParseFault::Memory))
    }
}

#[test]
fn five_hundred_levels_are_the_most(rt: HostRuntime) -> Result<(), Fail> {
    // What stands at level 501, in front of the first token there, and behind it.
    let cases: [(&[u8], &[u8], &[u8], u32); 7] = [
        (b"(", b"A", b")", 502),
        (b"[x:", b"A", b"]x", 1502),
        (b"{x:", b"A", b"}x", 1502),
        (b"<x:", b"A", b">x", 1502),
        (b"{x:A}", b"A", b"", 2502),
        (b"A->", b"A", b"", 1504),
        (b"A#", b"A", b"", 1003),
    ];
    for (open, middle, close, column) in &cases {
        for count in [499, 500] {
            let got = nested_fault(rt.alloc(), open, count, middle, close)?;
            assert_eq!(rt; got, None, "{count} of {open:?}");
        }
        let got = nested_fault(rt.alloc(), open, 501, middle, close)?;
        assert_eq!(rt; got, too_deep(*column), "501 of {open:?}");
    }
    Ok(())
}

#[test]
fn the_earlier_refusal_is_answered(rt: HostRuntime) -> Result<(), Fail> {
    // A token that is too deep is refused first, also where it has no reading, and where the command goes on behind its end.
    let cases: [(&[u8], usize, &[u8], Option<ParseFault>); 6] = [
        (b"(", 501, b"];A", too_deep(502)),
        (b"(", 500, b"]", unexpected(501)),
        (b"(", 501, b"A]", too_deep(502)),
        (b"(", 499, b"A]", unexpected(501)),
        (b"A->", 501, b"A;B", too_deep(1504)),
        (b"A->", 500, b"A;B", unexpected(1503)),
    ];
    for (open, count, middle, want) in &cases {
        let got = nested_fault(rt.alloc(), open, *count, middle, b"")?;
        assert_eq!(rt; got, *want, "{count} of {open:?}");
    }
    Ok(())
}

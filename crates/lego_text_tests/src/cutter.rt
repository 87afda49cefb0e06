use lego_lexer::{Cut, Cutter, Fed, cut};
use std::alloc::{AllocError, Global};
use std::test::*;

/// The cuts of a whole script, one behind the other.
fn cuts_of_whole(alloc: Global, bytes: &[u8]) -> Result<Vec<Cut>, AllocError> {
    let mut cuts = Vec::new(alloc);
    let mut from = 0;
    for _ in 0..=bytes.len() {
        if bytes.len() < from {
            break;
        }
        let next = cut(bytes, from);
        cuts.push(next)?;
        match next {
            Cut::Command { start: _, end } | Cut::LongCommand { start: _, end } => from = end,
            _ => break,
        }
    }
    Ok(cuts)
}

/// Feeds a piece, and adds the cuts of the commands that end in it.
fn feed_all(cutter: &mut Cutter, piece: &[u8], cuts: &mut Vec<Cut>) -> Result<(), AllocError> {
    let mut rest = piece;
    for _ in 0..=piece.len() {
        if cutter.fed().saturating_add(rest.len()) > 16_777_216 {
            break;
        }
        match cutter.feed(rest) {
            Fed::More => break,
            Fed::Ended { used, cut } => {
                cuts.push(cut)?;
                rest = rest.get(used..).unwrap_or(b"");
            }
        }
    }
    Ok(())
}

/// The cuts of a script that comes in pieces of so many bytes.
fn cuts_of_pieces(alloc: Global, bytes: &[u8], size: usize) -> Result<Vec<Cut>, AllocError> {
    let mut cuts = Vec::new(alloc);
    let mut cutter = Cutter::new();
    for piece in bytes.chunks(size.max(1)) {
        feed_all(&mut cutter, piece, &mut cuts)?;
    }
    cuts.push(cutter.end())?;
    Ok(cuts)
}

#[test]
fn pieces_are_cut_as_the_whole(rt: HostRuntime) -> Result<(), Fail> {
    let scripts: [&[u8]; 16] = [
        b"",
        b" \t\r\n(* ; (* ; *) *)",
        b"[A:Prop];[B:A",
        b"[A:Prop];(* x",
        b"(*;*)a(*;*);b;",
        b" a (* x (* y *)",
        b"(*)",
        b"(*)*);",
        b"((*;*)",
        b"((*;*);",
        b"(((*;*)*;)*);",
        b"a(;*);(*;*);;",
        b"\x00\xff;(*\xce\xbb;*)x;",
        b" ; ",
        b"[A:Prop];\r\n(* one\r\n*)[B:A];\r\n",
        b"(*(**)*)a*)(;(",
    ];
    for script in scripts {
        let whole = cuts_of_whole(rt.alloc(), script)?;
        for size in [1, 2, 3, 7, 4_096] {
            let pieces = cuts_of_pieces(rt.alloc(), script, size)?;
            assert_eq!(rt;
                pieces.as_slice(),
                whole.as_slice(),
                "pieces of {size} bytes"
            );
        }
    }
    Ok(())
}

#[test]
fn indices_count_from_the_first_byte_that_was_fed(rt: HostRuntime) -> Result<(), Fail> {
    let want = [
        Cut::Command { start: 5, end: 12 },
        Cut::Command { start: 13, end: 16 },
        Cut::Unended { start: 21 },
    ];
    for size in [1, 2, 3, 7, 4_096] {
        let got = cuts_of_pieces(rt.alloc(), b"(*;*)a(*;*); b*;(*\n*)(c", size)?;
        assert_eq!(rt; got.as_slice(), want.as_slice(), "pieces of {size} bytes");
    }
    Ok(())
}

/// `[A:Prop(*`, so many letters, and `*)];`.
fn padded(alloc: Global, letters: usize) -> Result<Vec<u8>, AllocError> {
    let mut bytes = Vec::new(alloc);
    bytes.extend_from_slice(b"[A:Prop(*")?;
    bytes.resize(letters.saturating_add(9), b'x')?;
    bytes.extend_from_slice(b"*)];")?;
    Ok(bytes)
}

#[test]
fn a_command_of_more_than_65_536_bytes_is_long(rt: HostRuntime) -> Result<(), Fail> {
    let fits = Cut::Command {
        start: 0,
        end: 65_536,
    };
    let long = Cut::LongCommand {
        start: 0,
        end: 65_537,
    };
    for (letters, want) in [(65_523, fits), (65_524, long)] {
        let bytes = padded(rt.alloc(), letters)?;
        let whole = cuts_of_whole(rt.alloc(), &bytes)?;
        assert_eq!(rt; whole.as_slice(), [want, Cut::Blank].as_slice());
        for size in [1, 2, 3, 7, 4_096] {
            let pieces = cuts_of_pieces(rt.alloc(), &bytes, size)?;
            assert_eq!(rt;
                pieces.as_slice(),
                whole.as_slice(),
                "pieces of {size} bytes"
            );
        }
    }
    Ok(())
}

/// Where the present command begins behind each of the bytes.
fn starts_of(alloc: Global, bytes: &[u8]) -> Result<Vec<Option<usize>>, AllocError> {
    let mut starts = Vec::new(alloc);
    let mut cutter = Cutter::new();
    let mut cuts = Vec::new(alloc);
    for piece in bytes.chunks(1) {
        feed_all(&mut cutter, piece, &mut cuts)?;
        starts.push(cutter.started())?;
    }
    Ok(starts)
}

#[test]
fn a_command_has_started_at_its_first_byte(rt: HostRuntime) -> Result<(), Fail> {
    // A `(` might begin a command, until the `*` of a `(*` comes.
    let first: [Option<usize>; 6] = [None, Some(1), None, None, None, None];
    let second: [Option<usize>; 4] = [Some(0), Some(0), None, None];
    let third: [Option<usize>; 5] = [Some(0), Some(0), Some(0), Some(0), Some(0)];
    let cases: [(&[u8], &[Option<usize>]); 3] = [
        (b" (*x*)", &first),
        (b"((;;", &second),
        (b"((*;*", &third),
    ];
    for (bytes, want) in cases {
        let got = starts_of(rt.alloc(), bytes)?;
        assert_eq!(rt; got.as_slice(), want);
    }
    Ok(())
}

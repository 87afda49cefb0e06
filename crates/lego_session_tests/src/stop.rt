//! Option words of a run, and how far a run reads.
ghost use Rattle.std.specs.Prelude.{◌<◌};

use lego_base::{MemSink, MemSource};
use lego_session::{Status, run};
use std::alloc::{AllocError, Global};
use std::test::*;

/// What a run wrote, how it ended, and how many bytes it left.
#[derive(Drop)]
struct Ended {
    output: Vec<u8>,
    status: Status,
    left: usize,
}

/// Runs a script that comes in pieces, with these words.
fn ran(alloc: Global, texts: &[&str], script: &[u8], piece: usize) -> Result<Ended, Fail>
    requires { 0 < piece }
{
    let mut words = Vec::new(alloc);
    for text in texts {
        words.push(String::from_str(alloc, text)?)?;
    }
    let mut source = MemSource::new(alloc, script, piece, &[])?;
    let mut out = MemSink::new(alloc, 1000, 1000, &[])?;
    let status = run(alloc, words.as_slice(), &mut source, &mut out);
    Ok(Ended {
        output: Vec::from_slice(alloc, out.taken())?,
        status,
        left: source.left().len(),
    })
}

#[test]
fn a_refused_command_ends_a_run_with_stop(rt: HostRuntime) -> Result<(), Fail> {
    let cases: [(&[u8], &[u8], Status); 8] = [
        (
            b"[A@Prop];[B:Prop];",
            b"refused 1:3 1 BadByte @\n",
            Status::Refused,
        ),
        (
            b"[A:Prop];[x:B];[C:Prop];",
            b"A : Prop\nrefused 1:13 10 UnknownName B\n",
            Status::Refused,
        ),
        (
            b"[A:Prop];\n[B:A",
            b"A : Prop\nrefused 2:1 7 Unended\n",
            Status::Refused,
        ),
        (
            b"[A:Prop]; (* ;",
            b"A : Prop\nrefused 1:11 2 OpenComment\n",
            Status::Refused,
        ),
        (
            b"Undo 1;Undo 1;",
            b"refused 1:1 38 TooFar 1, 0\n",
            Status::Refused,
        ),
        (
            b"[A:Prop];",
            b"A : Prop\nExplicit;\n[A:Prop];\n",
            Status::Accepted,
        ),
        (b"", b"Explicit;\n", Status::Accepted),
        (b";;", b"refused 1:1 5 Unexpected ;\n", Status::Refused),
    ];
    for (script, output, status) in &cases {
        for piece in [1, 2, 3, 7, 4096] {
            let got = ran(rt.alloc(), &["--stop"], script, piece)?;
            assert_eq!(rt; got.output.as_slice(), *output, "in pieces of {piece}");
            assert_eq!(rt; got.status, *status, "in pieces of {piece}");
        }
    }
    Ok(())
}

#[test]
fn stop_leaves_what_stands_behind_the_piece_of_a_refused_command(
    rt: HostRuntime,
) -> Result<(), Fail> {
    let alloc = rt.alloc();
    let mut script = Vec::from_slice(alloc, b"[A@Prop];")?;
    for _ in 0..10_000 {
        script.push(b' ')?;
    }
    let cases: [(usize, usize); 5] = [
        (1, 10_000),
        (2, 9_999),
        (3, 10_000),
        (7, 9_995),
        (4096, 5_913),
    ];
    for (piece, left) in cases {
        let got = ran(alloc, &["--stop"], &script, piece)?;
        assert_eq!(rt;
            got.output.as_slice(),
            b"refused 1:3 1 BadByte @\n".as_slice()
        );
        assert_eq!(rt; got.status, Status::Refused);
        assert_eq!(rt; got.left, left, "in pieces of {piece}");
    }
    Ok(())
}

#[test]
fn a_failed_write_leaves_what_stands_behind_its_piece(rt: HostRuntime) -> Result<(), Fail> {
    let alloc = rt.alloc();
    let mut script = Vec::from_slice(alloc, b"[A:Prop];")?;
    for _ in 0..10_000 {
        script.push(b' ')?;
    }
    let mut source = MemSource::new(alloc, &script, 4096, &[])?;
    let mut out = MemSink::new(alloc, 1000, 1000, &[1])?;
    let status = run(alloc, &[], &mut source, &mut out);
    assert_eq!(rt; status, Status::WriteFault);
    assert_eq!(rt; out.taken(), b"".as_slice());
    assert_eq!(rt; source.left().len(), 5_913);
    Ok(())
}

/// The script, and blanks behind it up to so many bytes.
fn filled(alloc: Global, script: &[u8], bytes: usize) -> Result<Vec<u8>, AllocError> {
    let mut filled = Vec::from_slice(alloc, script)?;
    for _ in script.len()..bytes {
        filled.push(b' ')?;
    }
    Ok(filled)
}

#[test]
fn stop_comes_before_a_script_that_is_too_long(rt: HostRuntime) -> Result<(), Fail> {
    let alloc = rt.alloc();
    let script = filled(alloc, b"[A:Prop];;", 16_777_217)?;
    let got = ran(alloc, &["--stop"], &script, 4096)?;
    assert_eq!(rt; got.status, Status::Refused);
    assert_eq!(rt; got.left, 16_777_217 - 4096);
    let got = ran(alloc, &[], &script, 4096)?;
    assert_eq!(rt; got.status, Status::TooLong);
    assert_eq!(rt;
        got.output.as_slice(),
        b"A : Prop\nrefused 1:10 5 Unexpected ;\n".as_slice()
    );
    assert_eq!(rt; got.left, 0);
    Ok(())
}

#[test]
fn wrong_words_are_answered_and_nothing_is_read(rt: HostRuntime) -> Result<(), Fail> {
    let cases: [(&[&str], &[u8]); 6] = [
        (&["--steps"], b"usage 1\n"),
        (&["--stop", "--stop"], b"usage 1\n"),
        (&["--steps", "1", "--stop", "x"], b"usage 3\n"),
        (&["--sample", "5"], b"usage 0\n"),
        (&["--help"], b"usage 0\n"),
        (&["--stop=1"], b"usage 0\n"),
    ];
    for (texts, output) in &cases {
        let got = ran(rt.alloc(), texts, b"[A:Prop];", 9)?;
        assert_eq!(rt; got.status, Status::Usage, "{texts:?}");
        assert_eq!(rt; got.output.as_slice(), *output, "{texts:?}");
        assert_eq!(rt; got.left, 9, "{texts:?}");
    }
    Ok(())
}

#[test]
fn steps_are_heard(rt: HostRuntime) -> Result<(), Fail> {
    for texts in [["--steps", "1"].as_slice(), ["--steps=10000000"].as_slice()] {
        let got = ran(rt.alloc(), texts, b"[A:Prop];", 9)?;
        assert_eq!(rt; got.status, Status::Accepted, "{texts:?}");
        assert_eq!(rt;
            got.output.as_slice(),
            b"A : Prop\nExplicit;\n[A:Prop];\n".as_slice()
        );
    }
    Ok(())
}

#[test]
fn statuses_have_their_numbers(rt: HostRuntime) -> Result<(), Fail> {
    let statuses = [
        Status::Accepted,
        Status::Refused,
        Status::Usage,
        Status::ReadFault,
        Status::WriteFault,
        Status::Memory,
        Status::OpenProof,
        Status::TooLong,
    ];
    for number in 0..statuses.len() {
        assert_eq!(rt; usize::from(statuses[number].code()), number);
    }
    Ok(())
}

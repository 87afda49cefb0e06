//! Whole runs: the worked scripts, each refusal by its cause, the limits, and the ends of a run
//! that fail.
ghost use Rattle.std.specs.Prelude.{◌<◌};

use lego_base::{MemSink, MemSource};
use lego_session::{Status, run};
use std::alloc::{AllocError, Global};
use std::test::*;

/// Enough room for each output here.
const ROOM: usize = 4_000_000;

/// Runs a script that comes in pieces, and gives the output and the status.
fn ran(alloc: Global, script: &[u8], piece: usize) -> Result<(Vec<u8>, Status), AllocError>
    requires { 0 < piece }
{
    let mut source = MemSource::new(alloc, script, piece, &[])?;
    let mut out = MemSink::new(alloc, ROOM, 1000, &[])?;
    let status = run(alloc, &[], &mut source, &mut out);
    Ok((Vec::from_slice(alloc, out.taken())?, status))
}

#[test]
fn scripts_have_their_output_and_status_in_whatever_pieces_they_come(
    rt: HostRuntime,
) -> Result<(), Fail> {
    let cases: [(&[u8], &[u8], Status); 26] = [
        (b"", b"Explicit;\n", Status::Accepted),
        (
            b"[A:Prop][a:A];",
            b"A : Prop\na : A\nExplicit;\n[A:Prop];\n[a:A];\n",
            Status::Accepted,
        ),
        (
            b"[A:Prop];[B:A",
            b"A : Prop\nrefused 1:10 7 Unended\nExplicit;\n[A:Prop];\n",
            Status::Refused,
        ),
        (
            b"[A:Prop];(* x",
            b"A : Prop\nrefused 1:10 2 OpenComment\nExplicit;\n[A:Prop];\n",
            Status::Refused,
        ),
        (
            b"[A@Prop];[B:Prop];",
            b"refused 1:3 1 BadByte @\nB : Prop\nExplicit;\n[B:Prop];\n",
            Status::Refused,
        ),
        (
            b"[A:Prop][a:A];\n[x:a];",
            b"A : Prop\na : A\nrefused 2:1 13 NotAType a : A\nExplicit;\n[A:Prop];\n[a:A];\n",
            Status::Refused,
        ),
        (
            b"[A:Prop][a:A];\n[x:Q];",
            b"A : Prop\na : A\nrefused 2:4 10 UnknownName Q\nExplicit;\n[A:Prop];\n[a:A];\n",
            Status::Refused,
        ),
        (
            b"[A:Prop][a:A];\n[a:A];",
            b"A : Prop\na : A\nrefused 2:2 12 NameInUse a\nExplicit;\n[A:Prop];\n[a:A];\n",
            Status::Refused,
        ),
        (
            b"(* a (* b *) c *)[A,B:Prop][f:(A->B)->A];",
            b"A : Prop\nB : Prop\nf : (A->B)->A\nExplicit;\n[A:Prop];\n[B:Prop];\n[f:(A->B)->A];\n",
            Status::Accepted,
        ),
        // The names of a refused command are free again, and are not in scope.
        (
            b"[A:Prop][B:C];[A:Prop];",
            b"refused 1:12 10 UnknownName C\nA : Prop\nExplicit;\n[A:Prop];\n",
            Status::Refused,
        ),
        (
            b"[A:Prop][B:C];[x:A];",
            b"refused 1:12 10 UnknownName C\nrefused 1:18 10 UnknownName A\nExplicit;\n",
            Status::Refused,
        ),
        // The run goes on behind each refused command.
        (
            b"[A:Prop];[B:A][A:B];[b:B];[B:A];",
            b"A : Prop\nrefused 1:16 12 NameInUse A\nrefused 1:24 10 UnknownName B\nB : A\nExplicit;\n[A:Prop];\n[B:A];\n",
            Status::Refused,
        ),
        // A comment hides a `;`, and blanks may follow the last command.
        (
            b"[A(*;*):Prop]; \n",
            b"A : Prop\nExplicit;\n[A:Prop];\n",
            Status::Accepted,
        ),
        (
            b"[A:Prop](*;(*;*);*);",
            b"A : Prop\nExplicit;\n[A:Prop];\n",
            Status::Accepted,
        ),
        (b"(*[A:Prop];*)", b"Explicit;\n", Status::Accepted),
        (
            b"[A:Prop](*;",
            b"refused 1:9 2 OpenComment\nExplicit;\n",
            Status::Refused,
        ),
        // Lines are counted through blanks and comments.
        (
            b"[A:Prop\n]\n;(*\n*) [B:Q];",
            b"A : Prop\nrefused 4:7 10 UnknownName Q\nExplicit;\n[A:Prop];\n",
            Status::Refused,
        ),
        // What Undo, Forget and Ctxt answer, and what they leave.
        (
            b"[a:Prop][b:a]; Forget a; [a:Prop->Prop]; Undo 2; Undo 99;",
            b"a : Prop\nb : a\nforgot 2\na : Prop->Prop\nundone 2\nrefused 1:50 38 TooFar 99, 1\nExplicit;\n[a:Prop];\n[b:a];\n",
            Status::Refused,
        ),
        (
            b"[A:Prop];[B:A];Undo 007;Undo 1;Ctxt;",
            b"A : Prop\nB : A\nrefused 1:16 38 TooFar 7, 2\nundone 1\nA : Prop\nExplicit;\n[A:Prop];\n",
            Status::Refused,
        ),
        (
            b"Undo 0;Undo 1;Ctxt;",
            b"undone 0\nrefused 1:8 38 TooFar 1, 0\nExplicit;\n",
            Status::Refused,
        ),
        (
            b"[A:Prop][B:A];Ctxt;Undo 1;Ctxt;",
            b"A : Prop\nB : A\nA : Prop\nB : A\nundone 1\nExplicit;\n",
            Status::Accepted,
        ),
        // An undone Forget gives the dropped entries back.
        (
            b"[A:Prop];[B:Prop];[C:Prop];Forget B;Undo 1;[D:B];",
            b"A : Prop\nB : Prop\nC : Prop\nforgot 2\nundone 1\nD : B\nExplicit;\n[A:Prop];\n[B:Prop];\n[C:Prop];\n[D:B];\n",
            Status::Accepted,
        ),
        (
            b"[A:Prop];\n Forget B;",
            b"A : Prop\nrefused 2:9 10 UnknownName B\nExplicit;\n[A:Prop];\n",
            Status::Refused,
        ),
        // A line may end as on other systems, and comments may hold any byte.
        (
            b"[A:Prop];\r\n(* \xC3\xA9 \x00 *)\r\n[B:Q];",
            b"A : Prop\nrefused 3:4 10 UnknownName Q\nExplicit;\n[A:Prop];\n",
            Status::Refused,
        ),
        (
            b"[a':Prop][_b:a'];",
            b"a' : Prop\n_b : a'\nExplicit;\n[a':Prop];\n[_b:a'];\n",
            Status::Accepted,
        ),
        (
            b"[A:Prop];;",
            b"A : Prop\nrefused 1:10 5 Unexpected ;\nExplicit;\n[A:Prop];\n",
            Status::Refused,
        ),
    ];
    for (script, output, status) in &cases {
        for piece in [1, 2, 3, 7, 4096] {
            let got = ran(rt.alloc(), script, piece)?;
            assert_eq!(rt; got.0.as_slice(), *output, "in pieces of {piece}");
            assert_eq!(rt; got.1, *status, "in pieces of {piece}");
        }
    }
    Ok(())
}

/// The output of a script that is refused with this line and leaves no entry.
fn refused(alloc: Global, line: &[u8]) -> Result<Vec<u8>, AllocError> {
    let mut output = Vec::from_slice(alloc, line)?;
    output.extend_from_slice(b"\nExplicit;\n")?;
    Ok(output)
}

#[test]
fn each_refusal_has_its_cause_and_its_place(rt: HostRuntime) -> Result<(), Fail> {
    let cases: [(&[u8], &[u8]); 37] = [
        // Bytes that begin no token, and numerals.
        (b"[A-Prop];", b"refused 1:3 1 BadByte -"),
        (b"[\x0BA:Prop];", b"refused 1:2 1 BadByte \\x0B"),
        (b"[A\xC3:Prop];", b"refused 1:3 1 BadByte \\xC3"),
        (b"[x:Type(1000001)];", b"refused 1:9 4 BigLevel"),
        (b"Next 1000000;", b"refused 1:1 5 Unexpected Next"),
        // The first token after which no reading exists.
        (b";", b"refused 1:1 5 Unexpected ;"),
        (b"[A:Prop)];", b"refused 1:8 5 Unexpected )"),
        (b"[A:Prop]];", b"refused 1:9 5 Unexpected ]"),
        (b"[A:Prop;", b"refused 1:8 5 Unexpected ;"),
        (b"[A,:Prop];", b"refused 1:4 5 Unexpected :"),
        (b"[Prop:Prop];", b"refused 1:2 5 Unexpected Prop"),
        (b"[A:Prop->];", b"refused 1:10 5 Unexpected ]"),
        (b"Module M;", b"refused 1:1 5 Unexpected Module"),
        // Forms that are not built, at their first token.
        (b"[A|Prop];", b"refused 1:1 5 Unexpected ["),
        (b"[A:Prop][B|A];", b"refused 1:1 5 Unexpected ["),
        (b"[f:{x|Prop}x];", b"refused 1:1 5 Unexpected ["),
        (b"[f=[x|Prop]x];", b"refused 1:1 5 Unexpected ["),
        (b"(*x*)Hnf f|Prop;", b"refused 1:6 5 Unexpected Hnf"),
        (b"Goal Prop;", b"refused 1:1 5 Unexpected Goal"),
        (b"Explicit;", b"refused 1:1 5 Unexpected Explicit"),
        (b"Implicit;", b"refused 1:1 5 Unexpected Implicit"),
        (b"Discharge A;", b"refused 1:1 5 Unexpected Discharge"),
        // Names that no entry has: a type can't name what its own binding assumes.
        (b"[A:A];", b"refused 1:4 10 UnknownName A"),
        (b"[A,B:A];", b"refused 1:6 10 UnknownName A"),
        (b"[A:Prop][f:A->(B->C)];", b"refused 1:16 10 UnknownName B"),
        // Names in use: those of the bindings before, and of the same list.
        (b"[A,A:Prop];", b"refused 1:4 12 NameInUse A"),
        (b"[A:Prop][B,A:Prop];", b"refused 1:12 12 NameInUse A"),
        // Types that are none, at the `[` of their binding, with the names that it would see.
        (b"[A:Prop][a,b:A][x:b];", b"refused 1:16 13 NotAType b : A"),
        (
            b"[A:Prop][a:A][f:A->a->A];",
            b"refused 1:14 13 NotAType a : A",
        ),
        (
            b"[A:Prop][f:A->Prop->A][g:f];",
            b"refused 1:23 13 NotAType f : A->Prop->A",
        ),
        // Of two causes the lexer's goes first, then the grammar's, then those of the bindings,
        // one after the other: names in use, unknown names, types.
        (b"[A)@Prop];", b"refused 1:4 1 BadByte @"),
        (b"[A:Q)];", b"refused 1:5 5 Unexpected )"),
        (b"[x=Prop)];", b"refused 1:8 5 Unexpected )"),
        (b"[A:Q][x|A];", b"refused 1:1 5 Unexpected ["),
        (b"[A:Q][x=A];", b"refused 1:4 10 UnknownName Q"),
        (b"[A:Prop][A:Q];", b"refused 1:10 12 NameInUse A"),
        (b"[A:Q][A:Prop];", b"refused 1:4 10 UnknownName Q"),
    ];
    for number in 0..cases.len() {
        let (script, line) = cases[number];
        let got = ran(rt.alloc(), script, 4096)?;
        assert_eq!(rt; got.0, refused(rt.alloc(), line)?, "script {number}");
        assert_eq!(rt; got.1, Status::Refused, "script {number}");
    }
    Ok(())
}

#[test]
fn a_script_that_ends_within_a_command_is_unended(rt: HostRuntime) -> Result<(), Fail> {
    let script = b"[A:Prop][a@A]";
    for count in 1..=script.len() {
        let line = b"refused 1:1 7 Unended";
        let got = ran(rt.alloc(), &script[..count], 4096)?;
        assert_eq!(rt; got.0, refused(rt.alloc(), line)?, "{count} bytes");
    }
    Ok(())
}

#[test]
fn a_script_has_at_most_16_777_216_bytes(rt: HostRuntime) -> Result<(), Fail> {
    let cases: [(usize, &[u8], Status); 2] = [
        (16_777_216, b"Explicit;\n", Status::Accepted),
        (16_777_217, b"", Status::TooLong),
    ];
    for (count, output, status) in &cases {
        let script = vec![in rt.alloc(); b' '; *count]?;
        let got = ran(rt.alloc(), &script, 4096)?;
        assert_eq!(rt; got.0.as_slice(), *output, "of {count} bytes");
        assert_eq!(rt; got.1, *status, "of {count} bytes");
    }
    Ok(())
}

/// The bytes, a byte so many times, and more bytes.
fn around(
    alloc: Global,
    front: &[u8],
    byte: u8,
    count: usize,
    back: &[u8],
) -> Result<Vec<u8>, AllocError> {
    let mut text = Vec::from_slice(alloc, front)?;
    for _ in 0..count {
        text.push(byte)?;
    }
    text.extend_from_slice(back)?;
    Ok(text)
}

#[test]
fn a_command_has_at_most_65_536_bytes(rt: HostRuntime) -> Result<(), Fail> {
    let accepted = around(rt.alloc(), b"[A:Prop(*", b'x', 65_523, b"*)];")?;
    let got = ran(rt.alloc(), &accepted, 4096)?;
    assert_eq!(rt;
        got.0.as_slice(),
        b"A : Prop\nExplicit;\n[A:Prop];\n".as_slice()
    );
    let refused = around(rt.alloc(), b"[A:Prop(*", b'x', 65_524, b"*)];[B:Prop];")?;
    let got = ran(rt.alloc(), &refused, 4096)?;
    let output = b"refused 1:1 8 LongCommand 65537\nB : Prop\nExplicit;\n[B:Prop];\n".as_slice();
    assert_eq!(rt; got.0.as_slice(), output);
    Ok(())
}

#[test]
fn a_name_has_at_most_255_bytes(rt: HostRuntime) -> Result<(), Fail> {
    let accepted = around(rt.alloc(), b"[", b'n', 255, b":Prop];")?;
    assert_eq!(rt; ran(rt.alloc(), &accepted, 4096)?.1, Status::Accepted);
    let refused = around(rt.alloc(), b"[", b'n', 256, b":Prop];")?;
    let got = ran(rt.alloc(), &refused, 4096)?;
    assert_eq!(rt;
        got.0.as_slice(),
        b"refused 1:2 3 LongName\nExplicit;\n".as_slice()
    );
    Ok(())
}

#[test]
fn a_token_has_at_most_500_levels_around_it(rt: HostRuntime) -> Result<(), Fail> {
    let cases: [(usize, &[u8]); 2] = [
        (499, b"A : Prop\nExplicit;\n[A:Prop];\n"),
        (500, b"refused 1:504 6 TooDeep\nExplicit;\n"),
    ];
    for (count, output) in &cases {
        let front = around(rt.alloc(), b"[A:", b'(', *count, b"Prop")?;
        let script = around(rt.alloc(), &front, b')', *count, b"];")?;
        let got = ran(rt.alloc(), &script, 4096)?;
        assert_eq!(rt; got.0.as_slice(), *output, "of {count} parentheses");
    }
    Ok(())
}

/// `Prop`, behind so many times `Prop->`.
fn arrows(alloc: Global, count: usize) -> Result<Vec<u8>, AllocError> {
    let mut text = Vec::new(alloc);
    for _ in 0..count {
        text.extend_from_slice(b"Prop->")?;
    }
    text.extend_from_slice(b"Prop")?;
    Ok(text)
}

#[test]
fn a_type_has_at_most_499_arrows(rt: HostRuntime) -> Result<(), Fail> {
    let alloc = rt.alloc();
    let ty = arrows(alloc, 499)?;
    let mut script = Vec::from_slice(alloc, b"[A:")?;
    script.extend_from_slice(&ty)?;
    script.extend_from_slice(b"];")?;
    let mut output = Vec::from_slice(alloc, b"A : ")?;
    output.extend_from_slice(&ty)?;
    output.extend_from_slice(b"\nExplicit;\n")?;
    output.extend_from_slice(&script)?;
    output.extend_from_slice(b"\n")?;
    let got = ran(alloc, &script, 4096)?;
    assert_eq!(rt; got.1, Status::Accepted);
    assert!(rt; got.0 == output);
    let mut script = Vec::from_slice(alloc, b"[A:")?;
    script.extend_from_slice(&arrows(alloc, 500)?)?;
    script.extend_from_slice(b"];")?;
    let got = ran(alloc, &script, 4096)?;
    assert_eq!(rt; got.0, refused(alloc, b"refused 1:3004 6 TooDeep")?);
    Ok(())
}

/// Adds a name that a number tells from others.
fn push_name(alloc: Global, text: &mut Vec<u8>, number: usize) -> Result<(), AllocError> {
    let name = format!(in alloc; "a{number}")?;
    text.extend_from_slice(name.as_bytes())
}

#[test]
fn a_context_has_at_most_65_536_entries(rt: HostRuntime) -> Result<(), Fail> {
    let alloc = rt.alloc();
    let mut script = Vec::new(alloc);
    let mut lines = Vec::new(alloc);
    let mut development = Vec::new(alloc);
    for number in 0usize..65_536 {
        let sign: &[u8] = if number % 8000 == 0 { b"[" } else { b"," };
        script.extend_from_slice(sign)?;
        push_name(alloc, &mut script, number)?;
        if number % 8000 == 7999 || number == 65_535 {
            script.extend_from_slice(b":Prop];\n")?;
        }
        push_name(alloc, &mut lines, number)?;
        lines.extend_from_slice(b" : Prop\n")?;
        development.extend_from_slice(b"[")?;
        push_name(alloc, &mut development, number)?;
        development.extend_from_slice(b":Prop];\n")?;
    }
    script.extend_from_slice(b"[z:Prop];")?;
    lines.extend_from_slice(b"refused 10:1 21 Full entries 65536\nExplicit;\n")?;
    lines.extend_from_slice(&development)?;
    let got = ran(alloc, &script, 4096)?;
    assert_eq!(rt; got.1, Status::Refused);
    assert!(rt; got.0 == lines);
    Ok(())
}

#[test]
fn at_most_1_048_576_names_are_held(rt: HostRuntime) -> Result<(), Fail> {
    let alloc = rt.alloc();
    let mut script = Vec::new(alloc);
    let mut output = Vec::new(alloc);
    // The names of a refused command keep their numbers.
    for number in 0usize..1_048_576 {
        let front: &[u8] = if number % 7000 == 0 { b"Intros " } else { b" " };
        script.extend_from_slice(front)?;
        push_name(alloc, &mut script, number)?;
        if number % 7000 == 6999 || number == 1_048_575 {
            script.extend_from_slice(b";\n")?;
            let line = number / 7000 + 1;
            let refusal = format!(in alloc; "refused {line}:1 5 Unexpected Intros\n")?;
            output.extend_from_slice(refusal.as_bytes())?;
        }
    }
    script.extend_from_slice(b"[z:Prop];[a0:Prop];")?;
    output.extend_from_slice(b"refused 151:1 9 NamesFull\na0 : Prop\nExplicit;\n[a0:Prop];\n")?;
    let got = ran(alloc, &script, 4096)?;
    assert_eq!(rt; got.1, Status::Refused);
    assert!(rt; got.0 == output);
    Ok(())
}

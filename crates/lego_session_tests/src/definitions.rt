//! Scripts of definitions, universes and terms as commands, with their outputs.
ghost use Rattle.std.specs.Prelude.{◌<◌};

use lego_base::{MemSink, MemSource};
use lego_session::{Status, run};
use std::alloc::{AllocError, Global};
use std::test::*;

/// Enough room for each output here.
const ROOM: usize = 10_000;

/// Runs a script with these words, and gives the output and the status.
fn ran(
    alloc: Global,
    texts: &[&str],
    script: &[u8],
    piece: usize,
) -> Result<(Vec<u8>, Status), Fail>
    requires { 0 < piece }
{
    let mut words = Vec::new(alloc);
    for text in texts {
        words.push(String::from_str(alloc, text)?)?;
    }
    let mut source = MemSource::new(alloc, script, piece, &[])?;
    let mut out = MemSink::new(alloc, ROOM, 1000, &[])?;
    let status = run(alloc, words.as_slice(), &mut source, &mut out);
    Ok((Vec::from_slice(alloc, out.taken())?, status))
}

#[test]
fn definitions_and_terms_are_answered_at_their_least_levels(rt: HostRuntime) -> Result<(), Fail> {
    let cases: [(&[u8], &[u8]); 13] = [
        (
            b"[T=Type][U:T][x:U];",
            b"T = Type(0) : Type(1)\nU : T\nx : U\nExplicit;\n[T=Type(0):Type(1)];\n[U:T];\n[x:U];\n(* universe 1:4 at 0 *)\n",
        ),
        (
            b"[P:Prop][F:Type->Type][x=F P];",
            b"P : Prop\nF : Type(0)->Type(0)\nx = F P : Type(0)\nExplicit;\n[P:Prop];\n[F:Type(0)->Type(0)];\n[x=F P:Type(0)];\n(* universe 1:12 at 0 *)\n(* universe 1:18 at 0 *)\n",
        ),
        (
            b"[false={P:Prop}P];",
            b"false = {P:Prop}P : Prop\nExplicit;\n[false={P:Prop}P:Prop];\n",
        ),
        (
            b"[A:Prop][a:A][p=(a,a:A#A)][q=p.1];",
            b"A : Prop\na : A\np = (a,a:A#A) : A#A\nq = p.1 : A\nExplicit;\n[A:Prop];\n[a:A];\n[p=(a,a:A#A):A#A];\n[q=p.1:A];\n",
        ),
        (
            b"[F:Type->Type][P=F ({A:Type}A)];",
            b"F : Type(1)->Type(0)\nP = F ({A:Type(0)}A) : Type(0)\nExplicit;\n[F:Type(1)->Type(0)];\n[P=F ({A:Type(0)}A):Type(0)];\n(* universe 1:4 at 1 *)\n(* universe 1:10 at 0 *)\n(* universe 1:24 at 0 *)\n",
        ),
        (
            b"[A:Prop][B=A]; Hnf B; Normal B->B; B; Ctxt;",
            b"A : Prop\nB = A : Prop\nA\nA->A\nB : Prop\nA : Prop\nB = A : Prop\nExplicit;\n[A:Prop];\n[B=A:Prop];\n",
        ),
        (
            b"[A:Prop][a:A];\n[c=[x=a]x];",
            b"A : Prop\na : A\nc = [x=a]x : A\nExplicit;\n[A:Prop];\n[a:A];\n[c=[x=a]x:A];\n",
        ),
        (
            b"[A:Prop][a:A];\n[i=[B=A][b:B]b];",
            b"A : Prop\na : A\ni = [B=A][b:B]b : A->A\nExplicit;\n[A:Prop];\n[a:A];\n[i=[B=A][b:B]b:A->A];\n",
        ),
        (
            b"[A:Prop][a:A];\nNormal [x=a]x;",
            b"A : Prop\na : A\na\nExplicit;\n[A:Prop];\n[a:A];\n",
        ),
        (
            b"[K:Type->Prop][R:(Type->Prop)->Prop][y:R K][c=K]; Forget y; [m:K Type(3)];",
            b"K : Type(0)->Prop\nR : (Type(0)->Prop)->Prop\ny : R K\nc = K : Type(0)->Prop\nforgot 2\nm : K Type(3)\nExplicit;\n[K:Type(4)->Prop];\n[R:(Type(0)->Prop)->Prop];\n[m:K Type(3)];\n(* universe 1:4 at 4 *)\n(* universe 1:19 at 0 *)\n",
        ),
        (
            b"[x=Type(999999)];[A:Prop];",
            b"x = Type(999999) : Type(1000000)\nA : Prop\nExplicit;\n[x=Type(999999):Type(1000000)];\n[A:Prop];\n",
        ),
        (
            b"[x=[A:Type(0)]Type(3):Type->Type(9)];",
            b"x = [A:Type(0)]Type(3) : Type(0)->Type(9)\nExplicit;\n[x=[A:Type(0)]Type(3):Type(0)->Type(9)];\n(* universe 1:23 at 0 *)\n",
        ),
        (
            b"[x:Type(999999)];",
            b"x : Type(999999)\nExplicit;\n[x:Type(999999)];\n",
        ),
    ];
    for (script, output) in &cases {
        for piece in [7, 4096] {
            let got = ran(rt.alloc(), &[], script, piece)?;
            assert_eq!(rt; got.0.as_slice(), *output, "in pieces of {piece}");
            assert_eq!(rt; got.1, Status::Accepted, "in pieces of {piece}");
        }
    }
    Ok(())
}

#[test]
fn refused_terms_say_why_and_change_nothing(rt: HostRuntime) -> Result<(), Fail> {
    let cases: [(&[u8], &[u8]); 13] = [
        (
            b"[A:Prop][a:A][q=(a,a:A)];",
            b"refused 1:14 23 NotSigma A\nExplicit;\n",
        ),
        (
            b"[A,B:Prop][a:A][f:B->B][c=f a];",
            b"refused 1:24 16 Mismatch a : A, wanted B\nExplicit;\n",
        ),
        (
            b"[x:Type(3)][F:Type(2)->Prop][y=F x];",
            b"refused 1:29 17 Universe\n  1:29: 3 <= 2\nExplicit;\n",
        ),
        (
            b"[A:Prop][a:A];\n[x=a a];",
            b"A : Prop\na : A\nrefused 2:1 14 NotAFunction a : A\nExplicit;\n[A:Prop];\n[a:A];\n",
        ),
        (
            b"[A:Prop][a:A];\n[x=Prop.1];",
            b"A : Prop\na : A\nrefused 2:1 15 NotAPair Prop : Type\nExplicit;\n[A:Prop];\n[a:A];\n",
        ),
        (
            b"[A:Prop][a:A];\n[c=[x=a a]A];",
            b"A : Prop\na : A\nrefused 2:1 14 NotAFunction a : A\nExplicit;\n[A:Prop];\n[a:A];\n",
        ),
        (
            b"[A:Prop][a:A]; [x=a a:a]; [x=a:a]; [x=A:Q]; [x=Q:R];",
            b"A : Prop\na : A\nrefused 1:16 14 NotAFunction a : A\nrefused 1:27 13 NotAType a : A\nrefused 1:41 10 UnknownName Q\nrefused 1:48 10 UnknownName Q\nExplicit;\n[A:Prop];\n[a:A];\n",
        ),
        (
            b"[A:Prop];[f={X:Prop}{X,B:X}Prop];[g={X,Y:Prop}X->Y];[h=[x,y,z:A]x];",
            b"A : Prop\nrefused 1:10 13 NotAType X1 : X\ng = {X:Prop}{Y:Prop}X->Y : Prop\nh = [x:A][y:A][z:A]x : A->A->A->A\nExplicit;\n[A:Prop];\n[g={X:Prop}{Y:Prop}X->Y:Prop];\n[h=[x:A][y:A][z:A]x:A->A->A->A];\n",
        ),
        (
            b"[x:Prop][f:x->x->Prop][g={y:x}{x:f y y}x][h:x->{z:f z z}x];",
            b"refused 1:23 13 NotAType x1 : f y y\nExplicit;\n",
        ),
        (
            b"[A,B:Prop][a:A]; [c=[x=a]x:B]; [d:[x=a]x]; [e=([x=a]x) a]; [f=([x=a]x).1];",
            b"A : Prop\nB : Prop\na : A\nrefused 1:18 16 Mismatch [x=a]x : A, wanted B\nrefused 1:32 13 NotAType [x=a]x : A\nrefused 1:44 14 NotAFunction [x=a]x : A\nrefused 1:60 15 NotAPair [x=a]x : A\nExplicit;\n[A:Prop];\n[B:Prop];\n[a:A];\n",
        ),
        (
            b"[A:Prop][b:A->Prop][p=(A,A:<X:Prop>Prop)][q=p.2.1];",
            b"refused 1:42 15 NotAPair p.2 : Prop\nExplicit;\n",
        ),
        (
            b"[x=Type(999999):Type(1000000)];",
            b"refused 1:1 20 LevelTooBig 1000001\nExplicit;\n",
        ),
        (
            b"[x:Type(1000000)];",
            b"refused 1:1 20 LevelTooBig 1000001\nExplicit;\n",
        ),
    ];
    for (script, output) in &cases {
        let got = ran(rt.alloc(), &[], script, 4096)?;
        assert_eq!(rt; got.0.as_slice(), *output);
        assert_eq!(rt; got.1, Status::Refused);
    }
    Ok(())
}

#[test]
fn the_word_steps_bounds_each_comparison(rt: HostRuntime) -> Result<(), Fail> {
    let script = b"[A:Prop][B=A][C=B][D=C][E=D][e:E][x=e:A];";
    let got = ran(rt.alloc(), &["--steps", "3"], script, 4096)?;
    let refused = b"refused 1:34 18 Budget E, A\nExplicit;\n";
    assert_eq!(rt; got.0.as_slice(), refused.as_slice());
    assert_eq!(rt; got.1, Status::Refused);
    let got = ran(rt.alloc(), &["--steps=4"], script, 4096)?;
    let accepted =
        b"A : Prop\nB = A : Prop\nC = B : Prop\nD = C : Prop\nE = D : Prop\ne : E\nx = e : A\nExplicit;\n[A:Prop];\n[B=A:Prop];\n[C=B:Prop];\n[D=C:Prop];\n[E=D:Prop];\n[e:E];\n[x=e:A];\n";
    assert_eq!(rt; got.0.as_slice(), accepted.as_slice());
    assert_eq!(rt; got.1, Status::Accepted);
    Ok(())
}

#[test]
fn undoing_gives_levels_back(rt: HostRuntime) -> Result<(), Fail> {
    let script =
        b"[K:Type->Prop][R:(Type->Prop)->Prop][y:R K][c=K]; Forget y; Undo 1; [m:K Type(3)]; Undo 2; Ctxt;";
    let got = ran(rt.alloc(), &[], script, 4096)?;
    let output =
        b"K : Type(0)->Prop\nR : (Type(0)->Prop)->Prop\ny : R K\nc = K : Type(0)->Prop\nforgot 2\nundone 1\nm : K Type(3)\nundone 2\nExplicit;\n";
    assert_eq!(rt; got.0.as_slice(), output.as_slice());
    assert_eq!(rt; got.1, Status::Accepted);
    Ok(())
}

#[test]
fn a_universe_that_has_no_level_is_refused_with_a_cycle(rt: HostRuntime) -> Result<(), Fail> {
    let script = b"[id=[A:Type][a:A]a];\n[x=id ({A:Type}A->A) id];";
    let got = ran(rt.alloc(), &[], script, 4096)?;
    let front = b"id = [A:Type(0)][a:A]a : {A:Type(0)}A->A\nrefused 2:1 17 Universe\n  ";
    assert!(rt; got.0.as_slice().starts_with(front));
    let back = b"\nExplicit;\n[id=[A:Type(0)][a:A]a:{A:Type(0)}A->A];\n(* universe 1:8 at 0 *)\n";
    assert!(rt; got.0.as_slice().ends_with(back));
    assert_eq!(rt; got.1, Status::Refused);
    Ok(())
}

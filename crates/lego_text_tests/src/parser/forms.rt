//! Every form of command and term with its tree.
use super::parsed;
use super::render::push_act;
use lego_base::Names;
use lego_grammar::Command;
use std::alloc::{AllocError, Global};
use std::test::*;

/// The tree of a command as a text, or that there is none.
fn shown(alloc: Global, text: &[u8]) -> Result<Vec<u8>, AllocError> {
    if text.len() > 1000 {
        return Vec::from_slice(alloc, b"long");
    }
    let mut names = Names::new(alloc);
    match parsed(alloc, text, &mut names) {
        Ok(command) => {
            let text = rendered(alloc, &names, &command);
            // By a call, since a drop in place goes through all that a command may hold.
            drop(command);
            text
        }
        Err(_fault) => Vec::from_slice(alloc, b"refused"),
    }
}

fn rendered(alloc: Global, names: &Names, command: &Command) -> Result<Vec<u8>, AllocError> {
    let mut text = Vec::new(alloc);
    push_act(&mut text, names, &command.act)?;
    Ok(text)
}

#[test]
fn each_form_of_term_has_its_tree(rt: HostRuntime) -> Result<(), Fail> {
    let cases: [(&[u8], &[u8]); 24] = [
        (b"x;", b"x"),
        (b"Prop;", b"Prop"),
        (b"Type;", b"Type"),
        (b"Type(3);", b"Type3"),
        (b"Type (3);", b"Type3"),
        (b"?7;", b"?7"),
        (b"(x);", b"x"),
        (b"((x));", b"x"),
        (b"A->B;", b"(P:A B)"),
        (b"A#B;", b"(S:A B)"),
        (b"[x:A]M;", b"(Lx:A M)"),
        (b"[x,y:A]M;", b"(Lx,y:A M)"),
        (b"[x|A]M;", b"(Lx|A M)"),
        (b"[x,y|A]M;", b"(Lx,y|A M)"),
        (b"[x=M]N;", b"(=x M N)"),
        (b"{x:A}B;", b"(Px:A B)"),
        (b"{x|A}B;", b"(Px|A B)"),
        (b"<x:A>B;", b"(Sx:A B)"),
        (b"<x,y,z:A>B;", b"(Sx,y,z:A B)"),
        (b"f a;", b"(f a)"),
        (b"f|a;", b"(f |a)"),
        (b"(M,N:A);", b"(,M N A)"),
        (b"p.1;", b"(.1 p)"),
        (b"p.2;", b"(.2 p)"),
    ];
    for (text, tree) in &cases {
        let got = shown(rt.alloc(), text)?;
        assert_eq!(rt; got.as_slice(), *tree, "{text:?}");
    }
    Ok(())
}

#[test]
fn terms_group_by_the_grammar(rt: HostRuntime) -> Result<(), Fail> {
    let cases: [(&[u8], &[u8]); 36] = [
        // Arrows and `#` go to the right, application to the left.
        (b"A->B->C;", b"(P:A (P:B C))"),
        (b"(A->B)->C;", b"(P:(P:A B) C)"),
        (b"A#B#C;", b"(S:A (S:B C))"),
        (b"(A#B)#C;", b"(S:(S:A B) C)"),
        (b"A#B->C;", b"(P:(S:A B) C)"),
        (b"A->B#C;", b"(P:A (S:B C))"),
        (b"f a#g b->h c;", b"(P:(S:(f a) (g b)) (h c))"),
        (b"f a b c;", b"(f a b c)"),
        (b"f (a b) c;", b"(f (a b) c)"),
        // A function in parentheses gives its arguments to the spine, and so with projections.
        (b"(f a) b;", b"(f a b)"),
        (b"((f|a) b) c;", b"(f |a b c)"),
        (b"(p.1).2;", b"(.12 p)"),
        (b"f a|b c;", b"(f a |b c)"),
        (b"f|a|b;", b"(f |a |b)"),
        // Projection is tightest.
        (b"p.1.2;", b"(.12 p)"),
        (b"f p.1 a.2;", b"(f (.1 p) (.2 a))"),
        (b"(f p).2;", b"(.2 (f p))"),
        (b"(M,N:A).1;", b"(.1 (,M N A))"),
        // `Type` followed by a numeral in parentheses is the explicit level.
        (b"Type(3) a;", b"(Type3 a)"),
        (b"f Type(3);", b"(f Type3)"),
        (b"Type(A);", b"(Type A)"),
        (b"Type (A,B:C);", b"(Type (,A B C))"),
        (b"Type.1(3);", b"refused"),
        (b"Type ?3;", b"(Type ?3)"),
        // A binder reaches as far right as it can.
        (b"[x:A]f x->B;", b"(Lx:A (P:(f x) B))"),
        (b"{x:A}B->C;", b"(Px:A (P:B C))"),
        (b"A->{x:B}C->D;", b"(P:A (Px:B (P:C D)))"),
        (b"<x:A>B#C;", b"(Sx:A (S:B C))"),
        (b"A#<x:B>C->D;", b"(S:A (Sx:B (P:C D)))"),
        (b"f a [x:A]x y;", b"(f a (Lx:A (x y)))"),
        (b"f|[x:A]x;", b"(f |(Lx:A x))"),
        (b"A#f [x:B]x;", b"(S:A (f (Lx:B x)))"),
        (b"[x:A][y=x]{z:y}z;", b"(Lx:A (=y x (Pz:y z)))"),
        (b"([x:A]x) a;", b"((Lx:A x) a)"),
        (b"[x:A->B]x;", b"(Lx:(P:A B) x)"),
        (b"[x=[y:A]y]x;", b"(=x (Ly:A y) x)"),
    ];
    for (text, tree) in &cases {
        let got = shown(rt.alloc(), text)?;
        assert_eq!(rt; got.as_slice(), *tree, "{text:?}");
    }
    Ok(())
}

#[test]
fn each_form_of_command_has_its_tree(rt: HostRuntime) -> Result<(), Fail> {
    let cases: [(&[u8], &[u8]); 30] = [
        (b"[x:A];", b"[x:A]"),
        (b"[x,y|A];", b"[x,y|A]"),
        (b"[x=M];", b"[x=M]"),
        (b"[x=M:A->B];", b"[x=M:(P:A B)]"),
        (b"[x:A][y,z:x][w=y];", b"[x:A][y,z:x][w=y]"),
        // Bindings are a context exactly where a `;` follows them.
        (b"[x:A][y:x]y;", b"(Lx:A (Ly:x y))"),
        (b"[x:A].1;", b"refused"),
        (b"Goal A->B;", b"Goal (P:A B)"),
        (b"Goal g:A;", b"Goal g A"),
        (b"Goal g a;", b"Goal (g a)"),
        (b"Goal g;", b"Goal g"),
        (b"Intros x;", b"Intros x"),
        (b"Intros x y z;", b"Intros x,y,z"),
        (b"Refine f a;", b"Refine (f a)"),
        (b"Claim A;", b"Claim A"),
        (b"Equiv A;", b"Equiv A"),
        (b"Hnf f a;", b"Hnf (f a)"),
        (b"Normal f a;", b"Normal (f a)"),
        (b"Next 2;", b"Next 2"),
        (b"Undo 3;", b"Undo 3"),
        (b"Assumption;", b"Assumption"),
        (b"Save;", b"Save"),
        (b"Save x;", b"Save x"),
        (b"KillRef;", b"KillRef"),
        (b"Forget x;", b"Forget x"),
        (b"Discharge x;", b"Discharge x"),
        (b"Prf;", b"Prf"),
        (b"Ctxt;", b"Ctxt"),
        (b"Explicit;", b"Explicit"),
        (b"Implicit;", b"Implicit"),
    ];
    for (text, tree) in &cases {
        let got = shown(rt.alloc(), text)?;
        assert_eq!(rt; got.as_slice(), *tree, "{text:?}");
    }
    Ok(())
}

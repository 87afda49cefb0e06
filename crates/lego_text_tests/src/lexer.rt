ghost use Rattle.std.specs.Prelude.{◌≡◌, ◌≤◌, length};

use lego_base::Place;
use lego_lexer::{Cut, LexFault, Symbol, Token, TokenKind, Word, cut, lex};
use std::alloc::{AllocError, Global};
use std::test::*;

fn place(line: u32, column: u32) -> Place
    ensures { result ≡ record { line = line; column = column } }
{
    Place { line, column }
}

/// The first token of bytes that begin at 1:1, and how many there are.
fn first(alloc: Global, bytes: &[u8]) -> Result<(Token, usize), LexFault>
    requires { length bytes.now ≤ 16777216 }
{
    let tokens = lex(alloc, bytes, place(1, 1))?;
    let end = place(0, 0);
    let none = Token {
        kind: TokenKind::Name,
        place: end,
        from: 0,
        to: 0,
    };
    let token = tokens.first().copied().unwrap_or(none);
    Ok((token, tokens.len()))
}

#[test]
fn commands_end_at_the_next_semicolon_outside_comments(rt: HostRuntime) {
    let cases: [(&[u8], usize, Cut); 13] = [
        (b"", 0, Cut::Blank),
        (b" \t\r\n(* ; (* ; *) *)", 0, Cut::Blank),
        (b"[A:Prop];[B:A", 0, Cut::Command { start: 0, end: 9 }),
        (b"[A:Prop];[B:A", 9, Cut::Unended { start: 9 }),
        (b"[A:Prop];(* x", 9, Cut::OpenComment { start: 9 }),
        (b"[A:Prop];", 9, Cut::Blank),
        (b"(*;*)a(*;*);b", 0, Cut::Command { start: 5, end: 12 }),
        (b" a (* x (* y *)", 0, Cut::OpenComment { start: 3 }),
        (b"(*)", 0, Cut::OpenComment { start: 0 }),
        (b"(*)*);", 0, Cut::Command { start: 5, end: 6 }),
        (b"((*;*)", 0, Cut::Unended { start: 0 }),
        (b"\x00\xff;", 0, Cut::Command { start: 0, end: 3 }),
        (b" ; ", 0, Cut::Command { start: 1, end: 2 }),
    ];
    for (at, (bytes, from, want)) in cases.iter().enumerate() {
        assert!(rt; *from <= bytes.len());
        assert_eq!(rt; cut(bytes, *from), *want, "case {at}");
    }
}

/// `[A:Prop(*`, so many letters, and `*)];`.
fn padded(alloc: Global, letters: usize) -> Result<Vec<u8>, AllocError> {
    let mut bytes = Vec::new(alloc);
    bytes.extend_from_slice(b"[A:Prop(*")?;
    bytes.resize(letters.saturating_add(9), b'x')?;
    bytes.extend_from_slice(b"*)];")?;
    Ok(bytes)
}

#[test]
fn a_command_of_more_than_65_536_bytes_is_long(rt: HostRuntime) -> Result<(), Fail> {
    let fits = padded(rt.alloc(), 65_523)?;
    let command = Cut::Command {
        start: 0,
        end: 65_536,
    };
    assert_eq!(rt; cut(&fits, 0), command);
    let long = padded(rt.alloc(), 65_524)?;
    let command = Cut::LongCommand {
        start: 0,
        end: 65_537,
    };
    assert_eq!(rt; cut(&long, 0), command);
    Ok(())
}

#[test]
fn every_reserved_word_and_symbol_is_a_token(rt: HostRuntime) -> Result<(), Fail> {
    let alloc = rt.alloc();
    let text = b"Prop Type Goal Intros Refine Claim Next Assumption Equiv Save KillRef Undo Forget \
Discharge Prf Ctxt Hnf Normal Explicit Implicit Module Import []{}<>():;,=.#?->|";
    let words = [
        Word::Prop,
        Word::AnyType,
        Word::Goal,
        Word::Intros,
        Word::Refine,
        Word::Claim,
        Word::Next,
        Word::Assumption,
        Word::Equiv,
        Word::Save,
        Word::KillRef,
        Word::Undo,
        Word::Forget,
        Word::Discharge,
        Word::Prf,
        Word::Ctxt,
        Word::Hnf,
        Word::Normal,
        Word::Explicit,
        Word::Implicit,
        Word::Module,
        Word::Import,
    ];
    let symbols = [
        Symbol::OpenSquare,
        Symbol::CloseSquare,
        Symbol::OpenBrace,
        Symbol::CloseBrace,
        Symbol::OpenAngle,
        Symbol::CloseAngle,
        Symbol::OpenParen,
        Symbol::CloseParen,
        Symbol::Colon,
        Symbol::Semicolon,
        Symbol::Comma,
        Symbol::Equals,
        Symbol::Dot,
        Symbol::Hash,
        Symbol::Question,
        Symbol::Arrow,
        Symbol::Bar,
    ];
    let mut want = Vec::new(alloc);
    for word in words {
        want.push(TokenKind::Word(word))?;
    }
    for symbol in symbols {
        want.push(TokenKind::Symbol(symbol))?;
    }
    let mut got = Vec::new(alloc);
    for token in &lex(alloc, text, place(1, 1))? {
        got.push(token.kind)?;
    }
    assert_eq!(rt; got.as_slice(), want.as_slice());
    Ok(())
}

#[test]
fn the_longest_token_is_taken(rt: HostRuntime) -> Result<(), Fail> {
    let cases: [(&[u8], TokenKind, u32, usize); 11] = [
        (b"Propx", TokenKind::Name, 5, 1),
        (b"Props x", TokenKind::Name, 5, 2),
        (b"Typ", TokenKind::Name, 3, 1),
        (b"x'1_Z;", TokenKind::Name, 5, 2),
        (b"_", TokenKind::Name, 1, 1),
        (b"A(*x*)B", TokenKind::Name, 1, 2),
        (b"0012a", TokenKind::Number(12), 4, 2),
        (b"1000000.1", TokenKind::Number(1_000_000), 7, 3),
        (b"00000000000000000001", TokenKind::Number(1), 20, 1),
        (b"->>", TokenKind::Symbol(Symbol::Arrow), 2, 2),
        (b"==", TokenKind::Symbol(Symbol::Equals), 1, 2),
    ];
    for (at, (bytes, kind, to, count)) in cases.iter().enumerate() {
        let (token, tokens) = first(rt.alloc(), bytes)?;
        let got = (token.kind, token.from, token.to, tokens);
        assert_eq!(rt; got, (*kind, 0, *to, *count), "case {at}");
    }
    // The `*` of `*)` begins no token.
    let star = LexFault::BadByte {
        place: place(1, 3),
        byte: b'*',
    };
    assert_eq!(rt; first(rt.alloc(), b"(a*)").err(), Some(star));
    Ok(())
}

#[test]
fn places_count_lines_and_columns_in_comments_too(rt: HostRuntime) -> Result<(), Fail> {
    let text = b"a\r\n\t(* x\n (* *)*)b\n\nc";
    let want = [
        (place(7, 4), 0, 1),
        (place(9, 9), 17, 18),
        (place(11, 1), 20, 21),
    ];
    let tokens = lex(rt.alloc(), text, place(7, 4))?;
    assert_eq!(rt; tokens.len(), 3);
    for (token, (place, from, to)) in tokens.iter().zip(&want) {
        assert_eq!(rt; (token.place, token.from, token.to), (*place, *from, *to));
    }
    Ok(())
}

#[test]
fn lines_may_end_with_carriage_return_and_line_feed(rt: HostRuntime) -> Result<(), Fail> {
    let want = [
        (place(1, 1), 0, 1),
        (place(2, 1), 3, 4),
        (place(4, 2), 9, 10),
    ];
    let tokens = lex(rt.alloc(), b"a\r\nb\r\n\r\n\tc\r\n", place(1, 1))?;
    assert_eq!(rt; tokens.len(), 3);
    for (token, (place, from, to)) in tokens.iter().zip(&want) {
        assert_eq!(rt; (token.place, token.from, token.to), (*place, *from, *to));
    }
    Ok(())
}

#[test]
fn comments_hold_any_byte(rt: HostRuntime) -> Result<(), Fail> {
    let text = b"(*\xce\xbb \x00;\xff(*\xe2\x86\x92*)*)x";
    let (token, count) = first(rt.alloc(), text)?;
    assert_eq!(rt;
        (token.kind, token.place, count),
        (TokenKind::Name, place(1, 18), 1)
    );
    let fault = LexFault::BadByte {
        place: place(1, 18),
        byte: 0xce,
    };
    let text = b"(*\xce\xbb \x00;\xff(*\xe2\x86\x92*)*)\xce\xbb";
    assert_eq!(rt; first(rt.alloc(), text).err(), Some(fault));
    Ok(())
}

#[test]
fn the_first_fault_refuses(rt: HostRuntime) -> Result<(), Fail> {
    let cases: [(&[u8], LexFault); 12] = [
        (
            b"a - b",
            LexFault::BadByte {
                place: place(1, 3),
                byte: b'-',
            },
        ),
        (
            b"-",
            LexFault::BadByte {
                place: place(1, 1),
                byte: b'-',
            },
        ),
        (
            b"'a",
            LexFault::BadByte {
                place: place(1, 1),
                byte: b'\'',
            },
        ),
        (
            b"(* \xff *)\n\x00",
            LexFault::BadByte {
                place: place(2, 1),
                byte: 0,
            },
        ),
        (
            b"[A@Prop];",
            LexFault::BadByte {
                place: place(1, 3),
                byte: b'@',
            },
        ),
        (
            b"[x:Type(1000001)];",
            LexFault::BigLevel { place: place(1, 9) },
        ),
        (b"a (* b", LexFault::OpenComment { place: place(1, 3) }),
        (b"(*)", LexFault::OpenComment { place: place(1, 1) }),
        (b"a 1000001", LexFault::BigLevel { place: place(1, 3) }),
        (b"4294967297", LexFault::BigLevel { place: place(1, 1) }),
        (b"1000001 @", LexFault::BigLevel { place: place(1, 1) }),
        (
            b"@ 1000001",
            LexFault::BadByte {
                place: place(1, 1),
                byte: b'@',
            },
        ),
    ];
    for (at, (bytes, fault)) in cases.iter().enumerate() {
        let got = first(rt.alloc(), bytes).err();
        assert_eq!(rt; got, Some(*fault), "case {at}");
    }
    Ok(())
}

/// Bytes that hold a name of so many letters.
fn name_of(alloc: Global, letters: usize) -> Result<Vec<u8>, AllocError> {
    let mut bytes = Vec::new(alloc);
    bytes.resize(letters, b'n')?;
    Ok(bytes)
}

#[test]
fn a_name_of_more_than_255_bytes_is_long(rt: HostRuntime) -> Result<(), Fail> {
    let fits = name_of(rt.alloc(), 255)?;
    assert!(rt; fits.len() <= 16_777_216);
    assert_eq!(rt; first(rt.alloc(), &fits)?.0.to, 255);
    let long = name_of(rt.alloc(), 256)?;
    assert!(rt; long.len() <= 16_777_216);
    let fault = LexFault::LongName { place: place(1, 1) };
    assert_eq!(rt; first(rt.alloc(), &long).err(), Some(fault));
    Ok(())
}

#[test]
fn a_byte_is_a_blank_or_a_token_or_bad(rt: HostRuntime) -> Result<(), Fail> {
    let blanks = b"\t\n\r ";
    let symbols = b"[]{}<>():;,=.#?|";
    for byte in 0..=255_u8 {
        let is_token = byte.is_ascii_alphanumeric() || byte == b'_' || symbols.contains(&byte);
        let bad = LexFault::BadByte {
            place: place(1, 1),
            byte,
        };
        match first(rt.alloc(), &[byte]) {
            Ok((_, 0)) => assert!(rt; blanks.contains(&byte), "byte {byte}"),
            Ok((token, count)) => {
                assert!(rt; is_token, "byte {byte}");
                assert_eq!(rt; (token.to, count), (1, 1), "byte {byte}");
            }
            Err(fault) => {
                assert!(rt; !is_token && !blanks.contains(&byte), "byte {byte}");
                assert_eq!(rt; fault, bad, "byte {byte}");
            }
        }
    }
    Ok(())
}

#[test]
fn comments_nest_a_million_deep(rt: HostRuntime) -> Result<(), Fail> {
    let mut bytes = Vec::new(rt.alloc());
    for _ in 0..1_000_000 {
        bytes.extend_from_slice(b"(*")?;
    }
    for _ in 0..1_000_000 {
        bytes.extend_from_slice(b"*)")?;
    }
    bytes.push(b';')?;
    let command = Cut::Command {
        start: 4_000_000,
        end: 4_000_001,
    };
    assert_eq!(rt; cut(&bytes, 0), command);
    assert!(rt; bytes.len() <= 16_777_216);
    let (token, count) = first(rt.alloc(), &bytes)?;
    assert_eq!(rt; (token.place, count), (place(1, 4_000_001), 1));
    Ok(())
}

use lego_base::{
    Failed, MemSink, MemSource, Names, Place, Sink, Source, StdSink, StdSource, after, send,
};
use std::alloc::{AllocError, Global};
use std::io;
use std::io::{ErrorKind, Read, Write};
use std::test::*;

/// A reader and a writer that always fail, and a writer that takes nothing.
#[derive(Drop)]
struct Broken;

impl Read for Broken {
    fn read(&mut self, _: &mut [u8]) -> io::Result<usize> {
        Err(ErrorKind::Other.into())
    }
}

impl Write for Broken {
    fn write(&mut self, _: &[u8]) -> io::Result<usize> {
        Err(ErrorKind::Other.into())
    }

    fn flush(&mut self) -> io::Result<()> {
        Ok(())
    }
}

/// The first bytes of a read into four.
fn next<S: Source>(alloc: Global, source: &mut S) -> Result<Option<Vec<u8>>, AllocError> {
    let mut piece = [0; 4];
    match source.read(&mut piece) {
        Ok(count) => Ok(Some(Vec::from_slice(alloc, &piece[..count])?)),
        Err(Failed) => Ok(None),
    }
}

#[test]
fn a_memory_source_gives_its_bytes_in_pieces_and_fails_where_it_is_told_to(
    rt: HostRuntime,
) -> Result<(), Fail> {
    let alloc = rt.alloc();
    let mut source = MemSource::new(alloc, b"abcdefgh", 3, &[2, 5])?;
    let want: [Option<&[u8]>; 6] = [
        Some(b"abc"),
        None,
        Some(b"def"),
        Some(b"gh"),
        None,
        Some(b""),
    ];
    for (at, piece) in want.iter().enumerate() {
        let got = next(alloc, &mut source)?;
        assert_eq!(rt; got.as_deref(), *piece, "at call {at}");
    }
    assert_eq!(rt; source.left(), b"".as_slice());
    Ok(())
}

#[test]
fn a_memory_sink_takes_pieces_while_it_has_room(rt: HostRuntime) -> Result<(), Fail> {
    let mut sink = MemSink::new(rt.alloc(), 5, 2, &[2])?;
    let want = [Ok(2), Err(Failed), Ok(2), Ok(1), Err(Failed)];
    for (at, answer) in want.iter().enumerate() {
        assert_eq!(rt; sink.write(b"xyz"), *answer, "at call {at}");
    }
    assert_eq!(rt; sink.taken(), b"xyxyx".as_slice());
    Ok(())
}

#[test]
fn send_writes_the_whole_piece_or_a_front_of_it(rt: HostRuntime) -> Result<(), Fail> {
    let alloc = rt.alloc();
    let cases: [(usize, &[u32], Result<(), Failed>, &[u8]); 4] = [
        (9, &[], Ok(()), b"abcdefgh"),
        (8, &[4], Ok(()), b"abcdefgh"),
        (8, &[3], Err(Failed), b"abcdef"),
        (4, &[], Err(Failed), b"abcd"),
    ];
    for (room, failing, answer, taken) in &cases {
        let mut sink = MemSink::new(alloc, *room, 3, failing)?;
        assert_eq!(rt; send(&mut sink, b"abcdefgh"), *answer, "room {room}");
        assert_eq!(rt; sink.taken(), *taken, "room {room}");
    }
    let mut sink = MemSink::new(alloc, 0, 1, &[1])?;
    assert_eq!(rt; send(&mut sink, b""), Ok(()));
    Ok(())
}

#[test]
fn the_edge_passes_bytes_and_faults_on(rt: HostRuntime) -> Result<(), Fail> {
    let alloc = rt.alloc();
    let mut source = StdSource::new(b"hello".as_slice());
    assert_eq!(rt;
        next(alloc, &mut source)?.as_deref(),
        Some(b"hell".as_slice())
    );
    assert_eq!(rt; next(alloc, &mut source)?.as_deref(), Some(b"o".as_slice()));
    assert_eq!(rt; next(alloc, &mut source)?.as_deref(), Some(b"".as_slice()));
    assert!(rt; next(alloc, &mut StdSource::new(Broken))?.is_none());
    let mut written = Vec::new(alloc);
    assert_eq!(rt; send(&mut StdSink::new(&mut written), b"hello"), Ok(()));
    assert_eq!(rt; written.as_slice(), b"hello".as_slice());
    assert_eq!(rt; send(&mut StdSink::new(Broken), b"hello"), Err(Failed));
    // A writer that takes no byte has failed.
    let mut full: [u8; 3] = [0; 3];
    let mut sink = StdSink::new(full.as_mut_slice());
    assert_eq!(rt; send(&mut sink, b"hello"), Err(Failed));
    Ok(())
}

#[test]
fn places_count_lines_and_columns(rt: HostRuntime) -> Result<(), Fail> {
    let cases: [(u32, u32, &[u8], u32, u32); 5] = [
        (1, 1, b"", 1, 1),
        (1, 1, b"ab", 1, 3),
        (1, 1, b"ab\n", 2, 1),
        (3, 7, b"\r\n\n\tx", 5, 3),
        (33_554_433, 33_554_433, b"a\nb", 33_554_434, 2),
    ];
    for (line, column, bytes, line_after, column_after) in &cases {
        let place = Place {
            line: *line,
            column: *column,
        };
        let want = Place {
            line: *line_after,
            column: *column_after,
        };
        assert_eq!(rt; after(place, bytes), want, "behind {line}:{column}");
    }
    Ok(())
}

#[test]
fn names_are_numbered_by_first_sight(rt: HostRuntime) -> Result<(), Fail> {
    let mut names = Names::new(rt.alloc());
    let cases: [(&[u8], u32, u32); 6] = [
        (b"A", 0, 1),
        (b"a", 1, 2),
        (b"A", 0, 2),
        (b"x'1", 2, 3),
        (b"a", 1, 3),
        (b"x'", 3, 4),
    ];
    for (text, number, held) in &cases {
        let id = names.intern(text);
        assert_eq!(rt; id, Ok(*number), "{text:?}");
        assert_eq!(rt; names.len(), *held, "{text:?}");
        assert_eq!(rt; names.find(text), Some(*number), "{text:?}");
    }
    for (number, text) in [(0, b"A".as_slice()), (1, b"a"), (2, b"x'1"), (3, b"x'")] {
        assert!(rt; number < names.len());
        assert_eq!(rt; names.text(number), text);
    }
    assert_eq!(rt; names.find(b"b"), None);
    Ok(())
}

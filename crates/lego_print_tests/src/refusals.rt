//! The numbers and names of refusals, and their first lines.
use crate::desk::fixed;
use lego_base::Place;
use lego_level::Constraint;
use lego_print::{
    Details, Heading, Tried, cause_text, constraint_text, details_text, refusal_lines,
    refusal_text, try_text,
};
use lego_term::Level;
use std::alloc::Global;
use std::test::Fail;

/// The refusals in the order of their numbers.
const TABLE: [(Heading, &[u8]); 44] = [
    (Heading::BadByte, b"BadByte"),
    (Heading::OpenComment, b"OpenComment"),
    (Heading::LongName, b"LongName"),
    (Heading::BigLevel, b"BigLevel"),
    (Heading::Unexpected, b"Unexpected"),
    (Heading::TooDeep, b"TooDeep"),
    (Heading::Unended, b"Unended"),
    (Heading::LongCommand, b"LongCommand"),
    (Heading::NamesFull, b"NamesFull"),
    (Heading::UnknownName, b"UnknownName"),
    (Heading::UnknownGoal, b"UnknownGoal"),
    (Heading::NameInUse, b"NameInUse"),
    (Heading::NotAType, b"NotAType"),
    (Heading::NotAFunction, b"NotAFunction"),
    (Heading::NotAPair, b"NotAPair"),
    (Heading::Mismatch, b"Mismatch"),
    (Heading::Universe, b"Universe"),
    (Heading::Budget, b"Budget"),
    (Heading::TooLarge, b"TooLarge"),
    (Heading::LevelTooBig, b"LevelTooBig"),
    (Heading::Full, b"Full"),
    (Heading::Circular, b"Circular"),
    (Heading::NotSigma, b"NotSigma"),
    (Heading::Clash, b"Clash"),
    (Heading::Occurs, b"Occurs"),
    (Heading::Scope, b"Scope"),
    (Heading::HigherOrder, b"HigherOrder"),
    (Heading::Solution, b"Solution"),
    (Heading::Unsolved, b"Unsolved"),
    (Heading::NoFit, b"NoFit"),
    (Heading::CannotIntro, b"CannotIntro"),
    (Heading::NoHypothesis, b"NoHypothesis"),
    (Heading::GoalsOpen, b"GoalsOpen"),
    (Heading::NoGoal, b"NoGoal"),
    (Heading::NoProof, b"NoProof"),
    (Heading::InProof, b"InProof"),
    (Heading::NoName, b"NoName"),
    (Heading::TooFar, b"TooFar"),
    (Heading::NotDevelopment, b"NotDevelopment"),
    (Heading::IllTyped, b"IllTyped"),
    (Heading::Costly, b"Costly"),
    (Heading::ImportCycle, b"ImportCycle"),
    (Heading::NoModule, b"NoModule"),
    (Heading::WrongModule, b"WrongModule"),
];

#[test]
fn headings_are_numbered_in_order(rt: HostRuntime) -> Result<(), Fail> {
    for (at, (heading, name)) in TABLE.iter().enumerate() {
        assert!(rt;
            usize::from(heading.number()) == at + 1 && heading.name() == *name,
            "{at}"
        );
    }
    Ok(())
}

/// The first line of a refusal at line 1 and column 4.
fn line(alloc: Global, heading: Heading, details: Details<'_>) -> Result<Vec<u8>, Fail> {
    let place = Place { line: 1, column: 4 };
    let details = details_text(alloc, details)?;
    Ok(refusal_text(alloc, place, heading, details.as_slice())?)
}

#[test]
fn bytes_are_shown(rt: HostRuntime) -> Result<(), Fail> {
    let alloc = rt.alloc();
    let cases: [(u8, &[u8]); 3] = [
        (b'%', b"refused 1:4 1 BadByte %"),
        (0x7F, b"refused 1:4 1 BadByte \\x7F"),
        (0xAB, b"refused 1:4 1 BadByte \\xAB"),
    ];
    for (byte, wanted) in cases {
        let made = line(alloc, Heading::BadByte, Details::Byte(byte))?;
        assert!(rt; made.as_slice() == wanted, "{made:?}, wanted {wanted:?}");
    }
    Ok(())
}

#[test]
fn refusals_have_their_lines(rt: HostRuntime) -> Result<(), Fail> {
    let alloc = rt.alloc();
    let cases: [(Heading, Details<'_>, &[u8]); 6] = [
        (
            Heading::OpenComment,
            Details::Nothing,
            b"refused 1:4 2 OpenComment",
        ),
        (
            Heading::Unexpected,
            Details::Text(b"->"),
            b"refused 1:4 5 Unexpected ->",
        ),
        (
            Heading::LongCommand,
            Details::Count(65_537),
            b"refused 1:4 8 LongCommand 65537",
        ),
        (
            Heading::TooLarge,
            Details::Counts(9, 21),
            b"refused 1:4 19 TooLarge 9, 21",
        ),
        (
            Heading::LevelTooBig,
            Details::Count(8),
            b"refused 1:4 20 LevelTooBig 8",
        ),
        (
            Heading::Full,
            Details::Entries(65_536),
            b"refused 1:4 21 Full entries 65536",
        ),
    ];
    for (heading, details, wanted) in cases {
        let made = line(alloc, heading, details)?;
        assert!(rt; made.as_slice() == wanted, "{made:?}, wanted {wanted:?}");
    }
    Ok(())
}

#[test]
fn goals_are_numbered(rt: HostRuntime) -> Result<(), Fail> {
    let alloc = rt.alloc();
    let cases: [(Heading, Details<'_>, &[u8]); 4] = [
        (
            Heading::UnknownGoal,
            Details::Goal(4),
            b"refused 1:4 11 UnknownGoal ?4",
        ),
        (
            Heading::CannotIntro,
            Details::Intro(0, 2, 1),
            b"refused 1:4 31 CannotIntro ?0 2, 1",
        ),
        (
            Heading::NoGoal,
            Details::GoalOf(7, 2),
            b"refused 1:4 34 NoGoal ?7, 2",
        ),
        (
            Heading::NoGoal,
            Details::Count(2),
            b"refused 1:4 34 NoGoal 2",
        ),
    ];
    for (heading, details, wanted) in cases {
        let made = line(alloc, heading, details)?;
        assert!(rt; made.as_slice() == wanted, "{made:?}, wanted {wanted:?}");
    }
    Ok(())
}

#[test]
fn terms_stand_in_details(rt: HostRuntime) -> Result<(), Fail> {
    let alloc = rt.alloc();
    let made = line(alloc, Heading::NotAType, Details::Typing(b"a", b"A"))?;
    assert!(rt;
        made.as_slice() == b"refused 1:4 13 NotAType a : A".as_slice(),
        "{made:?}"
    );
    let made = line(alloc, Heading::Mismatch, Details::Wanted(b"a", b"A", b"B"))?;
    assert!(rt;
        made.as_slice() == b"refused 1:4 16 Mismatch a : A, wanted B".as_slice(),
        "{made:?}"
    );
    let made = line(alloc, Heading::Clash, Details::Sides(b"A", b"B"))?;
    assert!(rt;
        made.as_slice() == b"refused 1:4 24 Clash A, B".as_slice(),
        "{made:?}"
    );
    Ok(())
}

#[test]
fn constraints_have_lines(rt: HostRuntime) -> Result<(), Fail> {
    let alloc = rt.alloc();
    let place = Place {
        line: 1,
        column: 29,
    };
    let made = constraint_text(alloc, Some(place), fixed(3), fixed(2))?;
    assert!(rt;
        made.as_slice() == b"  1:29: 3 <= 2\n".as_slice(),
        "{made:?}"
    );
    Ok(())
}

#[test]
fn levels_of_variables_are_shown(rt: HostRuntime) -> Result<(), Fail> {
    let alloc = rt.alloc();
    let low = Level {
        base: Some(4),
        plus: 1,
    };
    let high = Level {
        base: Some(0),
        plus: 0,
    };
    let made = constraint_text(alloc, None, low, high)?;
    assert!(rt;
        made.as_slice() == b"  implied: u4+1 <= u0\n".as_slice(),
        "{made:?}"
    );
    Ok(())
}

#[test]
fn tries_have_lines(rt: HostRuntime) -> Result<(), Fail> {
    let alloc = rt.alloc();
    let made = try_text(
        alloc,
        Tried::Arguments(0),
        Heading::Mismatch,
        b"a : A, wanted B",
    )?;
    assert!(rt;
        made.as_slice() == b"  0: Mismatch a : A, wanted B\n".as_slice(),
        "{made:?}"
    );
    let made = try_text(alloc, Tried::Hypothesis(b"h"), Heading::Universe, b"")?;
    assert!(rt;
        made.as_slice() == b"  h: Universe\n".as_slice(),
        "{made:?}"
    );
    let made = cause_text(alloc, Heading::NoFit, b"")?;
    assert!(rt; made.as_slice() == b"NoFit".as_slice(), "{made:?}");
    Ok(())
}

#[test]
fn refusals_have_the_lines_of_their_cycles(rt: HostRuntime) -> Result<(), Fail> {
    let alloc = rt.alloc();
    let place = Place {
        line: 1,
        column: 29,
    };
    let constraint = Constraint {
        low: fixed(3),
        high: fixed(2),
        place: Some(place),
    };
    let made = refusal_lines(alloc, place, Heading::Universe, b"", &[constraint])?;
    let wanted = b"refused 1:29 17 Universe\n  1:29: 3 <= 2\n".as_slice();
    assert!(rt; made.as_slice() == wanted, "{made:?}, wanted {wanted:?}");
    let made = refusal_lines(alloc, place, Heading::NotAType, b"a : A", &[])?;
    let wanted = b"refused 1:29 13 NotAType a : A\n".as_slice();
    assert!(rt; made.as_slice() == wanted, "{made:?}, wanted {wanted:?}");
    Ok(())
}

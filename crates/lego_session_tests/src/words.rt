//! The option words: what they ask for, and the first word that is wrong.

use lego_words::{Options, WordsFault, read_words};
use std::alloc::Global;
use std::test::*;

/// The words of these texts.
fn words(alloc: Global, texts: &[&str]) -> Result<Vec<String>, Fail> {
    let mut words = Vec::new(alloc);
    for text in texts {
        words.push(String::from_str(alloc, text)?)?;
    }
    Ok(words)
}

/// What these words ask for.
fn read(alloc: Global, texts: &[&str]) -> Result<Result<Options, WordsFault>, Fail> {
    let words = words(alloc, texts)?;
    Ok(read_words(alloc, words.as_slice()))
}

#[test]
fn options_stand_in_any_order(rt: HostRuntime) -> Result<(), Fail> {
    let alloc = rt.alloc();
    let cases: [(&[&str], u64, bool); 10] = [
        (&[], 100_000, false),
        (&["--stop"], 100_000, true),
        (&["--steps", "3"], 3, false),
        (&["--steps=4"], 4, false),
        (&["--steps", "1", "--stop"], 1, true),
        (&["--stop", "--steps", "00000001"], 1, true),
        (&["--stop", "--steps=10000000"], 10_000_000, true),
        (&["--steps=00000700", "--stop"], 700, true),
        (&["--steps", "10000000"], 10_000_000, false),
        (&["--steps", "99999", "--stop"], 99_999, true),
    ];
    for (texts, steps, stop) in cases {
        let answer = read(alloc, texts)?;
        let Ok(options) = answer else {
            return Err(Fail::new("refused"));
        };
        assert_eq!(rt; options.steps, steps, "{texts:?}");
        assert_eq!(rt; options.stop, stop, "{texts:?}");
    }
    Ok(())
}

#[test]
fn usage_points_at_the_first_wrong_word(rt: HostRuntime) -> Result<(), Fail> {
    let alloc = rt.alloc();
    let cases: [(&[&str], u32); 25] = [
        (&["--steps"], 1),
        (&["--stop", "--steps"], 2),
        (&["--steps", "0"], 1),
        (&["--steps", "10000001"], 1),
        (&["--steps", "000000001"], 1),
        (&["--steps", ""], 1),
        (&["--steps", "+5"], 1),
        (&["--steps", "-5"], 1),
        (&["--steps", "5x"], 1),
        (&["--steps", "--stop"], 1),
        (&["--steps="], 0),
        (&["--steps=0"], 0),
        (&["--steps=10000001"], 0),
        (&["--stop=1"], 0),
        (&["--stop", "--stop"], 1),
        (&["--steps=1", "--steps=1"], 1),
        (&["--steps", "1", "--steps", "1"], 2),
        (&["--steps", "1", "--steps"], 2),
        (&["--steps", "1", "--stop", "--stop"], 3),
        (&["--steps", "1", "--stop", "x"], 3),
        (&["--help"], 0),
        (&["--"], 0),
        (&[""], 0),
        (&["--sample", "5"], 0),
        (&["--stop", "--sample=5"], 1),
    ];
    for (texts, wrong) in cases {
        let answer = read(alloc, texts)?;
        let Err(WordsFault::Usage { index }) = answer else {
            return Err(Fail::new("not refused"));
        };
        assert_eq!(rt; index, wrong, "{texts:?}");
    }
    Ok(())
}

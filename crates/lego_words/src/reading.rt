//! What the words ask for.
ghost use Rattle.std.specs.Prelude.{IfOk, IfErr};
ghost use Rattle.lego_words.specs.Words.{AreWritten, texts};
ghost use Rattle.lego_words.specs.Faults.{IsFault};

use crate::form::wrong_word;
use crate::options::{Options, WordsFault};
use crate::values::options_of;
use std::alloc::Global;

/// What the words ask for: a list of `--steps N`, `--steps=N` and `--stop`, each at most once,
/// in any order. N is one to eight decimal digits, of a value from 1 to 10,000,000; without
/// it the steps are 100,000.
///
/// # Errors
///
/// `Usage` exactly where the words aren't of that form. `Memory` where they are, and there isn't
/// enough memory to take their values.
pub fn read_words(alloc: Global, words: &[String]) -> Result<Options, WordsFault>
    ensures ok { IfOk result (λ options. AreWritten (texts words.now) options) }
    ensures cause { IfErr result (λ fault. IsFault (texts words.now) fault) }
{
    if let Some(index) = wrong_word(words) {
        return Err(WordsFault::Usage { index });
    }
    let Ok(options) = options_of(alloc, words) else {
        return Err(WordsFault::Memory);
    };
    Ok(options)
}

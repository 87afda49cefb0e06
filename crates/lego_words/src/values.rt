//! The values of words of the written form.
ghost use Rattle.std.specs.Prelude.{◌≡◌, ℕ, codes, IfOk, IfErr};
ghost use Rattle.clap.specs.Words.{first_value, found_of, kind_of};
ghost use Rattle.clap.specs.declared.error.kind.ErrorKind.TheVariants.{OutOfMemory};
ghost use Rattle.lego_words.specs.Words.{AreWritten, texts};
ghost use Rattle.lego_words.specs.private.Gives.{AsksSteps, Gives};

use crate::number::steps_of;
use crate::options::Options;
use clap::{Arg, ArgAction, ArgMatches, Command, Error};
use std::alloc::Global;

/// The steps where none are given.
const DEFAULT_STEPS: u64 = 100_000;

/// What words of the written form ask for. On such words, only want of memory fails.
pub(crate) fn options_of(alloc: Global, words: &[String]) -> Result<Options, Error>
    ensures ok { (asked : Options) → AreWritten (texts words.now) asked → IfOk result (λ options. options ≡ asked) }
    ensures err { (asked : Options) → AreWritten (texts words.now) asked → IfErr result (λ error. kind_of error ≡ OutOfMemory) }
{
    let matches = option_matches(alloc, words)?;
    Ok(Options {
        steps: steps_among(&matches),
        stop: matches.get_flag("stop"),
    })
}

/// What stands in words of the written form for each option.
fn option_matches<'a>(alloc: Global, words: &'a [String]) -> Result<ArgMatches<'a>, Error>
    ensures ok { (asked : Options) → AreWritten (texts words.now) asked → IfOk result (λ matches. Gives matches asked) }
    ensures err { (asked : Options) → AreWritten (texts words.now) asked → IfErr result (λ error. kind_of error ≡ OutOfMemory) }
{
    let steps = Arg::new(alloc, "steps").long("steps");
    let stop = Arg::new(alloc, "stop")
        .long("stop")
        .action(ArgAction::SetTrue);
    let command = Command::new(alloc, "lego")
        .no_binary_name(true)
        .arg(steps)?
        .arg(stop)?;
    command.try_get_matches_from(words)
}

/// The steps that were given, or the default.
fn steps_among(matches: &ArgMatches<'_>) -> u64
    ensures { (n : ℕ) → AsksSteps (first_value (found_of matches.now) (codes "steps")) n → result ≡ n }
{
    match matches.get_str("steps") {
        Some(text) => steps_of(text).unwrap_or(DEFAULT_STEPS),
        None => DEFAULT_STEPS,
    }
}

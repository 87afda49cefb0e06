//! Runs a script from standard input, and writes its answers to standard output.
#![tactic(auto)]

ghost use Rattle.std.specs.Prelude.{◌≡◌, ℕ, drop, IfOk, IfErr, IsErr, IsOk};
ghost use Rattle.std.specs.IoError.{error_kind};
ghost use Rattle.lego_words.specs.Words.{IsUsage, texts};
ghost use Rattle.lego.specs.Program.{EndsRun, EndsWithoutWords};

use lego_base::{Sink, Source, StdSink, StdSource};
use lego_session::{Status, run};
use std::alloc::Global;
use std::env::Env;
use std::io::ErrorKind;
use std::process::ExitCode;
use std::{env, io};

/// The exit status where the system refuses the words for another cause than memory.
const NO_WORDS: u8 = 9;

fn main(rt: HostRuntime) -> ExitCode {
    let mut script = StdSource::new(rt.stdin());
    let mut out = StdSink::new(rt.stdout());
    let words = words(&rt);
    ExitCode::from(exit_status(rt.alloc(), words, &mut script, &mut out))
}

/// The words of the command line, of which the first is the program's name.
fn words<R: Env + AllocGlobal>(rt: &R) -> io::Result<Vec<String>> {
    let mut words = Vec::new(rt.alloc());
    for word in env::args(rt)? {
        words.push(word)?;
    }
    Ok(words)
}

/// Runs a script, as the words behind the program's name ask for it, and gives the number of the
/// run's status; where the system refused the words, 5 for want of memory and 9 for any other
/// cause.
fn exit_status<S: Source, K: Sink>(
    alloc: Global,
    words: io::Result<Vec<String>>,
    script: &mut S,
    out: &mut K,
) -> u8
    ensures ran { IfOk words (λ all. EndsRun (texts (drop 1 all.items)) (S.left script.old) (S.left script.new) (S.faults script.old) (S.faults script.new) (K.taken out.old) (K.taken out.new) (K.faults out.old) (K.faults out.new) result) }
    ensures untouched { IfOk words (λ all. (index : ℕ) → IsUsage (texts (drop 1 all.items)) index → script.new ≡ script.old) }
    ensures refused { IfErr words (λ error. EndsWithoutWords (error_kind error) result) }
    ensures unread { IsErr words → script.new ≡ script.old }
    ensures silent { IsErr words → out.new ≡ out.old }
{
    match words {
        Ok(words) => run(alloc, behind_name(&words), script, out).code(),
        Err(error) => match error.kind() {
            ErrorKind::OutOfMemory => Status::Memory.code(),
            _ => NO_WORDS,
        },
    }
}

/// The words behind the first.
fn behind_name(words: &[String]) -> &[String]
    ensures { result.now ≡ drop 1 words.now }
{
    if words.is_empty() { words } else { &words[1..] }
}

//! The run of a script: its commands are answered as they are read, and the development follows.
ghost use Rattle.std.specs.Prelude.{◌≡◌, ◌≢◌, ℕ, ◌⊎◌, OnOk, OnErr};
ghost use Rattle.std.specs.Io.KnownBytes.{Appends};
ghost use Rattle.lego_base.specs.Bytes.{AppendsFront};
ghost use Rattle.lego_base.specs.Causes.{HasCause, Rose};
ghost use Rattle.lego_words.specs.Words.{AreWritten, IsUsage, texts};
ghost use Rattle.lego_words.specs.declared.options.Options.{Options as Asked};
ghost use Rattle.lego_session.specs.Outcomes.{Outcome, UsageOutcome, usage_line, IsAcceptable};
ghost use Rattle.lego_session.specs.private.Progress.{IsCounted};

use crate::gathered::Gathered;
use crate::progress::Progress;
use crate::status::Status;
use itoa::Buffer;
use lego_base::{Failed, Sink, Source, send};
use lego_words::{Options, WordsFault, one_meaning, one_usage, read_words};
use std::alloc::Global;

/// The most bytes of one read.
const PIECE: usize = 4096;

/// Runs the commands of a script.
fn run_script<S: Source, K: Sink>(
    alloc: Global,
    options: Options,
    script: &mut S,
    out: &mut K,
) -> Status
    ensures output { Outcome options.steps options.stop (S.left script.old) (S.left script.new) (K.taken out.old) (K.taken out.new) result }
    ensures read { result ≡ Status.ReadFault → Rose (S.faults script.old) (S.faults script.new) }
    ensures write { result ≡ Status.WriteFault → Rose (K.faults out.old) (K.faults out.new) }
    ensures source { result ≢ Status.ReadFault → S.faults script.new ≡ S.faults script.old }
    ensures sink { result ≢ Status.WriteFault → K.faults out.new ≡ K.faults out.old }
{
    let mut progress = Progress::new(alloc, options);
    let mut gathered = Gathered::new(alloc);
    let mut piece = [0u8; PIECE];
    loop {
        let rest = progress.rest();
        let Ok(count) = script.read(&mut piece) else {
            return Status::ReadFault;
        };
        if count == 0 {
            return progress.finish(alloc, rest, &mut gathered, out);
        }
        if let Err(status) = progress.pass(&piece[..count], &mut gathered, out) {
            return status;
        }
    }
}

/// Writes the line that wrong words are answered, of which the first has this index.
fn send_usage<K: Sink>(index: u32, out: &mut K) -> Result<(), Failed>
    ensures all { OnOk result (Appends (K.taken out.old) (K.taken out.new) (usage_line index)) }
    ensures front { OnErr result (AppendsFront (K.taken out.old) (K.taken out.new) (usage_line index)) }
    ensures cause { HasCause (K.faults out.old) (K.faults out.new) result }
{
    let mut digits = Buffer::new();
    send(out, b"usage ")?;
    send(out, digits.format(index).as_bytes())?;
    send(out, b"\n")
}

/// Refuses words, of which the first wrong one has this index.
fn refuse_words<K: Sink>(index: u32, out: &mut K) -> Status
    ensures output { UsageOutcome index (K.taken out.old) (K.taken out.new) result }
    ensures write { result ≡ Status.WriteFault → Rose (K.faults out.old) (K.faults out.new) }
    ensures sink { result ≢ Status.WriteFault → K.faults out.new ≡ K.faults out.old }
    ensures read { result ≢ Status.ReadFault }
{
    match send_usage(index, out) {
        Ok(()) => Status::Usage,
        Err(Failed) => Status::WriteFault,
    }
}

/// Runs a script, as the words behind a program's name ask for it: commands are answered one
/// after the other, each when its end was read, and then what stands behind the last `;` is
/// refused and the development is written, which reads back as the last entries. A script has at
/// most 16,777,216 bytes, and is read in pieces of at most 4,096. With `--stop` a refused command
/// ends the run, and no development is written.
pub fn run<S: Source, K: Sink>(
    alloc: Global,
    words: &[String],
    script: &mut S,
    out: &mut K,
) -> Status
    // What was taken is the output of a run over the bytes that were read, or a front of it.
    ensures output { (asked : Asked) → AreWritten (texts words.now) asked → Outcome asked.steps asked.stop (S.left script.old) (S.left script.new) (K.taken out.old) (K.taken out.new) result }
    // Where the words are not of the written form it is one line, and the source is not touched.
    ensures usage { (index : ℕ) → IsUsage (texts words.now) index → UsageOutcome index (K.taken out.old) (K.taken out.new) result }
    ensures untouched { (index : ℕ) → IsUsage (texts words.now) index → script.new ≡ script.old }
    // A fault is answered exactly where one was counted in this call.
    ensures read { result ≡ Status.ReadFault → Rose (S.faults script.old) (S.faults script.new) }
    ensures write { result ≡ Status.WriteFault → Rose (K.faults out.old) (K.faults out.new) }
    ensures source { result ≢ Status.ReadFault → S.faults script.new ≡ S.faults script.old }
    ensures sink { result ≢ Status.WriteFault → K.faults out.new ≡ K.faults out.old }
    // Where no fault is counted and each command is accepted, only memory can be wanting.
    ensures complete { (asked : Asked) → AreWritten (texts words.now) asked → IsAcceptable asked.steps asked.stop (S.left script.old)
        → (Rose (S.faults script.old) (S.faults script.new) → ⊥)
        → (Rose (K.faults out.old) (K.faults out.new) → ⊥)
        → (result ≡ Status.Accepted) ⊎ (result ≡ Status.Memory) }
{
    // So what the words ask for, or the first wrong one, is one thing.
    one_meaning();
    one_usage();
    match read_words(alloc, words) {
        Ok(options) => run_script(alloc, options, script, out),
        Err(fault) => match fault {
            WordsFault::Usage { index } => refuse_words(index, out),
            WordsFault::Memory => Status::Memory,
        },
    }
}

//! Runs each case of its standard input as a script of lego, and prints what the run wrote and its status.
//!
//! A case is a line with its name, a blank and the number of the script's bytes, and then these bytes.
#![tactic(auto)]

use lego_base::{Failed, MemSink, MemSource, Sink, StdSink, send};
use lego_session::{Status, run};
use std::alloc::{AllocError, Global};
use std::io::Read;

/// The most bytes of one read of a script.
const PIECE: usize = 4096;

/// Room for what a run writes.
const ROOM: usize = 1_000_000;

/// Why the cases were not all run.
#[derive(Debug, Clone, Copy, PartialEq, Eq, Drop)]
enum ExamplesFault {
    /// The input is no list of cases.
    Case,
    /// The input could not be read.
    Read,
    /// The output could not be written.
    Write,
    /// Memory ran out.
    Memory,
}

impl From<AllocError> for ExamplesFault {
    fn from(_: AllocError) -> ExamplesFault {
        ExamplesFault::Memory
    }
}

impl From<Failed> for ExamplesFault {
    fn from(_: Failed) -> ExamplesFault {
        ExamplesFault::Write
    }
}

fn main(rt: HostRuntime) -> Result<(), ExamplesFault> {
    let mut input = Vec::new(rt.alloc());
    let mut source = rt.stdin();
    if source.read_to_end(&mut input).is_err() {
        return Err(ExamplesFault::Read);
    }
    let mut out = StdSink::new(rt.stdout());
    run_cases(rt.alloc(), &input, &mut out)
}

/// Runs the cases one after the other.
fn run_cases<K: Sink>(alloc: Global, input: &[u8], out: &mut K) -> Result<(), ExamplesFault> {
    let mut rest = input;
    for _ in 0..u64::MAX {
        if rest.is_empty() {
            return Ok(());
        }
        let Some(case) = first_case(rest) else {
            return Err(ExamplesFault::Case);
        };
        send_run(alloc, &case, out)?;
        rest = case.rest;
    }
    Ok(())
}

/// A case, and the input behind it.
#[derive(Clone, Copy)]
struct Case<'a> {
    name: &'a str,
    script: &'a [u8],
    rest: &'a [u8],
}

/// The case with which the input begins.
fn first_case(input: &[u8]) -> Option<Case<'_>> {
    let end = input.iter().position(|byte| *byte == b'\n')?;
    let (heading, behind) = input.split_at_checked(end)?;
    let (_, behind) = behind.split_at_checked(1)?;
    let Ok(heading) = str::from_utf8(heading) else {
        return None;
    };
    let (name, size) = heading.split_once(' ')?;
    let Ok(size) = size.parse::<usize>() else {
        return None;
    };
    let (script, rest) = behind.split_at_checked(size)?;
    Some(Case { name, script, rest })
}

/// Runs a case, and writes its name, what the run wrote, and the run's status.
fn send_run<K: Sink>(alloc: Global, case: &Case<'_>, out: &mut K) -> Result<(), ExamplesFault> {
    let mut script = MemSource::new(alloc, case.script, PIECE, &[])?;
    let mut written = MemSink::new(alloc, ROOM, ROOM, &[])?;
    let status = run(alloc, &[], &mut script, &mut written);
    send(out, b"== ")?;
    send(out, case.name.as_bytes())?;
    send(out, b"\n")?;
    send(out, written.taken())?;
    send(out, status_line(status).as_bytes())?;
    Ok(())
}

/// The line of a status.
fn status_line(status: Status) -> &'static str {
    match status {
        Status::Accepted => "status 0\n",
        Status::Refused => "status 1\n",
        Status::Usage => "status 2\n",
        Status::ReadFault => "status 3\n",
        Status::WriteFault => "status 4\n",
        Status::Memory => "status 5\n",
        Status::OpenProof => "status 6\n",
        Status::TooLong => "status 7\n",
    }
}

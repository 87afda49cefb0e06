//! Runs workloads of terms, of reduction, of levels and of contexts, each named by a word and sized
//! by the next word, and prints what each came to.
#![tactic(auto)]

mod comparison;
mod contexts;
mod development;
mod fault;
mod levels;
mod workload;

use fault::BenchFault;
use std::alloc::{AllocGlobal, Global};
use std::env;
use std::env::Env;
use workload::{Outcome, run_workload};

fn main(rt: HostRuntime) -> Result<(), BenchFault> {
    let mut waiting: Option<String> = None;
    for size in words(&rt)? {
        let Some(name) = waiting.take() else {
            waiting = Some(size);
            continue;
        };
        let name = name.as_str();
        let size = size.as_str();
        let outcome = sized(rt.alloc(), name, size)?;
        if println!(rt; "{name} {size}: {outcome}").is_err() {
            return Err(BenchFault::Write);
        }
    }
    Ok(())
}

/// Runs the workload of this name and written size.
fn sized(alloc: Global, name: &str, size: &str) -> Result<Outcome, BenchFault> {
    let Ok(size) = size.parse::<u32>() else {
        return Err(BenchFault::Usage);
    };
    run_workload(alloc, name, size)
}

/// The words behind the program's name.
fn words<R: Env + AllocGlobal>(rt: &R) -> Result<Vec<String>, BenchFault> {
    let mut all = Vec::new(rt.alloc());
    let Ok(given) = env::args(rt) else {
        return Err(BenchFault::Usage);
    };
    for word in given.skip(1) {
        if all.push(word).is_err() {
            return Err(BenchFault::Memory);
        }
    }
    Ok(all)
}

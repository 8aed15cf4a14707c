//! The program `session_bench`: measures what a frame costs in a whole session.
#![tactic(auto)]

mod capture;
mod chain_texts;
mod cost;
mod sessions;

use onvm_base::NoMemory;
use sessions::measure;
use std::process::ExitCode;
use std::sync::Wait;
use std::thread::Threads;
use std::{env, time};

fn main(rt: HostRuntime) -> ExitCode {
    let Some(rounds) = rounds(&rt) else {
        let _ = println!(rt; "usage: session_bench ROUNDS");
        return ExitCode::from(2);
    };
    if measure_all(&rt, &rt, rounds).is_err() {
        let _ = println!(rt; "no memory");
        return ExitCode::FAILURE;
    }
    ExitCode::SUCCESS
}

// The one word behind the program's name, as a number above 0.
fn rounds(rt: &HostRuntime) -> Option<u32> {
    let words: Vec<String> = env::args(rt).ok()?.skip(1).collect(rt.alloc()).ok()?;
    match words.as_slice() {
        [word] => word.parse().ok().filter(|rounds| *rounds > 0),
        _ => None,
    }
}

// `wait` is the same runtime: only here it is known that it may wait, and start threads.
fn measure_all<R: Threads + Wait + time::Clock + Sync>(
    rt: &HostRuntime,
    wait: &R,
    rounds: u32,
) -> Result<(), NoMemory> {
    for functions in [1, 3, 16] {
        measure(rt, wait, functions, rounds)?;
    }
    Ok(())
}

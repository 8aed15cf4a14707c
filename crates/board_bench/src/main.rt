//! The program `board_bench`: measures what the calls of a board cost, and a whole hop.
#![tactic(auto)]

mod boards;
mod calls;
mod cost;
mod hops;
mod locked;

use boards::{measure_calls, measure_hops, measure_mails};
use locked::cost_of_locked;
use onvm_base::NoMemory;
use onvm_files::SysClock;
use std::env;
use std::process::ExitCode;

fn main(rt: HostRuntime) -> ExitCode {
    let Some(rounds) = rounds(&rt) else {
        let _ = println!(rt; "usage: board_bench ROUNDS");
        return ExitCode::from(2);
    };
    if measure_all(&rt, rounds).is_err() {
        let _ = println!(rt; "no memory");
        return ExitCode::FAILURE;
    }
    ExitCode::SUCCESS
}

// The one word behind the program's name, as a number above 0.
fn rounds(rt: &HostRuntime) -> Option<u32> {
    let words: Vec<String> = env::args(rt).ok()?.skip(1).collect(rt.alloc()).ok()?;
    match words.as_slice() {
        [word] => word.parse().ok().filter(|rounds| *rounds > 0),
        _ => None,
    }
}

// Prints what calls cost on boards of one function and of 16, and a hop beside its locked operations.
fn measure_all(rt: &HostRuntime, rounds: u32) -> Result<(), NoMemory> {
    let clock = SysClock::make(*rt);
    let locked = cost_of_locked(rt.alloc(), &clock, rounds)?;
    locked.print(rt, "the four locked operations of a hop alone");
    for functions in [1, 16] {
        let _ = println!(rt; "functions: {functions}");
        measure_calls(rt, functions, rounds)?;
        measure_mails(rt, functions, rounds)?;
        let hop = measure_hops(rt, functions, rounds)?;
        hop.print(rt, "hop in place");
        let hundredths = hop.least().saturating_mul(100) / locked.least().max(1);
        let _ = println!(rt;
            "a hop takes {}.{}{} times its four locked operations",
            hundredths / 100,
            hundredths / 10 % 10,
            hundredths % 10
        );
    }
    Ok(())
}

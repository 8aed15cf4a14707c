//! The program `flow_bench`: measures what the chain of a frame costs, by rules and by flows.
#![tactic(auto)]

mod chain_texts;
mod cost;
mod frames;

use chain_file::read;
use chain_texts::text_of;
use cost::{Cost, cost_of, tenths};
use onvm_base::NoMemory;
use onvm_files::SysClock;
use std::env;
use std::process::ExitCode;

fn main(rt: HostRuntime) -> ExitCode {
    let Some(rounds) = rounds(&rt) else {
        let _ = println!(rt; "usage: flow_bench ROUNDS");
        return ExitCode::from(2);
    };
    if measure_all(&rt, rounds).is_err() {
        let _ = println!(rt; "no memory");
        return ExitCode::FAILURE;
    }
    ExitCode::SUCCESS
}

// The one word behind the program's name, as a number above 0.
fn rounds(rt: &HostRuntime) -> Option<u32> {
    let words: Vec<String> = env::args(rt).ok()?.skip(1).collect(rt.alloc()).ok()?;
    match words.as_slice() {
        [word] => word.parse().ok().filter(|rounds| *rounds > 0),
        _ => None,
    }
}

fn measure_all(rt: &HostRuntime, rounds: u32) -> Result<(), NoMemory> {
    measure(rt, "1 rule", 1, false, rounds)?;
    measure(rt, "16 rules", 16, false, rounds)?;
    measure(rt, "256 rules", 256, false, rounds)?;
    measure(rt, "256 rules of 4 ports and 2 types", 256, true, rounds)
}

// Prints what a frame's chain costs by so many rules, of which the last alone holds. They are of one
// type, and of all ports, or `parted`.
fn measure(
    rt: &HostRuntime,
    name: &str,
    rules: u16,
    parted: bool,
    rounds: u32,
) -> Result<(), NoMemory> {
    let text = text_of(rt.alloc(), rules, parted)?;
    let Ok(plan) = read(rt.alloc(), text.as_bytes(), 4, &[]) else {
        return Err(NoMemory);
    };
    let cost = cost_of(rt.alloc(), &SysClock::make(*rt), &plan, rounds)?;
    say(rt, name, &cost);
    Ok(())
}

fn say(rt: &HostRuntime, name: &str, cost: &Cost) {
    let first = tenths(cost.first);
    let compiled = tenths(cost.compiled);
    let known = tenths(cost.known);
    let new = tenths(cost.new);
    let _ = println!(rt;
        "{name}: first {}.{} ns, compiled {}.{} ns, known flow {}.{} ns, new flow {}.{} ns, sum {}",
        first / 10,
        first % 10,
        compiled / 10,
        compiled % 10,
        known / 10,
        known % 10,
        new / 10,
        new % 10,
        cost.sum
    );
}

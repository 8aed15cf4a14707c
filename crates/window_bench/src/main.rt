//! The program `window_bench`: measures what a full window costs per sample.
#![tactic(auto)]

mod cost;
mod course;

use cost::cost_of;
use course::Course;
use onvm_base::NoMemory;
use onvm_files::SysClock;
use std::env;
use std::process::ExitCode;

fn main(rt: HostRuntime) -> ExitCode {
    let Some(rounds) = rounds(&rt) else {
        let _ = println!(rt; "usage: window_bench ROUNDS");
        return ExitCode::from(2);
    };
    if measure_all(&rt, rounds).is_err() {
        let _ = println!(rt; "no memory");
        return ExitCode::FAILURE;
    }
    ExitCode::SUCCESS
}

// The one word behind the program's name, as a number above 0.
fn rounds(rt: &HostRuntime) -> Option<u32> {
    let words: Vec<String> = env::args(rt).ok()?.skip(1).collect(rt.alloc()).ok()?;
    match words.as_slice() {
        [word] => word.parse().ok().filter(|rounds| *rounds > 0),
        _ => None,
    }
}

fn measure_all(rt: &HostRuntime, rounds: u32) -> Result<(), NoMemory> {
    measure(rt, "equal times", Course::Equal, rounds)?;
    measure(rt, "rising times", Course::Rising, rounds)?;
    measure(rt, "falling times", Course::Falling, rounds)?;
    measure(rt, "random times", Course::Random, rounds)
}

// Prints what a full window costs for samples whose times take this course.
fn measure(rt: &HostRuntime, name: &str, course: Course, rounds: u32) -> Result<(), NoMemory> {
    let clock = SysClock::make(*rt);
    let cost = cost_of(rt.alloc(), &clock, course, rounds)?;
    let add = cost.per_add();
    let both = cost.per_add_and_median();
    let _ = println!(rt;
        "{name}: add {}.{} ns, with arrivals and median {}.{} ns, sum {}",
        add / 10,
        add % 10,
        both / 10,
        both % 10,
        cost.sum
    );
    Ok(())
}

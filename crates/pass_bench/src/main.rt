//! The program `pass_bench`: measures what passes of roles cost for each frame, beside the board's own
//! steps and the pulls of frames, and what passes of the tick role cost.
#![tactic(auto)]

mod cost;
mod frames;
mod handlers;
mod passes;
mod plans;
mod receiving;
mod roles;
mod steps;
mod stock;
mod ticks;

use handlers::measure_cores;
use onvm_base::NoMemory;
use onvm_board::Board;
use onvm_core::Layout;
use onvm_files::SysClock;
use passes::cost_of_passes;
use plans::plan;
use receiving::measure_receiving;
use std::env;
use std::process::ExitCode;
use steps::cost_of_steps;
use ticks::measure_ticks;

fn main(rt: HostRuntime) -> ExitCode {
    let Some(rounds) = rounds(&rt) else {
        let _ = println!(rt; "usage: pass_bench ROUNDS");
        return ExitCode::from(2);
    };
    if measure_all(&rt, rounds).is_err() {
        let _ = println!(rt; "no memory");
        return ExitCode::FAILURE;
    }
    ExitCode::SUCCESS
}

// The one word behind the program's name, as a number above 0.
fn rounds(rt: &HostRuntime) -> Option<u32> {
    let words: Vec<String> = env::args(rt).ok()?.skip(1).collect(rt.alloc()).ok()?;
    match words.as_slice() {
        [word] => word.parse().ok().filter(|rounds| *rounds > 0),
        _ => None,
    }
}

fn measure_all(rt: &HostRuntime, rounds: u32) -> Result<(), NoMemory> {
    measure(rt, rounds)?;
    measure_cores(rt, 1, rounds)?;
    measure_cores(rt, 4, rounds)?;
    measure_cores(rt, 16, rounds)?;
    measure_receiving(rt, rounds)?;
    for functions in [2, 8, 32] {
        measure_ticks(rt, functions, rounds)?;
    }
    Ok(())
}

// Prints what a frame costs that transmit passes move and send, and the same by the board's own steps.
fn measure(rt: &HostRuntime, rounds: u32) -> Result<(), NoMemory> {
    let clock = SysClock::make(*rt);
    let plan = plan(rt.alloc())?;
    let layout = Layout::of(&plan);
    let (board, mut lead) = Board::make(rt.alloc(), &layout)?;
    let passes = cost_of_passes(rt.alloc(), &plan, &board, &mut lead, &clock, rounds)?;
    let (board, mut lead) = Board::make(rt.alloc(), &layout)?;
    let steps = cost_of_steps(rt.alloc(), &plan, &board, &mut lead, &clock, rounds)?;
    steps.handled.print(rt, "look, pop, crumb and push alone");
    steps.onward.moved.print(rt, "pop, cursor and push alone");
    passes
        .moved
        .print(rt, "a frame that a transmit pass moves to a lane");
    steps.onward.sent.print(rt, "pop and give alone");
    passes.sent.print(rt, "a frame that a transmit pass sends");
    Ok(())
}

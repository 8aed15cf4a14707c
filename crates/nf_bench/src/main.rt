//! The program `nf_bench`: measures what functions cost per frame.
#![tactic(auto)]

ghost use Rattle.std.specs.Prelude.{◌≤◌, length};
ghost use Rattle.nf_bench.specs.declared.frames.TheConstants.{FRAME_BYTES, TARGET_BEFORE_END};

mod burst;
mod flows;
mod frames;
mod kinds;

use burst::cost_of;
use flows::flow_costs;
use frames::{TAGGED, UDP};
use kinds::{balance, filter, route};
use nf_api::NetFunction;
use nf_steady::Steady;
use onvm_base::NoMemory;
use onvm_files::SysClock;
use std::env;
use std::process::ExitCode;

fn main(rt: HostRuntime) -> ExitCode {
    let Some(rounds) = rounds(&rt) else {
        let _ = println!(rt; "usage: nf_bench ROUNDS");
        return ExitCode::from(2);
    };
    if measure_all(&rt, rounds).is_err() {
        let _ = println!(rt; "no memory");
        return ExitCode::FAILURE;
    }
    ExitCode::SUCCESS
}

// The one word behind the program's name, as a number above 0.
fn rounds(rt: &HostRuntime) -> Option<u32> {
    let words: Vec<String> = env::args(rt).ok()?.skip(1).collect(rt.alloc()).ok()?;
    match words.as_slice() {
        [word] => word.parse().ok().filter(|rounds| *rounds > 0),
        _ => None,
    }
}

fn measure_all(rt: &HostRuntime, rounds: u32) -> Result<(), NoMemory> {
    let alloc = rt.alloc();
    let tag = Steady::Tag {
        vlan: 5,
        tag_priority: 3,
    };
    let macs = Steady::Macs {
        target: [2, 0, 0, 0, 0, 3],
        source: [2, 0, 0, 0, 0, 4],
    };
    measure(rt, "forward", Steady::Forward, &UDP, rounds)?;
    measure(rt, "filter of 1", filter(alloc, 1)?, &UDP, rounds)?;
    measure(rt, "filter of 64", filter(alloc, 64)?, &UDP, rounds)?;
    measure(rt, "ttl", Steady::Ttl, &UDP, rounds)?;
    measure(rt, "tag", tag, &UDP, rounds)?;
    measure(rt, "untag", Steady::Untag, &TAGGED, rounds)?;
    measure(rt, "macs", macs, &UDP, rounds)?;
    measure(rt, "route of 1", route(alloc, 1)?, &UDP, rounds)?;
    measure(rt, "route of 256", route(alloc, 256)?, &UDP, rounds)?;
    measure(rt, "balance", balance(alloc)?, &UDP, rounds)?;
    measure_flows(rt)
}

// Prints what NAT costs for a new and for a known flow.
fn measure_flows(rt: &HostRuntime) -> Result<(), NoMemory> {
    let costs = flow_costs(rt.alloc(), &SysClock::make(*rt))?;
    for (name, tenths) in [
        ("nat, new flow", costs.new_flow),
        ("nat, known flow", costs.known_flow),
    ] {
        let _ = println!(rt;
            "{name}: {}.{} ns, sum {}",
            tenths / 10,
            tenths % 10,
            costs.sum
        );
    }
    Ok(())
}

// Prints what a function costs for a frame with this head.
fn measure<N: NetFunction>(
    rt: &HostRuntime,
    name: &str,
    mut function: N,
    head: &[u8],
    rounds: u32,
) -> Result<(), NoMemory>
    requires least { TARGET_BEFORE_END ≤ length head.now }
    requires most { length head.now ≤ FRAME_BYTES }
{
    let clock = SysClock::make(*rt);
    let cost = cost_of(rt.alloc(), &clock, &mut function, head, rounds)?;
    let tenths = cost.per_frame();
    let _ = println!(rt;
        "{name}: {}.{} ns, sum {}",
        tenths / 10,
        tenths % 10,
        cost.sum
    );
    Ok(())
}

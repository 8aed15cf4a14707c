//! Sessions with a clock beside them.
ghost use Rattle.std.specs.Prelude.{◌≡◌, [], IfOk, Some, false, length};
ghost use Rattle.chain_file.specs.Guests.{HasGuest, HaveGuests};
ghost use Rattle.rx_feed.specs.Feeds.{IsFreshFeed};
ghost use Rattle.onvm_session.specs.Rooms.{AreFresh};

use crate::capture::{host_of, open};
use crate::chain_texts::text_of;
use crate::cost::Cost;
use chain_file::read;
use nf_catalog::units;
use onvm_base::{FunctionPlan, Kind, ListOf, MAX_PORT_FRAMES, NoMemory, Plan};
use onvm_files::SysClock;
use onvm_host::{Clock, MemInput, OpenGate, StepClock};
use onvm_session::{Feeds, session};
use rx_feed::{Feed, Generator};
use std::alloc::Global;
use std::sync::Wait;
use std::thread::Threads;
use std::time;

// How many frames a port takes.
const FRAMES: u32 = MAX_PORT_FRAMES as u32;

fn is_guest(kind: &Kind) -> bool
    ensures { result ≡ false → HasGuest [] kind.now }
{
    matches!(kind, Kind::Guest { .. })
}

// Whether a function is a guest.
fn name_guests(functions: &[FunctionPlan]) -> bool
    ensures { result ≡ false → HaveGuests [] functions.now }
{
    for at in 0..functions.len() {
        if is_guest(&functions[at].kind) {
            return true;
        }
    }
    false
}

fn plan(alloc: Global, functions: u8) -> Result<Plan, NoMemory>
    ensures guests { IfOk result (λ plan. HaveGuests [] plan.functions) }
{
    let text = text_of(alloc, functions)?;
    let Ok(plan) = read(alloc, text.as_bytes(), 1, &[]) else {
        return Err(NoMemory);
    };
    if name_guests(plan.functions.as_slice()) {
        return Err(NoMemory);
    }
    Ok(plan)
}

// The feed of the one port.
fn one(alloc: Global, feed: Feed<MemInput>) -> Result<Feeds<MemInput>, NoMemory>
    requires feed { IsFreshFeed (Some feed) }
    ensures fresh { IfOk result (λ feeds. AreFresh feeds) }
    ensures one { IfOk result (λ feeds. length feeds ≡ 1) }
{
    let mut feeds = ListOf::make(alloc);
    feeds.push(feed)?;
    Ok(feeds)
}

// One serial session of these feeds, with its time.
fn run<R: Threads + Wait + time::Clock + Sync, C: Clock>(
    wait: &R,
    alloc: Global,
    clock: &C,
    plan: &Plan,
    feeds: Feeds<MemInput>,
    cost: &mut Cost,
) -> Result<(), NoMemory>
    requires guests { HaveGuests [] plan.now.functions }
    requires fresh { AreFresh feeds }
    requires one { length feeds ≡ 1 }
{
    let units = units(alloc, plan, Vec::new(alloc))?;
    let start = clock.now();
    let ended = session(
        wait,
        alloc,
        plan,
        units,
        feeds,
        &StepClock { at: 0 },
        &OpenGate,
        true,
    );
    let time = clock.now().saturating_sub(start);
    match &ended.outcome {
        Ok(run) => cost.add(time, run.sent.len() as u64),
        Err(_) => return Err(NoMemory),
    }
    Ok(())
}

/// Prints what a frame costs in a serial session of so many functions, over so many sessions.
pub fn measure<R: Threads + Wait + time::Clock + Sync>(
    rt: &HostRuntime,
    wait: &R,
    functions: u8,
    rounds: u32,
) -> Result<(), NoMemory> {
    let alloc = rt.alloc();
    let clock = SysClock::make(*rt);
    let plan = plan(alloc, functions)?;
    let mut host = host_of(alloc, FRAMES)?;
    let mut captured = Cost::new();
    let mut made = Cost::new();
    for _ in 0..rounds {
        let feed = Feed::Live(open(&mut host)?);
        run(wait, alloc, &clock, &plan, one(alloc, feed)?, &mut captured)?;
        let feed = Feed::Made(Generator::make(7, FRAMES));
        run(wait, alloc, &clock, &plan, one(alloc, feed)?, &mut made)?;
    }
    let functions = format!(in alloc; "functions {functions}")?;
    captured.print(
        rt,
        &format!(in alloc; "frames of 60 bytes, {functions}")?,
        FRAMES,
    );
    made.print(rt, &format!(in alloc; "made frames, {functions}")?, FRAMES);
    Ok(())
}

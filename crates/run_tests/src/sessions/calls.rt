//! Calls of `session` with chain files, and short names for what they tell.
ghost use Rattle.std.specs.Prelude.{◌≡◌, [], IfOk, OnOk, Some, false};
ghost use Rattle.chain_file.specs.Guests.{HasGuest, HaveGuests};
ghost use Rattle.rx_feed.specs.Feeds.{IsFreshFeed};
ghost use Rattle.onvm_session.specs.Rooms.{AreFresh};

use super::captures::{FRAME, capture, feed_of};
use super::plans::one_function;
use chain_file::read;
use load_estimate::{Share, TickLine};
use nf_api::NetFunction;
use nf_catalog::units;
use onvm_base::{
    FnId, FrameId, FunctionPlan, Kind, ListOf, NoMemory, Outcome, Plan, PortId, Post, Record,
};
use onvm_host::{Gate, MemInput, OpenGate, StepClock};
use onvm_session::{Ended, Feeds, Run, session};
use rx_feed::Feed;
use std::alloc::Global;
use std::sync::Wait;
use std::test::Fail;
use std::thread::Threads;
use std::time;

pub const F: FnId = FnId(0);

pub const G: FnId = FnId(1);

/// The record of a frame of a port.
pub fn record(port: u8, number: u32, outcome: Outcome) -> Record {
    Record {
        frame: FrameId {
            port: PortId(port),
            number,
        },
        outcome,
    }
}

/// The record of a frame of port 0 that port 0 sent.
pub fn sent(number: u32) -> Record {
    record(0, number, Outcome::Sent(0))
}

/// The post of feeder 0.
pub fn post(number: u32, moment: u64, bits: u32) -> Post {
    Post {
        feeder: 0,
        number,
        moment,
        bits,
    }
}

/// The line of a function whose frames took 100 nanoseconds.
pub fn line(arrivals: u64, num: u128, den: u128, weight: u32) -> TickLine {
    TickLine {
        arrivals,
        median: Some(100),
        share: Some(Share { num, den, weight }),
        weight,
    }
}

/// The line of a function that did nothing, beside functions that did nothing or on a core of its
/// own.
pub const IDLE: TickLine = TickLine {
    arrivals: 0,
    median: None,
    share: None,
    weight: 1024,
};

/// No feed.
pub fn none(alloc: Global) -> Feeds<MemInput>
    ensures fresh { AreFresh result }
{
    ListOf::make(alloc)
}

/// Adds the feed of the next port.
pub fn add(feeds: &mut Feeds<MemInput>, feed: Feed<MemInput>) -> Result<(), NoMemory>
    requires fresh { AreFresh feeds.old }
    requires feed { IsFreshFeed (Some feed) }
    ensures fresh { OnOk result (AreFresh feeds.new) }
{
    feeds.push(feed)?;
    Ok(())
}

/// One feed.
pub fn one(alloc: Global, feed: Feed<MemInput>) -> Result<Feeds<MemInput>, NoMemory>
    requires feed { IsFreshFeed (Some feed) }
    ensures fresh { IfOk result (λ feeds. AreFresh feeds) }
{
    let mut feeds = none(alloc);
    add(&mut feeds, feed)?;
    Ok(feeds)
}

/// What comes of a session of a plan with these functions, over a clock that stands.
pub fn end_behind<R: Threads + Wait + time::Clock + Sync, N: NetFunction + Send, G: Gate>(
    rt: &R,
    alloc: Global,
    plan: &Plan,
    units: ListOf<N>,
    feeds: Feeds<MemInput>,
    gate: &G,
    serial: bool,
) -> Result<Ended<MemInput>, Fail>
    requires fresh { AreFresh feeds }
{
    if units.len() != plan.functions.len() {
        return Err(Fail::from("not a unit for each function"));
    }
    if feeds.len() > usize::from(plan.ports) {
        return Err(Fail::from("more feeds than ports"));
    }
    let clock = StepClock { at: 0 };
    Ok(session(rt, alloc, plan, units, feeds, &clock, gate, serial))
}

/// What comes of a serial session of a plan with these functions.
pub fn end_with<R: Threads + Wait + time::Clock + Sync, N: NetFunction + Send>(
    rt: &R,
    alloc: Global,
    plan: &Plan,
    units: ListOf<N>,
    feeds: Feeds<MemInput>,
) -> Result<Ended<MemInput>, Fail>
    requires fresh { AreFresh feeds }
{
    end_behind(rt, alloc, plan, units, feeds, &OpenGate, true)
}

fn is_guest(kind: &Kind) -> bool
    ensures { result ≡ false → HasGuest [] kind.now }
{
    matches!(kind, Kind::Guest { .. })
}

// Whether a function is a guest.
fn name_guests(functions: &[FunctionPlan]) -> bool
    ensures { result ≡ false → HaveGuests [] functions.now }
{
    for at in 0..functions.len() {
        if is_guest(&functions[at].kind) {
            return true;
        }
    }
    false
}

/// The plan of a chain file without guests.
pub fn plan_of(alloc: Global, file: &str) -> Result<Plan, Fail>
    ensures guests { IfOk result (λ plan. HaveGuests [] plan.functions) }
{
    let plan = read(alloc, file.as_bytes(), 1, &[])?;
    if name_guests(plan.functions.as_slice()) {
        return Err(Fail::from("a function that is a guest"));
    }
    Ok(plan)
}

/// What comes of a serial session of a chain file.
pub fn end_of<R: Threads + Wait + time::Clock + Sync>(
    rt: &R,
    alloc: Global,
    file: &str,
    feeds: Feeds<MemInput>,
) -> Result<Ended<MemInput>, Fail>
    requires fresh { AreFresh feeds }
{
    let plan = plan_of(alloc, file)?;
    let units = units(alloc, &plan, Vec::new(alloc))?;
    end_with(rt, alloc, &plan, units, feeds)
}

/// The run of a serial session of a chain file, which hands back each feed and each buffer.
pub fn run_of<R: Threads + Wait + time::Clock + Sync>(
    rt: &R,
    alloc: Global,
    file: &str,
    feeds: Feeds<MemInput>,
) -> Result<Run, Fail>
    requires fresh { AreFresh feeds }
{
    let given = feeds.len();
    let Ended { outcome, feeds } = end_of(rt, alloc, file, feeds)?;
    let run = outcome?;
    if feeds.len() != given {
        return Err(Fail::from("a feed was not handed back"));
    }
    if run.closed.left() != 0 {
        return Err(Fail::from("a buffer is not in the pool"));
    }
    Ok(run)
}

/// The run of these frames through one function.
pub fn run_of_one<R: Threads + Wait + time::Clock + Sync>(
    rt: &R,
    alloc: Global,
    top: &str,
    kind: &str,
    frames: &[[u8; 16]],
) -> Result<Run, Fail> {
    let file = one_function(alloc, top, kind)?;
    let feed = feed_of(alloc, &capture(alloc, frames)?, &[])?;
    run_of(rt, alloc, &file, one(alloc, feed)?)
}

/// The run of so many equal frames through one function.
pub fn run_of_equal<R: Threads + Wait + time::Clock + Sync>(
    rt: &R,
    alloc: Global,
    top: &str,
    kind: &str,
    frames: usize,
) -> Result<Run, Fail> {
    let mut equal = Vec::new(alloc);
    for _ in 0..frames {
        equal.push(FRAME)?;
    }
    run_of_one(rt, alloc, top, kind, &equal)
}

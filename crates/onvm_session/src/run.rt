//! A session, from its feeds to what it hands back.
ghost use Rattle.std.specs.Prelude.{◌≡◌, ◌≢◌, ◌≤◌, IfErr, IfOk, false, length, true};
ghost use Rattle.onvm_session.specs.RoleStates.{acts_by, start_by};
ghost use Rattle.onvm_session.specs.Rooms.{AreFresh, IsBeginning};
ghost use Rattle.onvm_session.specs.Runs.{AllStand, AreHandedBack, IsDone, IsStop, any_moment, any_span, told_fault};

use crate::manager::Halt;
use crate::rooms::Beginning;
use load_estimate::{Samples, Ticks};
use nf_api::NetFunction;
use onvm_base::{ListOf, Plan, PortId, Posts, Records, SentFrames};
use onvm_board::Closed;
use onvm_host::{Clock, Gate, Source, StepClock};
use pcap_in::PcapFault;
use rx_feed::{Feed, FeedFault};
use std::alloc::Global;
use std::sync::Wait;
use std::thread::Threads;
use std::time;

/// What captures or generators frames come from, port by port.
pub type Feeds<I> = ListOf<Feed<I>>;

/// What cores counted, up to 2^64 - 1.
#[derive(Clone, Copy, Debug, PartialEq, Eq)]
pub struct Counters {
    /// How often a core found an output ring full.
    pub yields: u64,
    /// How many samples met a full mail ring.
    pub lost: u64,
}

/// What a run hands back.
#[derive(Drop)]
pub struct Run {
    /// By port, then by number.
    pub records: Records,
    /// By port, then by number.
    pub sent: SentFrames,
    /// Feeder by feeder, each feeder's in the order in which they were made.
    pub posts: Posts,
    /// In the order in which they were taken.
    pub samples: Samples,
    pub ticks: Ticks,
    pub counters: Counters,
    /// The board, with what its first token knew at last.
    pub closed: Closed,
}

/// Why a session stopped.
#[derive(Clone, Copy, Debug, PartialEq, Eq)]
pub enum Stop {
    /// A take of the port's feed failed.
    Read { port: PortId },
    /// The port's bytes are no capture.
    Capture { port: PortId, fault: PcapFault },
    /// The port's capture has more frames or bytes than a port takes.
    TooMany { port: PortId },
    /// Memory was wanting.
    Memory,
}

/// What came of a session. Each feed is handed back.
#[derive(Drop)]
pub struct Ended<I> {
    pub outcome: Result<Run, Stop>,
    pub feeds: Feeds<I>,
}

pub(crate) fn stop_of(port: PortId, fault: FeedFault) -> Stop
    ensures { told_fault result ≡ Some (port.0, fault) }
{
    match fault {
        FeedFault::Read => Stop::Read { port },
        FeedFault::Capture(fault) => Stop::Capture { port, fault },
        FeedFault::TooMany => Stop::TooMany { port },
    }
}

/// Runs the plan's functions over these feeds, feed k that of port k, until each frame has its record.
/// Unit f is function f's.
///
/// A serial session makes rounds, and the moment of a round is its number times 1,000 nanoseconds,
/// counted from 0. In a round each role makes a pass: the receive roles by port, the cores, the
/// transmit roles, and the tick role. A frame takes its function's cost. Neither clock nor gate is
/// used.
///
/// Any other session makes phases. In a phase all roles make their passes beside each other, each in a
/// thread of its own where one can be had: up to 1,024, and the phase ends for all roles where one has
/// made them. Before each pass the gate is called with the role's number and the pass's, and then the
/// clock is read for the pass's moment.
///
/// Where a feed has a fault, the captures of lower ports are read to their ends, and the lowest port
/// that has a fault is told. Where memory is wanting, nothing more is read.
pub fn session<
    R: Threads + Wait + time::Clock + Sync,
    I: Source + Send + Drop,
    N: NetFunction + Send,
    C: Clock,
    G: Gate,
>(
    rt: &R,
    alloc: Global,
    plan: &Plan,
    units: ListOf<N>,
    feeds: Feeds<I>,
    clock: &C,
    gate: &G,
    serial: bool,
) -> Ended<I>
    requires units { length units ≡ length plan.now.functions }
    requires feeds { length feeds ≤ plan.now.ports }
    requires fresh { AreFresh feeds }
    ensures handed_back { AreHandedBack I.name feeds result.feeds }
    ensures stands { AllStand I.name I.left I.takes plan.now feeds result.feeds }
    ensures done { IfOk result.outcome (λ run. IsDone I.name I.left I.takes serial (C.may_be_now clock.now)
        (C.may_span clock.now) (acts_by N.acts N.state units) (start_by N.acts N.state units) plan.now feeds
        result.feeds run) }
    ensures stopped { IfErr result.outcome (λ stop. IsStop I.name I.left I.takes plan.now feeds result.feeds stop) }
{
    let Ok(beginning) = Beginning::make(alloc, plan) else {
        return Ended {
            outcome: Err(Stop::Memory),
            feeds,
        };
    };
    if serial {
        session_in_rounds(rt, alloc, plan, beginning, units, feeds)
    } else {
        session_in_phases(rt, alloc, plan, beginning, units, feeds, clock, gate)
    }
}

// A serial session.
fn session_in_rounds<R: Wait, I: Source + Drop, N: NetFunction>(
    rt: &R,
    alloc: Global,
    plan: &Plan,
    beginning: Beginning<I, N>,
    units: ListOf<N>,
    feeds: Feeds<I>,
) -> Ended<I>
    requires beginning { IsBeginning plan.now beginning }
    requires units { length units ≡ length plan.now.functions }
    requires feeds { length feeds ≤ plan.now.ports }
    requires fresh { AreFresh feeds }
    ensures handed_back { AreHandedBack I.name feeds result.feeds }
    ensures stands { AllStand I.name I.left I.takes plan.now feeds result.feeds }
    ensures done { IfOk result.outcome (λ run. IsDone I.name I.left I.takes true any_moment any_span
        (acts_by N.acts N.state units) (start_by N.acts N.state units) plan.now feeds result.feeds run) }
    ensures stopped { IfErr result.outcome (λ stop. IsStop I.name I.left I.takes plan.now feeds result.feeds stop) }
{
    let mut manager = beginning.start(plan, units, feeds, 0);
    let clock = StepClock { at: 0 };
    match manager.make_rounds(rt, alloc, plan, &clock) {
        Ok(now) => manager.finish(alloc, plan, now),
        Err(Halt::Memory) => manager.hand_back(alloc, Stop::Memory),
        Err(Halt::Fault) => {
            let stop = manager.find_fault(alloc);
            manager.hand_back(alloc, stop)
        }
    }
}

// A session whose roles run beside each other.
fn session_in_phases<
    R: Threads + Wait + time::Clock + Sync,
    I: Source + Send + Drop,
    N: NetFunction + Send,
    C: Clock,
    G: Gate,
>(
    rt: &R,
    alloc: Global,
    plan: &Plan,
    beginning: Beginning<I, N>,
    units: ListOf<N>,
    feeds: Feeds<I>,
    clock: &C,
    gate: &G,
) -> Ended<I>
    requires beginning { IsBeginning plan.now beginning }
    requires units { length units ≡ length plan.now.functions }
    requires feeds { length feeds ≤ plan.now.ports }
    requires fresh { AreFresh feeds }
    ensures handed_back { AreHandedBack I.name feeds result.feeds }
    ensures stands { AllStand I.name I.left I.takes plan.now feeds result.feeds }
    ensures done { IfOk result.outcome (λ run. IsDone I.name I.left I.takes false (C.may_be_now clock.now)
        (C.may_span clock.now) (acts_by N.acts N.state units) (start_by N.acts N.state units) plan.now feeds
        result.feeds run) }
    ensures stopped { IfErr result.outcome (λ stop. IsStop I.name I.left I.takes plan.now feeds result.feeds stop) }
{
    let first = clock.now();
    let mut manager = beginning.start(plan, units, feeds, first);
    let Ok(mut seats) = Vec::with_capacity(alloc, manager.roles.len()) else {
        return manager.hand_back(alloc, Stop::Memory);
    };
    match manager.make_phases(rt, alloc, plan, clock, gate, &mut seats, first) {
        Ok(now) => manager.finish(alloc, plan, now),
        Err(Halt::Memory) => manager.hand_back(alloc, Stop::Memory),
        Err(Halt::Fault) => {
            let stop = manager.find_fault(alloc);
            manager.hand_back(alloc, stop)
        }
    }
}

//! What a receive pass costs for each frame.
ghost use Rattle.std.specs.Prelude.{◌≡◌, ◌≤◌, IfOk, Some};
ghost use Rattle.onvm_base.specs.declared.limits.TheConstants.{MAX_PORT_FRAMES};
ghost use Rattle.onvm_core.specs.Layouts.{IsLayout, IsLayoutOf, core_role};
ghost use Rattle.rx_feed.specs.Feeds.{IsFreshFeed};
ghost use Rattle.tx_pass.specs.Examples.{IsFresh};
ghost use Rattle.pass_bench.specs.Receiving.{Empties, IsDock};

use crate::cost::Cost;
use crate::stock::{Origin, Stock};
use chain_file::read;
use desc_ring::Head;
use mbuf_pool::send;
use nf_registry::Registry;
use onvm_base::{FnId, NoMemory, Plan, PortId, RingId};
use onvm_board::{Board, Token};
use onvm_core::Layout;
use onvm_files::SysClock;
use onvm_host::{Clock, MemInput};
use onvm_promises::Pass;
use rx_feed::{Feed, IntakeRoom};
use rx_pass::{RxRole, RxRoom};
use std::alloc::Global;

// Passes, of 32 frames each, of which the time is added up, so that each sum has its part of the
// pieces that are taken of a capture.
const PASSES: u32 = 16;

const STRETCH: u32 = 32 * PASSES;

// At most so many sums, since a capture is kept in memory.
const MOST_STRETCHES: u32 = 100;

/// A receive role, and the core that empties its lane.
#[derive(Drop)]
pub struct Dock {
    pub plan: Plan,
    pub registry: Registry,
    pub board: Board,
    pub token: Token,
    pub role: RxRole<MemInput>,
    pub core: Token,
    pub lane: Head,
}

// One function, and so many rules, of which the last alone holds for the frames.
fn chain_file(alloc: Global, rules: u16) -> Result<String, NoMemory> {
    let mut text = String::new(alloc);
    text.push_str(r#"{"version":1,"ports":1,"functions":[{"name":"f","service":1,"core":0,"#)?;
    text.push_str(r#""kind":"forward"}],"chains":[{"name":"a","steps":[{"to":1},{"out":0}]}],"#)?;
    text.push_str(r#""rules":["#)?;
    for number in 1..rules {
        let target = number % 256;
        text.push_str(&format!(in alloc;
            r#"{{"chain":"a","match":{{"type":2048,"dst":"10.2.{target}.0/24"}}}},"#
        )?)?;
    }
    if rules > 0 {
        text.push_str(r#"{"chain":"a","match":{"type":2048}}"#)?;
    }
    text.push_str(r#"],"default":"a"}"#)?;
    Ok(text)
}

// The end of function 0's lane that its core has, which has popped nothing.
fn lane_of(board: &Board, plan: &Plan, core: &Token) -> Head
    requires layout { IsLayoutOf plan.now board.now.layout }
    requires ranges { IsLayout board.now.layout }
    requires fresh { IsFresh board.now (core_role board.now.layout 0) core.now }
    ensures empties { Empties board.now core.now result }
{
    let _ = core;
    Head::at(board, RingId::Lane(FnId(0), 0), plan.ring)
}

impl Dock {
    fn open(alloc: Global, rules: u16, feed: Feed<MemInput>) -> Result<Dock, NoMemory>
        requires fresh { IsFreshFeed (Some feed) }
        ensures dock { IfOk result IsDock }
    {
        let text = chain_file(alloc, rules)?;
        let Ok(plan) = read(alloc, text.as_bytes(), 1, &[]) else {
            return Err(NoMemory);
        };
        // The core of the function.
        if plan.cores != 1 {
            return Err(NoMemory);
        }
        let core = u32::from(plan.ports) + u32::from(plan.transmit);
        let (board, mut first) = Board::make(alloc, &Layout::of(&plan))?;
        let registry = Registry::make(alloc, &plan)?;
        let role = RxRoom::make(alloc, &board, &plan, PortId(0))?.start(Some(feed));
        let token = board.split(&mut first, 0);
        let core = board.split(&mut first, core);
        let lane = lane_of(&board, &plan, &core);
        Ok(Dock {
            plan,
            registry,
            board,
            token,
            role,
            core,
            lane,
        })
    }

    // The answer is how many frames had their blocks.
    fn pass(&mut self, alloc: Global, now: u64) -> u64
        requires dock { IsDock self.old }
        ensures dock { IsDock self.new }
    {
        let answer = self.role.pass(
            alloc,
            &mut self.token,
            &self.board,
            &self.plan,
            &self.registry,
            now,
        );
        match answer {
            Pass::Did(received) => u64::from(received),
            _ => 0,
        }
    }

    // The core gives each buffer back.
    fn empty(&mut self)
        requires dock { IsDock self.old }
        ensures dock { IsDock self.new }
    {
        for _ in 0..self.plan.ring {
            let Some(buf) = self.lane.pop(&self.board, &mut self.core) else {
                return;
            };
            drop(send(&self.board, &mut self.core, buf, 0));
        }
    }

    // So many passes, after each of which the lane is emptied.
    fn stretch<C: Clock>(&mut self, alloc: Global, clock: &C, cost: &mut Cost)
        requires dock { IsDock self.old }
        ensures dock { IsDock self.new }
    {
        let mut time = 0u64;
        let mut sum = 0u64;
        for _ in 0..PASSES {
            let start = clock.now();
            let received = self.pass(alloc, start);
            time = time.saturating_add(clock.now().saturating_sub(start));
            sum = sum.wrapping_add(received);
            self.empty();
        }
        cost.add(time, sum);
    }
}

// What frames of a feed cost that receive passes bring in, by so many rules.
fn cost_of_passes<C: Clock>(
    alloc: Global,
    clock: &C,
    rules: u16,
    feed: Feed<MemInput>,
    stretches: u32,
) -> Result<Cost, NoMemory>
    requires fresh { IsFreshFeed (Some feed) }
{
    let mut dock = Dock::open(alloc, rules, feed)?;
    let mut cost = Cost::new();
    for _ in 0..stretches {
        dock.stretch(alloc, clock, &mut cost);
    }
    Ok(cost)
}

// What frames of a feed cost that are pulled alone.
fn cost_of_pulls<C: Clock>(
    alloc: Global,
    clock: &C,
    feed: Feed<MemInput>,
    stretches: u32,
) -> Result<Cost, NoMemory>
    requires fresh { IsFreshFeed (Some feed) }
{
    let mut intake = IntakeRoom::make(alloc)?.start(Some(feed));
    let mut frames = Vec::with_capacity(alloc, STRETCH as usize)?;
    let mut cost = Cost::new();
    for _ in 0..stretches {
        let start = clock.now();
        for _ in 0..STRETCH {
            match intake.next(alloc)? {
                Some(frame) => frames.push(frame)?,
                None => break,
            }
        }
        let time = clock.now().saturating_sub(start);
        cost.add(time, frames.len() as u64);
        frames.clear();
    }
    Ok(cost)
}

// Prints what a frame of this origin costs.
fn measure(
    rt: &HostRuntime,
    name: &str,
    stock: &mut Stock,
    origin: Origin,
    stretches: u32,
) -> Result<(), NoMemory>
    requires few { stock.old.frames ≤ MAX_PORT_FRAMES }
    ensures same { stock.new.frames ≡ stock.old.frames }
{
    let alloc = rt.alloc();
    let clock = SysClock::make(*rt);
    let feed = stock.feed(origin)?;
    let alone = cost_of_pulls(alloc, &clock, feed, stretches)?;
    alone.print_of(
        rt,
        &format!(in alloc; "{name} frame, pulled alone")?,
        STRETCH,
    );
    for rules in [0, 256] {
        let feed = stock.feed(origin)?;
        let cost = cost_of_passes(alloc, &clock, rules, feed, stretches)?;
        let line = format!(in alloc; "{name} frame, by a receive pass with {rules} rules")?;
        cost.print_of(rt, &line, STRETCH);
    }
    Ok(())
}

/// Prints what a frame of a capture and one that is made cost: pulled alone, and by passes without
/// rules and with 256 rules, for flows that are known.
pub fn measure_receiving(rt: &HostRuntime, rounds: u32) -> Result<(), NoMemory> {
    let stretches = rounds.min(MOST_STRETCHES);
    let mut stock = Stock::make(rt.alloc(), stretches * STRETCH)?;
    measure(rt, "a captured", &mut stock, Origin::Captured, stretches)?;
    measure(rt, "a made", &mut stock, Origin::Made, stretches)
}

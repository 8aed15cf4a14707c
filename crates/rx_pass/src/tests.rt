//! Passes of a receive role over a board. What comes is known of the plan: lanes of 16, bursts of 8.
ghost use Rattle.std.specs.Prelude.{◌≡◌, ◌≤◌, ◌<◌, [], ◌∷◌, IfOk};
ghost use Rattle.onvm_board.specs.Tokens.{first_token};
ghost use Rattle.onvm_core.specs.Layouts.{IsLayout, IsLayoutOf};
ghost use Rattle.onvm_base.specs.declared.limits.TheConstants.{MAX_PORT_FRAMES};
ghost use Rattle.rx_feed.specs.Feeds.{IsFreshFeed};
ghost use Rattle.rx_pass.specs.Roles.{IsRxRole};

mod captures;
mod plans;

use crate::{RxKept, RxRole, RxRoom};
use nf_registry::Registry;
use onvm_base::{FnId, FrameId, NoMemory, Outcome, Plan, PortId, Post, Record};
use onvm_board::{Board, Token};
use onvm_core::Layout;
use onvm_host::{MemInput, Source};
use onvm_promises::Pass;
use plans::{Sizes, plan, plan_of};
use rx_feed::{Feed, FeedFault, Generator};
use std::alloc::Global;
use std::test::Fail;

// The receive role of port 0 with its token.
#[derive(Drop)]
struct Receiver<I> {
    token: Token,
    role: RxRole<I>,
}

impl<I: Source + Drop> Receiver<I> {
    fn start(
        alloc: Global,
        board: &Board,
        plan: &Plan,
        lead: &mut Token,
        feed: Feed<I>,
    ) -> Result<Receiver<I>, NoMemory>
        requires lead { lead.old ≡ first_token board.now }
        requires plan { IsLayoutOf plan.now board.now.layout }
        requires ranges { IsLayout board.now.layout }
        requires fresh { IsFreshFeed (Some feed) }
        ensures ready { IfOk result (λ receiver. IsRxRole board.now plan.now receiver.token receiver.role) }
    {
        let room = RxRoom::make(alloc, board, plan, PortId(0))?;
        let role = room.start(Some(feed));
        let token = board.split(lead, 0);
        Ok(Receiver { token, role })
    }

    fn pass(
        &mut self,
        alloc: Global,
        board: &Board,
        plan: &Plan,
        registry: &Registry,
        now: u64,
    ) -> Pass
        requires ready { IsRxRole board.now plan.now self.old.token self.old.role }
        requires registry { registry.now ≡ plan.now }
        ensures ready { IsRxRole board.now plan.now self.new.token self.new.role }
    {
        self.role
            .pass(alloc, &mut self.token, board, plan, registry, now)
    }

    // What four passes answer, a microsecond apart.
    fn passes(
        &mut self,
        alloc: Global,
        board: &Board,
        plan: &Plan,
        registry: &Registry,
    ) -> [Pass; 4]
        requires ready { IsRxRole board.now plan.now self.old.token self.old.role }
        requires registry { registry.now ≡ plan.now }
        ensures ready { IsRxRole board.now plan.now self.new.token self.new.role }
    {
        let first = self.pass(alloc, board, plan, registry, 0);
        let second = self.pass(alloc, board, plan, registry, 1000);
        let third = self.pass(alloc, board, plan, registry, 2000);
        let fourth = self.pass(alloc, board, plan, registry, 3000);
        [first, second, third, fourth]
    }
}

// What four passes answer, what stopped the port, whether the end was seen, and what was kept.
#[derive(Drop)]
struct Received<I> {
    answers: [Pass; 4],
    fault: Option<FeedFault>,
    done: bool,
    kept: RxKept<I>,
}

// Four passes of a feed.
fn receive<I: Source + Drop>(alloc: Global, plan: &Plan, feed: Feed<I>) -> Result<Received<I>, Fail>
    requires fresh { IsFreshFeed (Some feed) }
{
    let registry = Registry::make(alloc, plan)?;
    let (board, mut lead) = Board::make(alloc, &Layout::of(plan))?;
    let mut receiver = Receiver::start(alloc, &board, plan, &mut lead, feed)?;
    let answers = receiver.passes(alloc, &board, plan, &registry);
    Ok(Received {
        answers,
        fault: receiver.role.fault(),
        done: receiver.role.done(),
        kept: receiver.role.end(),
    })
}

// Four passes over frames that are made of seed 7.
fn receive_made(alloc: Global, plan: &Plan, frames: u32) -> Result<Received<MemInput>, Fail>
    requires few { frames ≤ MAX_PORT_FRAMES }
{
    receive(alloc, plan, Feed::Made(Generator::make(7, frames)))
}

// How many records of each kind: sent, throttled, ring full, pool empty.
fn counts<I>(kept: &RxKept<I>) -> [u32; 4] {
    let mut sent = 0_u32;
    let mut throttled = 0_u32;
    let mut full = 0_u32;
    let mut empty = 0_u32;
    for record in kept.records.as_slice() {
        match record.outcome {
            Outcome::Sent(_) => sent = sent.saturating_add(1),
            Outcome::Throttled { .. } => throttled = throttled.saturating_add(1),
            Outcome::RingFull { .. } => full = full.saturating_add(1),
            Outcome::PoolEmpty => empty = empty.saturating_add(1),
            Outcome::Dropped(..) => {}
        }
    }
    [sent, throttled, full, empty]
}

#[test]
fn twenty_five_frames_come_in_by_bursts_and_meet_a_full_lane(rt: HostRuntime) -> Result<(), Fail> {
    let plan = plan(rt.alloc(), 1024, 1_000_000, 0)?;
    let received = receive_made(rt.alloc(), &plan, 25)?;
    assert_eq!(rt;
        received.answers,
        [Pass::Did(8), Pass::Did(8), Pass::Did(8), Pass::Did(1)]
    );
    assert_eq!(rt; received.fault, None);
    assert_eq!(rt; counts(&received.kept), [0, 0, 9, 0]);
    Ok(())
}

#[test]
fn at_the_high_mark_frames_are_held_back(rt: HostRuntime) -> Result<(), Fail> {
    let plan = plan(rt.alloc(), 1024, 0, 0)?;
    let received = receive_made(rt.alloc(), &plan, 20)?;
    assert_eq!(rt;
        received.answers,
        [Pass::Did(8), Pass::Did(8), Pass::Did(4), Pass::Idle]
    );
    assert_eq!(rt; counts(&received.kept), [0, 4, 0, 0]);
    assert_eq!(rt; received.kept.posts.len(), 1);
    Ok(())
}

#[test]
fn of_twelve_frames_those_behind_the_first_burst_are_held(rt: HostRuntime) -> Result<(), Fail> {
    let sizes = Sizes {
        ring: 8,
        high: 4,
        low: 2,
        burst: 8,
    };
    let plan = plan_of(rt.alloc(), sizes, 64, 0, 0)?;
    let received = receive_made(rt.alloc(), &plan, 12)?;
    assert_eq!(rt;
        received.answers,
        [Pass::Did(8), Pass::Did(4), Pass::Idle, Pass::Idle]
    );
    let held = [held(9), held(10), held(11), held(12)];
    assert_eq!(rt; received.kept.records.as_slice(), held.as_slice());
    let raised = Post {
        feeder: 0,
        number: 1,
        moment: 1000,
        bits: 1,
    };
    assert_eq!(rt; received.kept.posts.as_slice(), [raised].as_slice());
    Ok(())
}

// Held by post 1 of feeder 0, for function 0.
fn held(number: u32) -> Record {
    Record {
        frame: FrameId {
            port: PortId(0),
            number,
        },
        outcome: Outcome::Throttled {
            feeder: 0,
            post: 1,
            function: FnId(0),
        },
    }
}

#[test]
fn frames_without_a_buffer_find_the_pool_empty(rt: HostRuntime) -> Result<(), Fail> {
    let plan = plan(rt.alloc(), 5, 1_000_000, 0)?;
    let received = receive_made(rt.alloc(), &plan, 8)?;
    assert_eq!(rt;
        received.answers,
        [Pass::Did(8), Pass::Idle, Pass::Idle, Pass::Idle]
    );
    assert_eq!(rt; counts(&received.kept), [0, 0, 0, 3]);
    Ok(())
}

#[test]
fn a_chain_that_begins_with_a_port_sends_at_once(rt: HostRuntime) -> Result<(), Fail> {
    let plan = plan(rt.alloc(), 2, 1_000_000, 1)?;
    let received = receive_made(rt.alloc(), &plan, 3)?;
    assert_eq!(rt;
        received.answers,
        [Pass::Did(3), Pass::Idle, Pass::Idle, Pass::Idle]
    );
    assert_eq!(rt; counts(&received.kept), [3, 0, 0, 0]);
    assert_eq!(rt; received.kept.sent.len(), 3);
    Ok(())
}

//! Frames that go by the board's own steps.
ghost use Rattle.std.specs.Prelude.{◌≡◌, ◌<◌, IfOk, length, true};
ghost use Rattle.onvm_base.specs.declared.limits.TheConstants.{MAX_HOPS};
ghost use Rattle.onvm_core.specs.Layouts.{IsLayout, IsLayoutOf};
ghost use Rattle.onvm_board.specs.Tokens.{Carries, first_token, parcel_in};
ghost use Rattle.tx_pass.specs.Examples.{IsFresh, IsTestLayout, IsTestPlan};
ghost use Rattle.pass_bench.specs.Steps.{Moves, Sends};

use crate::cost::{BURST, Cost, Costs};
use crate::roles::Line;
use desc_ring::{Head, Tail};
use mbuf_pool::send;
use onvm_base::{BufId, FnId, MAX_HOPS, NoMemory, Plan, RingId, SentFrame, Verdict};
use onvm_board::{Board, Token};
use onvm_core::Trail;
use onvm_host::Clock;
use std::alloc::Global;

// The next cursor, in the slot of the buffer in hand. The trail begins anew where it is full.
fn set_cursor(board: &Board, token: &mut Token, buf: BufId)
    requires board { token.old.board ≡ board.now.id }
    requires carries { Carries buf.0 token.old }
    ensures carries { Carries buf.0 token.new }
    ensures trail { length (parcel_in token.new).trail < MAX_HOPS }
    ensures same { token.new ≡ record token.old { hand = token.new.hand } }
{
    match token.slot(board, buf) {
        Some(parcel) => {
            parcel.cursor = parcel.cursor.wrapping_add(1);
            if parcel.trail.len() >= MAX_HOPS {
                parcel.trail = Trail::none();
            }
        }
        None => {}
    }
}

// A transmit role's ends from function 0's output ring to function 1's lane.
#[derive(Drop)]
struct Mover {
    token: Token,
    output: Head,
    lane: Tail,
}

impl Mover {
    fn start(board: &Board, plan: &Plan, token: Token) -> Mover
        requires layout { IsTestLayout board.now.layout }
        requires plan { IsLayoutOf plan.now board.now.layout }
        requires fresh { IsFresh board.now 1 token }
        ensures moves { Moves board.now result.token result.output result.lane }
    {
        let output = Head::at(board, RingId::Output(FnId(0)), plan.output);
        let lane = Tail::at(board, RingId::Lane(FnId(1), 1), plan.ring);
        Mover {
            token,
            output,
            lane,
        }
    }

    // False where there is no frame, or the lane is full.
    fn move_one(&mut self, board: &Board) -> bool
        requires moves { Moves board.now self.old.token self.old.output self.old.lane }
        ensures moves { result ≡ true → Moves board.now self.new.token self.new.output self.new.lane }
    {
        let Some(buf) = self.output.pop(board, &mut self.token) else {
            return false;
        };
        set_cursor(board, &mut self.token, buf);
        self.lane.push(board, &mut self.token, buf).is_ok()
    }

    // A burst of frames goes on.
    fn move_all(&mut self, board: &Board) -> bool
        requires moves { Moves board.now self.old.token self.old.output self.old.lane }
        ensures moves { result ≡ true → Moves board.now self.new.token self.new.output self.new.lane }
    {
        for _ in 0..BURST {
            if !self.move_one(board) {
                return false;
            }
        }
        true
    }
}

// A transmit role's end of function 1's output ring, and what it sent.
#[derive(Drop)]
struct Sender {
    token: Token,
    output: Head,
    sent: Vec<SentFrame>,
}

impl Sender {
    fn start(alloc: Global, board: &Board, plan: &Plan, token: Token) -> Sender
        requires layout { IsTestLayout board.now.layout }
        requires plan { IsLayoutOf plan.now board.now.layout }
        requires fresh { IsFresh board.now 2 token }
        ensures sends { Sends board.now result.token result.output }
    {
        let output = Head::at(board, RingId::Output(FnId(1)), plan.output);
        Sender {
            token,
            output,
            sent: Vec::new(alloc),
        }
    }

    // False where there is no frame, or memory is wanting.
    fn send_one(&mut self, board: &Board) -> bool
        requires sends { Sends board.now self.old.token self.old.output }
        ensures sends { result ≡ true → Sends board.now self.new.token self.new.output }
    {
        let Some(buf) = self.output.pop(board, &mut self.token) else {
            return false;
        };
        let frame = send(board, &mut self.token, buf, 0);
        self.sent.push(frame).is_ok()
    }

    // A burst of frames is sent.
    fn send_all(&mut self, board: &Board) -> bool
        requires sends { Sends board.now self.old.token self.old.output }
        ensures sends { result ≡ true → Sends board.now self.new.token self.new.output }
    {
        for _ in 0..BURST {
            if !self.send_one(board) {
                return false;
            }
        }
        true
    }
}

/// What the steps alone cost, over bursts.
#[derive(Clone, Copy, Debug)]
pub struct StepCosts {
    /// Of a frame that a function handles.
    pub handled: Cost,
    /// Of one that goes on to a lane, and of one that is sent.
    pub onward: Costs,
}

/// What the steps alone cost of frames that a function handles, of ones that go on to a lane, and of
/// ones that are sent.
pub fn cost_of_steps<C: Clock>(
    alloc: Global,
    plan: &Plan,
    board: &Board,
    lead: &mut Token,
    clock: &C,
    rounds: u32,
) -> Result<StepCosts, NoMemory>
    requires plan { IsTestPlan plan.now }
    requires layout { IsLayoutOf plan.now board.now.layout }
    requires ranges { IsLayout board.now.layout }
    requires lead { lead.old ≡ first_token board.now }
{
    let Line {
        mut entrance,
        mut first,
        mover,
        mut second,
        sender,
    } = Line::start(plan, board, lead);
    let mut mover = Mover::start(board, plan, mover);
    let mut sender = Sender::start(alloc, board, plan, sender);
    let mut handled = Cost::new();
    let mut onward = Costs::new();
    for _ in 0..rounds {
        if !entrance.enter_all(alloc, board, BURST)? {
            break;
        }
        let start = clock.now();
        if !first.handle_all(board, Verdict::Next) {
            break;
        }
        add(&mut handled, clock, start);
        let start = clock.now();
        if !mover.move_all(board) {
            break;
        }
        add(&mut onward.moved, clock, start);
        if !second.handle_all(board, Verdict::Out(0)) {
            break;
        }
        let start = clock.now();
        if !sender.send_all(board) {
            break;
        }
        add(&mut onward.sent, clock, start);
    }
    Ok(StepCosts { handled, onward })
}

// One more burst, since this moment.
fn add<C: Clock>(cost: &mut Cost, clock: &C, start: u64) {
    let time = clock.now().saturating_sub(start);
    cost.add(time, u64::from(BURST));
}

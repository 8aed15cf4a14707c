//! Buffers that go round: from a lane to the output ring, and from there to a lane.
ghost use Rattle.std.specs.Prelude.{◌≡◌, ◌<◌, ◌≤◌, None, false, length};
ghost use Rattle.onvm_base.specs.declared.limits.TheConstants.{MAX_HOPS};
ghost use Rattle.onvm_base.specs.declared.outcome.Outcome.TheVariants.{Sent};
ghost use Rattle.onvm_core.specs.declared.step.Act.TheVariants.{Give};
ghost use Rattle.onvm_core.specs.Layouts.{IsBuffer, same_ring};
ghost use Rattle.onvm_board.specs.Tokens.{Carries, IsHead, MakesStep, parcel_in, token_with};
ghost use Rattle.board_bench.specs.Stages.{IsCore, IsSame, IsSized, IsTransmit};

use crate::boards::RING;
use crate::cost::{BURST, Cost};
use onvm_base::{BufId, FnId, MAX_HOPS, Outcome};
use onvm_board::{Board, Spot, Token};
use onvm_core::{Crumb, Trail};
use onvm_host::Clock;

/// A role's token with two of its ends.
#[derive(Drop)]
pub struct Stage {
    pub token: Token,
    pub from: Spot,
    pub onto: Spot,
}

/// What a hop costs, over bursts. The rings hold some buffers.
pub fn cost_of_hops<C: Clock>(
    board: &Board,
    clock: &C,
    core: &mut Stage,
    transmit: &mut Stage,
    crumb: Crumb,
    rounds: u32,
) -> Cost
    requires sized { IsSized board.now }
    requires core { IsCore board.now crumb.function.0 1 core.old }
    requires transmit { IsTransmit board.now crumb.function.0 1 transmit.old }
{
    let mut cost = Cost::new();
    for _ in 0..rounds {
        let start = clock.now();
        let sum = hop_burst(board, core, transmit, crumb);
        cost.add(clock.now().saturating_sub(start), sum);
    }
    cost
}

fn hop_burst(board: &Board, core: &mut Stage, transmit: &mut Stage, crumb: Crumb) -> u64
    requires sized { IsSized board.now }
    requires core { IsCore board.now crumb.function.0 1 core.old }
    requires transmit { IsTransmit board.now crumb.function.0 1 transmit.old }
    ensures core { IsCore board.now crumb.function.0 1 core.new }
    ensures transmit { IsTransmit board.now crumb.function.0 1 transmit.new }
{
    let mut sum = 0u64;
    for _ in 0..BURST {
        let handled = core_hop(board, core, 1, crumb);
        let sent = transmit_hop(board, transmit, crumb.function);
        sum = sum.wrapping_add(handled).wrapping_add(sent);
    }
    sum
}

/// Moves buffers from the receive role's lane to the transmit role's, so many times.
pub fn prime(
    board: &Board,
    core: &mut Stage,
    transmit: &mut Stage,
    own: Spot,
    crumb: Crumb,
    rounds: u32,
)
    requires sized { IsSized board.now }
    requires core { IsCore board.now crumb.function.0 0 core.old }
    requires transmit { IsTransmit board.now crumb.function.0 1 transmit.old }
    requires own { IsHead board.now own core.old.token }
    requires apart { same_ring core.old.from.ring own.ring ≡ false }
    ensures core { IsCore board.now crumb.function.0 0 core.new }
    ensures transmit { IsTransmit board.now crumb.function.0 1 transmit.new }
    ensures own { IsHead board.now own core.new.token }
{
    let _ = own;
    for _ in 0..rounds {
        core_hop(board, core, 0, crumb);
        transmit_hop(board, transmit, crumb.function);
    }
}

/// A core's half: pop, crumb, push.
pub fn core_hop(board: &Board, core: &mut Stage, feeder: u8, crumb: Crumb) -> u64
    requires sized { IsSized board.now }
    requires core { IsCore board.now crumb.function.0 feeder core.old }
    ensures core { IsCore board.now crumb.function.0 feeder core.new }
    ensures ring { core.new.from.ring ≡ core.old.from.ring }
    ensures others { (spot : _) → same_ring core.old.from.ring spot.ring ≡ false
        → IsHead board.now spot core.old.token → IsHead board.now spot core.new.token }
{
    let _ = feeder;
    let Some(buf) = board.pop(&mut core.token, core.from) else {
        return 0;
    };
    core.from = core.from.next(RING);
    add_crumb(board, &mut core.token, buf, crumb);
    match board.push(&mut core.token, core.onto, buf) {
        Ok(()) => {
            core.onto = core.onto.next(RING);
            1
        }
        Err(_) => {
            give_up(board, &mut core.token, buf);
            0
        }
    }
}

// A transmit role's half: pop, cursor, push.
fn transmit_hop(board: &Board, transmit: &mut Stage, function: FnId) -> u64
    requires sized { IsSized board.now }
    requires transmit { IsTransmit board.now function.0 1 transmit.old }
    ensures transmit { IsTransmit board.now function.0 1 transmit.new }
{
    let _ = function;
    let Some(buf) = board.pop(&mut transmit.token, transmit.from) else {
        return 0;
    };
    transmit.from = transmit.from.next(RING);
    let cursor = add_cursor(board, &mut transmit.token, buf);
    match board.push(&mut transmit.token, transmit.onto, buf) {
        Ok(()) => {
            transmit.onto = transmit.onto.next(RING);
            cursor
        }
        Err(_) => {
            give_up(board, &mut transmit.token, buf);
            0
        }
    }
}

// A crumb in the slot of the buffer in hand.
fn add_crumb(board: &Board, token: &mut Token, buf: BufId, crumb: Crumb)
    requires board { token.old.board ≡ board.now.id }
    requires carries { Carries buf.0 token.old }
    requires trail { length (parcel_in token.old).trail < MAX_HOPS }
    ensures carries { Carries buf.0 token.new }
    ensures trail { (1 ≤ length (parcel_in token.new).trail) × (length (parcel_in token.new).trail ≤ MAX_HOPS) }
    ensures same { IsSame token.old token.new }
{
    match token.slot(board, buf) {
        Some(parcel) => parcel.trail.add(crumb),
        None => {}
    }
}

// The next cursor, in the slot. The trail begins anew where it is full.
fn add_cursor(board: &Board, token: &mut Token, buf: BufId) -> u64
    requires board { token.old.board ≡ board.now.id }
    requires carries { Carries buf.0 token.old }
    ensures carries { Carries buf.0 token.new }
    ensures trail { length (parcel_in token.new).trail < MAX_HOPS }
    ensures same { IsSame token.old token.new }
{
    match token.slot(board, buf) {
        Some(parcel) => {
            parcel.cursor = parcel.cursor.wrapping_add(1);
            if parcel.trail.len() >= MAX_HOPS {
                parcel.trail = Trail::none();
            }
            u64::from(parcel.cursor)
        }
        None => 0,
    }
}

/// The buffer in hand goes back to the pool. A function of its own, since whoever has a place for a
/// parcel writes zeros over the place first.
pub fn give_up(board: &Board, token: &mut Token, buf: BufId)
    requires board { token.old.board ≡ board.now.id }
    requires known { IsBuffer board.now.layout buf.0 }
    requires carries { Carries buf.0 token.old }
    ensures given { MakesStep board.now (Give buf (Sent 0) (parcel_in token.old)) (token_with
        token.old buf.0 None) token.new }
{
    let Some(parcel) = board.lend(token, buf, None) else {
        unreachable!()
    };
    board.give(token, buf, Outcome::Sent(0), &parcel);
}

//! Frames that enter by a lane, are handled and leave, each with a buffer.
ghost use Rattle.std.specs.Prelude.{◌≡◌, ◌≢◌, ◌<◌, ◌≤◌, [], ◌∷◌, IfOk, length, None, true, false};
ghost use Rattle.onvm_base.specs.declared.limits.TheConstants.{MAX_HOPS};
ghost use Rattle.onvm_base.specs.declared.ids.RingId.TheVariants.{Lane, Output};
ghost use Rattle.onvm_core.specs.Layouts.{IsBuffer, ring_size};
ghost use Rattle.onvm_board.specs.Tokens.{Carries, IsBufferRing, IsHead, IsTail, parcel_in};

use crate::board::Board;
use crate::spot::Spot;
use crate::token::Token;
use onvm_base::{BufId, ChainId, FrameId, NoMemory, Outcome, Packet, PortId, Stamp};
use onvm_core::{Crumb, Parcel, Trail, Word};
use std::alloc::Global;

/// A frame of three bytes, of which the first is its number, and no crumb yet.
pub fn parcel(alloc: Global, number: u8) -> Result<Parcel, NoMemory>
    ensures fresh { IfOk result (λ parcel. parcel.trail ≡ []) }
{
    let packet = Packet::from_slice(alloc, &[number, 8, 9])?;
    Ok(Parcel {
        frame: FrameId {
            port: PortId(0),
            number: u32::from(number),
        },
        stamp: Stamp {
            seconds: 0,
            nanos: 0,
            tail: 0,
        },
        hash: 0,
        packet,
        chain: ChainId(0),
        cursor: 0,
        trail: Trail::none(),
    })
}

/// Takes a buffer of the one port where the pool has it.
pub fn take(board: &Board, token: &mut Token, buf: BufId) -> bool
    requires board { token.old.board ≡ board.now.id }
    requires layout { (board.now.layout.ports ≡ 1) × (board.now.layout.buffers ≡ 4) × (board.now.layout.ring ≡ 8) }
    requires known { buf.0 < 4 }
    requires role { token.old.role ≡ 0 }
    requires empty_handed { token.old.hand ≡ [] }
    ensures taken { result ≡ true → token.new.hand ≡ (buf.0, None) ∷ [] }
    ensures none { result ≡ false → token.new.hand ≡ [] }
    ensures same { (token.new.board ≡ token.old.board) × (token.new.role ≡ token.old.role) }
    ensures ends { (spot : _) → IsTail board.now spot token.old → IsTail board.now spot token.new }
{
    let word = Word::Pool {
        port: PortId(0),
        index: 0,
    };
    let seen = board.look(token, word);
    if seen >> buf.0 & 1 == 0 {
        return false;
    }
    board.take(token, buf);
    true
}

/// Gives the buffer in hand back, and its parcel out.
pub fn give(board: &Board, token: &mut Token, buf: BufId) -> Parcel
    requires board { token.old.board ≡ board.now.id }
    requires known { IsBuffer board.now.layout buf.0 }
    requires carries { Carries buf.0 token.old }
    ensures parcel { result ≡ parcel_in token.old }
    ensures same { (token.new.board ≡ token.old.board) × (token.new.role ≡ token.old.role) }
    ensures empty_handed { token.new.hand ≡ [] }
    ensures tails { (spot : _) → IsTail board.now spot token.old → IsTail board.now spot token.new }
    ensures heads { (spot : _) → IsHead board.now spot token.old → IsHead board.now spot token.new }
{
    let Some(parcel) = board.lend(token, buf, None) else {
        unreachable!()
    };
    board.give(token, buf, Outcome::Sent(0), &parcel);
    parcel
}

/// A frame enters by a lane, with the buffer that its number names of the four. False where the pool
/// hasn't that one, or the lane is full.
pub fn enter(
    alloc: Global,
    board: &Board,
    token: &mut Token,
    lane: &mut Spot,
    number: u8,
) -> Result<bool, NoMemory>
    requires layout { (board.now.layout.ports ≡ 1) × (board.now.layout.buffers ≡ 4) × (board.now.layout.ring ≡ 8) }
    requires role { token.old.role ≡ 0 }
    requires empty_handed { token.old.hand ≡ [] }
    requires tail { IsTail board.now lane.old token.old }
    requires ring { lane.old.ring ≡ Lane (record { 0 = 0 }) 0 }
    ensures tail { IsTail board.now lane.new token.new }
    ensures ring { lane.new.ring ≡ lane.old.ring }
    ensures role { token.new.role ≡ token.old.role }
    ensures empty_handed { token.new.hand ≡ [] }
{
    let parcel = parcel(alloc, number)?;
    let buf = BufId(u16::from(number % 4));
    if !take(board, token, buf) {
        return Ok(false);
    }
    drop(board.lend(token, buf, Some(parcel)));
    match board.push(token, *lane, buf) {
        Ok(()) => {
            *lane = lane.next(8);
            Ok(true)
        }
        Err(_) => {
            drop(give(board, token, buf));
            Ok(false)
        }
    }
}

/// A core's pop, crumb and push. False where the lane is empty, or the output ring full.
pub fn handle(board: &Board, token: &mut Token, lane: Spot, output: Spot, crumb: Crumb) -> bool
    requires head { IsHead board.now lane token.old }
    requires tail { IsTail board.now output token.old }
    requires rings { (lane.ring ≡ Lane (record { 0 = 0 }) 0) × (output.ring ≡ Output (record { 0 = 0 })) }
    requires empty_handed { token.old.hand ≡ [] }
    ensures same { (token.new.board ≡ token.old.board) × (token.new.role ≡ token.old.role) }
    ensures empty_handed { token.new.hand ≡ [] }
{
    let Some(buf) = board.pop(token, lane) else {
        return false;
    };
    add_crumb(board, token, buf, crumb);
    if board.push(token, output, buf).is_err() {
        drop(give(board, token, buf));
        return false;
    }
    true
}

// A crumb is added in the slot.
fn add_crumb(board: &Board, token: &mut Token, buf: BufId, crumb: Crumb)
    requires board { token.old.board ≡ board.now.id }
    requires carries { Carries buf.0 token.old }
    requires trail { length (parcel_in token.old).trail < MAX_HOPS }
    ensures carries { Carries buf.0 token.new }
    ensures trail { (1 ≤ length (parcel_in token.new).trail) × (length (parcel_in token.new).trail ≤ MAX_HOPS) }
    ensures log { (token.new.log ≡ token.old.log) × (token.new.role ≡ token.old.role) ×
        (token.new.board ≡ token.old.board) }
{
    match token.slot(board, buf) {
        Some(parcel) => parcel.trail.add(crumb),
        None => {}
    }
}

/// The next frame of a ring leaves.
pub fn leave(board: &Board, token: &mut Token, from: &mut Spot, size: u16) -> Option<Parcel>
    requires head { IsHead board.now from.old token.old }
    requires size { size ≡ ring_size board.now.layout from.old.ring }
    requires buffers { IsBufferRing from.old.ring }
    requires empty_handed { token.old.hand ≡ [] }
    ensures head { IsHead board.now from.new token.new }
    ensures ring { from.new.ring ≡ from.old.ring }
    ensures role { token.new.role ≡ token.old.role }
    ensures empty_handed { token.new.hand ≡ [] }
{
    match board.pop(token, *from) {
        Some(buf) => {
            *from = from.next(size);
            Some(give(board, token, buf))
        }
        None => None,
    }
}

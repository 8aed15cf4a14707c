//! Frames that enter by the lane, and leave it.
ghost use Rattle.std.specs.Prelude.{◌≡◌, ◌<◌, [], ◌∷◌, IfOk, None, false, true};
ghost use Rattle.onvm_core.specs.Layouts.{IsBuffer};
ghost use Rattle.onvm_board.specs.Tokens.{Carries};
ghost use Rattle.desc_ring.specs.Ends.{IsHeadOf, IsTailOf};
ghost use Rattle.entry_throttle.specs.Examples.{Feeds, IsSmall};
ghost use Rattle.entry_throttle.specs.Feeders.{IsFeederOf};

use crate::Feeder;
use desc_ring::{Head, Tail};
use onvm_base::{BufId, ChainId, FnId, FrameId, NoMemory, Outcome, Packet, PortId, Stamp};
use onvm_board::{Board, Token};
use onvm_core::{Parcel, Trail, Word};
use std::alloc::Global;

// A frame of one byte, its number, and no crumb yet.
fn parcel(alloc: Global, number: u8) -> Result<Parcel, NoMemory>
    ensures fresh { IfOk result (λ parcel. parcel.trail ≡ []) }
{
    let packet = Packet::from_slice(alloc, &[number])?;
    Ok(Parcel {
        frame: FrameId {
            port: PortId(0),
            number: u32::from(number),
        },
        stamp: Stamp {
            seconds: 0,
            nanos: 0,
            tail: 0,
        },
        hash: 0,
        packet,
        chain: ChainId(0),
        cursor: 0,
        trail: Trail::none(),
    })
}

// Takes a buffer of the one port where the pool has it.
fn take(board: &Board, token: &mut Token, buf: BufId) -> bool
    requires board { token.old.board ≡ board.now.id }
    requires layout { IsSmall board.now.layout }
    requires known { buf.0 < 8 }
    requires role { token.old.role ≡ 0 }
    requires empty_handed { token.old.hand ≡ [] }
    ensures taken { result ≡ true → token.new.hand ≡ (buf.0, None) ∷ [] }
    ensures same { (token.new.board ≡ token.old.board) × (token.new.role ≡ token.old.role) }
    ensures tail { (tail : _) → IsTailOf board.now tail token.old → IsTailOf board.now tail token.new }
    ensures feeder { (feeder : _) → IsFeederOf board.now feeder token.old → IsFeederOf board.now feeder token.new }
{
    let word = Word::Pool {
        port: PortId(0),
        index: 0,
    };
    let seen = board.look(token, word);
    if seen >> buf.0 & 1 == 0 {
        return false;
    }
    board.take(token, buf);
    true
}

/// A frame enters by the lane at a moment, with the buffer of its number, and the feeder takes note.
/// False where the pool hasn't that buffer, or the lane is full.
pub fn enter(
    alloc: Global,
    board: &Board,
    token: &mut Token,
    feeder: &mut Feeder,
    tail: &mut Tail,
    number: u8,
    now: u64,
) -> Result<bool, NoMemory>
    requires layout { IsSmall board.now.layout }
    requires feeds { Feeds board.now feeder.old tail.old token.old }
    requires number { number < 8 }
    ensures feeds { IfOk result (λ entered. entered ≡ true → Feeds board.now feeder.new tail.new token.new) }
{
    let parcel = parcel(alloc, number)?;
    let buf = BufId(u16::from(number));
    if !take(board, token, buf) {
        return Ok(false);
    }
    drop(board.lend(token, buf, Some(parcel)));
    match tail.push(board, token, buf) {
        Ok(()) => {
            feeder.pushed(FnId(0), tail.spot(), now);
            Ok(true)
        }
        Err(_) => Ok(false),
    }
}

// Gives the buffer in hand back.
fn give(board: &Board, token: &mut Token, buf: BufId)
    requires board { token.old.board ≡ board.now.id }
    requires known { IsBuffer board.now.layout buf.0 }
    requires carries { Carries buf.0 token.old }
    ensures empty_handed { token.new.hand ≡ [] }
    ensures head { (head : _) → IsHeadOf board.now head token.old → IsHeadOf board.now head token.new }
{
    let Some(parcel) = board.lend(token, buf, None) else {
        unreachable!()
    };
    board.give(token, buf, Outcome::Sent(0), &parcel);
}

/// The next frame leaves the lane. False where there is none.
pub fn leave(board: &Board, token: &mut Token, head: &mut Head) -> bool
    requires head { IsHeadOf board.now head.old token.old }
    requires empty_handed { token.old.hand ≡ [] }
    ensures head { IsHeadOf board.now head.new token.new }
    ensures empty_handed { token.new.hand ≡ [] }
{
    match head.pop(board, token) {
        Some(buf) => {
            give(board, token, buf);
            true
        }
        None => false,
    }
}

//! Frames that enter by function 0's lane, and that functions handle.
ghost use Rattle.std.specs.Prelude.{◌≡◌, ◌<◌, ◌≤◌, [], IfOk, length, suc, true};
ghost use Rattle.onvm_base.specs.declared.limits.TheConstants.{MAX_HOPS};
ghost use Rattle.onvm_board.specs.Tokens.{Carries, parcel_in};
ghost use Rattle.tx_pass.specs.Examples.{Enters, Handles};

use crate::cost::BURST;
use desc_ring::{Head, Tail};
use mbuf_pool::Part;
use onvm_base::{BufId, ChainId, FnId, FrameId, NoMemory, Packet, PortId, Stamp, Verdict};
use onvm_board::{Board, Token};
use onvm_core::{Crumb, Parcel, Trail};
use std::alloc::Global;

fn parcel(alloc: Global, number: u32) -> Result<Parcel, NoMemory>
    ensures fresh { IfOk result (λ parcel. parcel.trail ≡ []) }
{
    let packet = Packet::from_slice(alloc, &[1, 2, 3])?;
    Ok(Parcel {
        frame: FrameId {
            port: PortId(0),
            number,
        },
        stamp: Stamp {
            seconds: 0,
            nanos: 0,
            tail: 0,
        },
        hash: 0,
        packet,
        chain: ChainId(0),
        cursor: 0,
        trail: Trail::none(),
    })
}

/// The receive role, its part of the pool, and its end of function 0's lane.
#[derive(Drop)]
pub struct Entrance {
    pub token: Token,
    pub part: Part,
    pub lane: Tail,
}

impl Entrance {
    // A frame enters. False where there is no buffer, or the lane is full.
    fn enter(&mut self, alloc: Global, board: &Board, number: u32) -> Result<bool, NoMemory>
        requires enters { Enters board.now self.old.token self.old.part self.old.lane }
        ensures enters { IfOk result (λ entered. entered ≡ true
            → Enters board.now self.new.token self.new.part self.new.lane) }
    {
        let parcel = parcel(alloc, number)?;
        let Some(buf) = self.part.take(board, &mut self.token, parcel.frame) else {
            return Ok(false);
        };
        drop(board.lend(&mut self.token, buf, Some(parcel)));
        Ok(self.lane.push(board, &mut self.token, buf).is_ok())
    }

    /// So many frames enter. False where one of them can't.
    pub fn enter_all(&mut self, alloc: Global, board: &Board, frames: u32) -> Result<bool, NoMemory>
        requires enters { Enters board.now self.old.token self.old.part self.old.lane }
        ensures enters { IfOk result (λ entered. entered ≡ true
            → Enters board.now self.new.token self.new.part self.new.lane) }
    {
        for number in 0..frames {
            if !self.enter(alloc, board, number)? {
                return Ok(false);
            }
        }
        Ok(true)
    }
}

// A crumb in the slot of the buffer in hand.
fn add_crumb(board: &Board, token: &mut Token, buf: BufId, verdict: Verdict)
    requires board { token.old.board ≡ board.now.id }
    requires carries { Carries buf.0 token.old }
    requires trail { length (parcel_in token.old).trail < MAX_HOPS }
    ensures carries { Carries buf.0 token.new }
    ensures trail { length (parcel_in token.new).trail ≡ suc (length (parcel_in token.old).trail) }
    ensures same { token.new ≡ record token.old { hand = token.new.hand } }
{
    match token.slot(board, buf) {
        Some(parcel) => parcel.trail.add(Crumb {
            place: 0,
            function: FnId(0),
            verdict,
        }),
        None => {}
    }
}

/// A core with its ends of a function's lane from one feeder and of the function's output ring.
#[derive(Drop)]
pub struct Core {
    pub token: Token,
    pub lane: Head,
    pub output: Tail,
}

impl Core {
    // The function handles the next frame of the lane, by the board's own steps. False where there is
    // none, or the output ring is full.
    fn handle(&mut self, board: &Board, verdict: Verdict) -> bool
        requires handles { Handles board.now self.old.token self.old.lane self.old.output }
        ensures handles { result ≡ true → Handles board.now self.new.token self.new.lane self.new.output }
    {
        if self.output.room(board, &mut self.token).is_err() {
            return false;
        }
        let Some(buf) = self.lane.pop(board, &mut self.token) else {
            return false;
        };
        add_crumb(board, &mut self.token, buf, verdict);
        self.output.push(board, &mut self.token, buf).is_ok()
    }

    /// It handles a burst of frames.
    pub fn handle_all(&mut self, board: &Board, verdict: Verdict) -> bool
        requires handles { Handles board.now self.old.token self.old.lane self.old.output }
        ensures handles { result ≡ true → Handles board.now self.new.token self.new.lane self.new.output }
    {
        for _ in 0..BURST {
            if !self.handle(board, verdict) {
                return false;
            }
        }
        true
    }
}

//! Frames that enter by function 0's lane, and that functions handle.
ghost use Rattle.std.specs.Prelude.{◌≡◌, ◌<◌, ◌≤◌, [], IfOk, length, suc, true};
ghost use Rattle.onvm_base.specs.declared.limits.TheConstants.{MAX_HOPS};
ghost use Rattle.onvm_board.specs.Tokens.{Carries, parcel_in};
ghost use Rattle.tx_pass.specs.Examples.{Enters, Handles};

use desc_ring::{Head, Tail};
use mbuf_pool::Part;
use onvm_base::{BufId, ChainId, FnId, FrameId, NoMemory, Packet, PortId, Stamp, Verdict};
use onvm_board::{Board, Token};
use onvm_core::{Crumb, Parcel, Trail};
use std::alloc::Global;

/// A frame of port 0.
pub fn frame(number: u32) -> FrameId {
    FrameId {
        port: PortId(0),
        number,
    }
}

fn crumb(verdict: Verdict) -> Crumb {
    Crumb {
        place: 0,
        function: FnId(0),
        verdict,
    }
}

// So many crumbs, of which none leads on.
fn trail(hops: u8) -> Trail
    requires { hops ≤ MAX_HOPS }
    ensures { length result ≡ hops }
{
    let mut trail = Trail::none();
    for _ in 0..hops {
        trail.add(crumb(Verdict::Drop));
    }
    trail
}

/// A frame that enters: its number, where it is in chain 0, and how many functions have handled it.
#[derive(Clone, Copy)]
pub struct Arrival {
    pub number: u32,
    pub cursor: u8,
    pub hops: u8,
}

impl Arrival {
    pub fn new(number: u32, cursor: u8, hops: u8) -> Arrival
        ensures { result ≡ record { number = number; cursor = cursor; hops = hops } }
    {
        Arrival {
            number,
            cursor,
            hops,
        }
    }
}

fn parcel(alloc: Global, arrival: Arrival) -> Result<Parcel, NoMemory>
    requires { arrival.hops < MAX_HOPS }
    ensures trail { IfOk result (λ parcel. length parcel.trail ≡ arrival.hops) }
{
    let packet = Packet::from_slice(alloc, &[1, 2, 3])?;
    Ok(Parcel {
        frame: frame(arrival.number),
        stamp: Stamp {
            seconds: 4,
            nanos: 5,
            tail: 6,
        },
        hash: 0,
        packet,
        chain: ChainId(0),
        cursor: arrival.cursor,
        trail: trail(arrival.hops),
    })
}

/// The receive role, its part of the pool, and its end of function 0's lane.
#[derive(Drop)]
pub struct Entrance {
    pub token: Token,
    pub part: Part,
    pub lane: Tail,
}

impl Entrance {
    /// A frame enters. False where there is no buffer, or the lane is full.
    pub fn enter(
        &mut self,
        alloc: Global,
        board: &Board,
        arrival: Arrival,
    ) -> Result<bool, NoMemory>
        requires enters { Enters board.now self.old.token self.old.part self.old.lane }
        requires hops { arrival.hops < MAX_HOPS }
        ensures enters { IfOk result (λ entered. entered ≡ true
            → Enters board.now self.new.token self.new.part self.new.lane) }
    {
        let parcel = parcel(alloc, arrival)?;
        let Some(buf) = self.part.take(board, &mut self.token, parcel.frame) else {
            return Ok(false);
        };
        drop(board.lend(&mut self.token, buf, Some(parcel)));
        Ok(self.lane.push(board, &mut self.token, buf).is_ok())
    }
}

// A crumb in the slot of the buffer in hand.
fn add_crumb(board: &Board, token: &mut Token, buf: BufId, verdict: Verdict)
    requires board { token.old.board ≡ board.now.id }
    requires carries { Carries buf.0 token.old }
    requires trail { length (parcel_in token.old).trail < MAX_HOPS }
    ensures carries { Carries buf.0 token.new }
    ensures trail { length (parcel_in token.new).trail ≡ suc (length (parcel_in token.old).trail) }
    ensures same { token.new ≡ record token.old { hand = token.new.hand } }
{
    match token.slot(board, buf) {
        Some(parcel) => parcel.trail.add(crumb(verdict)),
        None => {}
    }
}

/// A core with its ends of a function's lane from one feeder and of the function's output ring.
#[derive(Drop)]
pub struct Core {
    pub token: Token,
    pub lane: Head,
    pub output: Tail,
}

impl Core {
    /// The function handles the next frame of the lane with this verdict. False where there is none, or
    /// the output ring is full.
    pub fn handle(&mut self, board: &Board, verdict: Verdict) -> bool
        requires handles { Handles board.now self.old.token self.old.lane self.old.output }
        ensures handles { result ≡ true → Handles board.now self.new.token self.new.lane self.new.output }
    {
        let Some(buf) = self.lane.pop(board, &mut self.token) else {
            return false;
        };
        add_crumb(board, &mut self.token, buf, verdict);
        self.output.push(board, &mut self.token, buf).is_ok()
    }
}

//! Producers' ends of lanes and output rings.
ghost use Rattle.std.specs.Prelude.{◌≡◌, ◌-◌, ◌%◌, ◌<◌, ◌≤◌, ℕ, IfErr, IfOk, IsOk, true};
ghost use Rattle.onvm_core.specs.declared.step.Act.TheVariants.{Full as FullAct, Push};
ghost use Rattle.onvm_core.specs.declared.step.Item.TheVariants.{Buffer};
ghost use Rattle.onvm_core.specs.Layouts.{IsBuffer, IsRing};
ghost use Rattle.onvm_board.specs.Known.{has_room};
ghost use Rattle.onvm_board.specs.Rule.{FitsRing};
ghost use Rattle.onvm_board.specs.Spots.{start_spot};
ghost use Rattle.onvm_board.specs.Tokens.{Carries, MakesStep, parcel_in};
ghost use Rattle.desc_ring.specs.Ends.{Finds, IsTailOf, LeavesEnds, LeavesOthers, SeesFull, SeesRoom};

use onvm_base::{BufId, Full, RingId};
use onvm_board::{Board, Spot, Token};
use onvm_core::Word;

/// A producer's end of a lane or an output ring.
#[derive(Clone, Copy, Debug)]
pub struct Tail {
    pub spot: Spot,
    /// How many buffers the ring takes.
    pub size: u16,
}

impl Tail {
    /// An end that has pushed nothing, of a ring of this size.
    pub fn at(board: &Board, ring: RingId, size: u16) -> Tail
        requires known { IsRing board.now.layout ring }
        ensures { result ≡ record { spot = start_spot board.now.layout ring; size = size } }
    {
        Tail {
            spot: board.start(ring),
            size,
        }
    }

    /// Where the next push is.
    pub fn spot(&self) -> Spot
        ensures { result ≡ self.now.spot }
    {
        self.spot
    }

    /// Pushes the buffer in hand, with its parcel. Full exactly where the ring held its size at this
    /// step, and never where the token saw room since its last push here; the buffer stays in hand
    /// then.
    pub fn push(&mut self, board: &Board, token: &mut Token, buf: BufId) -> Result<(), Full>
        requires tail { IsTailOf board.now self.old token.old }
        requires known { IsBuffer board.now.layout buf.0 }
        requires carries { Carries buf.0 token.old }
        requires fits { FitsRing self.old.spot.ring (parcel_in token.old) }
        ensures pushed { IfOk result (λ _.
            MakesStep board.now (Push self.old.spot.ring (Buffer buf (parcel_in token.old))) token.old token.new) }
        ensures full { IfErr result (λ _. MakesStep board.now (FullAct self.old.spot.ring) token.old token.new) }
        ensures roomy { has_room board.now.layout self.old.spot.ring token.old.log ≡ true → IsOk result }
        ensures tail { IsTailOf board.now self.new token.new }
        ensures ring { self.new.spot.ring ≡ self.old.spot.ring }
        ensures others { LeavesOthers board.now self.old.spot.ring token.old token.new }
    {
        board.push(token, self.spot, buf)?;
        self.spot = self.spot.next(self.size);
        Ok(())
    }

    /// Looks whether the ring has room. Full exactly where it held its size at this step. After Ok
    /// the token's next push here isn't refused, whatever anyone does in between.
    pub fn room(&self, board: &Board, token: &mut Token) -> Result<(), Full>
        requires tail { IsTailOf board.now self.now token.old }
        ensures room { IfOk result (λ _. SeesRoom board.now self.now.spot.ring token.old token.new) }
        ensures full { IfErr result (λ _. SeesFull board.now self.now.spot.ring token.old token.new) }
        ensures roomy { IfOk result (λ _. has_room board.now.layout self.now.spot.ring token.new.log ≡ true) }
        ensures ends { LeavesEnds board.now token.old token.new }
    {
        let word = Word::Cell {
            ring: self.spot.ring,
            at: self.spot.cell,
        };
        if board.look(token, word) == 0 {
            Ok(())
        } else {
            Err(Full)
        }
    }

    /// Whether the ring holds at least k. Where fewer than k were pushed it doesn't, and no step is
    /// made.
    pub fn at_least(&self, board: &Board, token: &mut Token, k: u16) -> bool
        requires tail { IsTailOf board.now self.now token.old }
        requires k { (1 ≤ k) × (k ≤ self.now.size) }
        ensures finds { Finds board.now self.now.spot.ring k token.old token.new result }
        ensures ends { LeavesEnds board.now token.old token.new }
    {
        if self.spot.filled < k {
            return false;
        }
        let word = Word::Cell {
            ring: self.spot.ring,
            at: back(self.spot.cell, k, self.size),
        };
        board.look(token, word) != 0
    }
}

// The cell that is k cells before another, round the ring.
fn back(cell: u16, k: u16, size: u16) -> u16
    requires { (cell < size) × (k ≤ size) }
    ensures within { (1 ≤ k) → result < size }
    ensures stands { (pushed : ℕ) → cell ≡ pushed % size → k ≤ pushed → result ≡ (pushed - k) % size }
{
    if cell >= k {
        cell - k
    } else {
        cell + (size - k)
    }
}

//! The end of a ring.
ghost use Rattle.std.specs.Prelude.{◌≡◌, ◌<◌, ◌≤◌};
ghost use Rattle.onvm_core.specs.Layouts.{IsRing};
ghost use Rattle.onvm_board.specs.Spots.{next_spot, start_spot};

use crate::board::Board;
use onvm_base::RingId;

/// Where a token's next push or pop of a ring is.
#[derive(Clone, Copy, Debug, PartialEq, Eq)]
pub struct Spot {
    pub ring: RingId,
    /// The word of the ring's first cell.
    pub base: u32,
    /// How many pushes or pops the ring's end has made, modulo the ring's size.
    pub cell: u16,
    /// That number, or the ring's size where the number is larger.
    pub filled: u16,
}

impl Spot {
    /// The spot after one more push or pop of a ring of this size.
    pub fn next(self, size: u16) -> Spot
        requires cell { self.cell < size }
        requires filled { self.filled ≤ size }
        ensures { result ≡ next_spot size self }
    {
        Spot {
            ring: self.ring,
            base: self.base,
            cell: if self.cell + 1 == size {
                0
            } else {
                self.cell + 1
            },
            filled: if self.filled == size {
                size
            } else {
                self.filled + 1
            },
        }
    }
}

impl Board {
    /// The spot of a ring's end that has moved nothing.
    pub fn start(&self, ring: RingId) -> Spot
        requires known { IsRing self.now.layout ring }
        ensures { result ≡ start_spot self.now.layout ring }
    {
        Spot {
            ring,
            base: self.memory.base(ring),
            cell: 0,
            filled: 0,
        }
    }
}

//! Consumers' ends of lanes and output rings.
ghost use Rattle.std.specs.Prelude.{◌≡◌, [], IfNone, IfSome};
ghost use Rattle.onvm_core.specs.declared.step.Act.TheVariants.{Empty, Pop};
ghost use Rattle.onvm_core.specs.declared.step.Item.TheVariants.{Buffer};
ghost use Rattle.onvm_core.specs.Layouts.{IsBuffer, IsRing};
ghost use Rattle.onvm_board.specs.Rule.{FitsRing};
ghost use Rattle.onvm_board.specs.Spots.{start_spot};
ghost use Rattle.onvm_board.specs.Tokens.{Carries, MakesStep, parcel_in};
ghost use Rattle.desc_ring.specs.Ends.{IsHeadOf, LeavesOthers};

use onvm_base::{BufId, RingId};
use onvm_board::{Board, Spot, Token};

/// A consumer's end of a lane or an output ring.
#[derive(Clone, Copy, Debug)]
pub struct Head {
    pub spot: Spot,
    /// How many buffers the ring takes.
    pub size: u16,
}

impl Head {
    /// An end that has popped nothing, of a ring of this size.
    pub fn at(board: &Board, ring: RingId, size: u16) -> Head
        requires known { IsRing board.now.layout ring }
        ensures { result ≡ record { spot = start_spot board.now.layout ring; size = size } }
    {
        Head {
            spot: board.start(ring),
            size,
        }
    }

    /// Where the next pop is.
    pub fn spot(&self) -> Spot
        ensures { result ≡ self.now.spot }
    {
        self.spot
    }

    /// Takes the first buffer of the ring in hand, with the parcel that was pushed. None exactly
    /// where the ring was empty at this step.
    pub fn pop(&mut self, board: &Board, token: &mut Token) -> Option<BufId>
        requires head { IsHeadOf board.now self.old token.old }
        requires empty_handed { token.old.hand ≡ [] }
        ensures popped { IfSome result (λ buf.
            MakesStep board.now (Pop self.old.spot.ring (Buffer buf (parcel_in token.new))) token.old token.new) }
        ensures carries { IfSome result (λ buf. Carries buf.0 token.new) }
        ensures known { IfSome result (λ buf. IsBuffer board.now.layout buf.0) }
        ensures fits { IfSome result (λ _. FitsRing self.old.spot.ring (parcel_in token.new)) }
        ensures empty { IfNone result (MakesStep board.now (Empty self.old.spot.ring) token.old token.new) }
        ensures head { IsHeadOf board.now self.new token.new }
        ensures ring { self.new.spot.ring ≡ self.old.spot.ring }
        ensures others { LeavesOthers board.now self.old.spot.ring token.old token.new }
    {
        let buf = board.pop(token, self.spot)?;
        self.spot = self.spot.next(self.size);
        Some(buf)
    }
}

//! Ends of mail rings.
ghost use Rattle.std.specs.Prelude.{◌≡◌, ◌<◌, IfErr, IfNone, IfOk, IfSome};
ghost use Rattle.onvm_core.specs.declared.step.Act.TheVariants.{Empty, Full as FullAct, Pop, Push};
ghost use Rattle.onvm_core.specs.declared.step.Item.TheVariants.{Number};
ghost use Rattle.onvm_core.specs.Layouts.{IsRing};
ghost use Rattle.onvm_board.specs.Spots.{start_spot};
ghost use Rattle.onvm_board.specs.Tokens.{MakesStep};
ghost use Rattle.desc_ring.specs.Ends.{IsMailHead, IsMailTail, LeavesOthers};

use onvm_base::{Full, MAIL_RING, RingId};
use onvm_board::{Board, Spot, Token};

/// Either end of a mail ring: the core's, which posts samples, or the tick role's, which takes them.
#[derive(Clone, Copy, Debug)]
pub struct Mail {
    pub spot: Spot,
}

impl Mail {
    /// An end that has moved nothing.
    pub fn at(board: &Board, ring: RingId) -> Mail
        requires known { IsRing board.now.layout ring }
        ensures { result ≡ record { spot = start_spot board.now.layout ring } }
    {
        Mail {
            spot: board.start(ring),
        }
    }

    /// Where the next push or pop is.
    pub fn spot(&self) -> Spot
        ensures { result ≡ self.now.spot }
    {
        self.spot
    }

    /// Pushes a sample. Full exactly where the ring held its size at this step.
    pub fn post_sample(&mut self, board: &Board, token: &mut Token, value: u64) -> Result<(), Full>
        requires mail { IsMailTail board.now self.old token.old }
        requires value { 0 < value }
        ensures pushed { IfOk result (λ _.
            MakesStep board.now (Push self.old.spot.ring (Number value)) token.old token.new) }
        ensures full { IfErr result (λ _. MakesStep board.now (FullAct self.old.spot.ring) token.old token.new) }
        ensures mail { IsMailTail board.now self.new token.new }
        ensures ring { self.new.spot.ring ≡ self.old.spot.ring }
        ensures others { LeavesOthers board.now self.old.spot.ring token.old token.new }
    {
        board.mail(token, self.spot, value)?;
        self.spot = self.spot.next(MAIL_RING);
        Ok(())
    }

    /// Takes the first sample. None exactly where the ring was empty at this step.
    pub fn take_sample(&mut self, board: &Board, token: &mut Token) -> Option<u64>
        requires mail { IsMailHead board.now self.old token.old }
        ensures popped { IfSome result (λ value.
            MakesStep board.now (Pop self.old.spot.ring (Number value)) token.old token.new) }
        ensures empty { IfNone result (MakesStep board.now (Empty self.old.spot.ring) token.old token.new) }
        ensures mail { IsMailHead board.now self.new token.new }
        ensures ring { self.new.spot.ring ≡ self.old.spot.ring }
        ensures others { LeavesOthers board.now self.old.spot.ring token.old token.new }
    {
        let value = board.unmail(token, self.spot)?;
        self.spot = self.spot.next(MAIL_RING);
        Some(value)
    }
}

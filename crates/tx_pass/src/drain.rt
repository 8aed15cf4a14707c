//! Output rings, emptied burst by burst.
ghost use Rattle.std.specs.Prelude.{◌≡◌, ◌+◌, ◌≤◌, [], ℕ, not, nat_lt};
ghost use Rattle.onvm_base.specs.declared.ids.RingId.TheVariants.{Output};
ghost use Rattle.onvm_core.specs.Layouts.{IsLayoutOf};
ghost use Rattle.onvm_core.specs.Places.{one_if};
ghost use Rattle.desc_ring.specs.Ends.{IsHeadOf};
ghost use Rattle.tx_pass.specs.Keeping.{HasRoom};

use crate::outlet::Outlet;
use desc_ring::Head;
use nf_registry::Registry;
use onvm_base::{FnId, Plan};
use onvm_board::{Board, Token};

impl Outlet {
    ghost use Rattle.tx_pass.specs.Moving.{IsOutletOf};
    ghost use Rattle.tx_pass.specs.Passing.{IsDrain};

    // Moves one parcel of a function's output ring. False where the ring was empty.
    fn move_one(
        &mut self,
        head: &mut Head,
        board: &Board,
        token: &mut Token,
        plan: &Plan,
        registry: &Registry,
        function: FnId,
        now: u64,
    ) -> bool
        requires plan { IsLayoutOf plan.now board.now.layout }
        requires registry { registry.now ≡ plan.now }
        requires head { IsHeadOf board.now head.old token.old }
        requires ring { head.old.spot.ring ≡ Output function }
        requires outlet { IsOutletOf board.now self.old token.old }
        requires empty_handed { token.old.hand ≡ [] }
        requires room { HasRoom 1 self.old.kept }
        ensures moved { IsDrain board.now plan.now now function (one_if result) (not result)
            token.old token.new self.old self.new }
        ensures head { IsHeadOf board.now head.new token.new }
        ensures ring { head.new.spot.ring ≡ Output function }
        ensures outlet { IsOutletOf board.now self.new token.new }
        ensures room { (n : ℕ) → HasRoom (n + 1) self.old.kept → HasRoom n self.new.kept }
    {
        match head.pop(board, token) {
            Some(buf) => {
                self.move_on(board, token, plan, registry, function, buf, now);
                true
            }
            None => false,
        }
    }

    /// Moves parcels of a function's output ring: a burst, and fewer only up to where it was empty. Says how many.
    pub(crate) fn drain(
        &mut self,
        head: &mut Head,
        board: &Board,
        token: &mut Token,
        plan: &Plan,
        registry: &Registry,
        function: FnId,
        now: u64,
    ) -> u16
        requires plan { IsLayoutOf plan.now board.now.layout }
        requires registry { registry.now ≡ plan.now }
        requires head { IsHeadOf board.now head.old token.old }
        requires ring { head.old.spot.ring ≡ Output function }
        requires outlet { IsOutletOf board.now self.old token.old }
        requires empty_handed { token.old.hand ≡ [] }
        requires room { HasRoom plan.now.burst self.old.kept }
        ensures moved { IsDrain board.now plan.now now function result (nat_lt result plan.now.burst)
            token.old token.new self.old self.new }
        ensures few { result ≤ plan.now.burst }
        ensures head { IsHeadOf board.now head.new token.new }
        ensures ring { head.new.spot.ring ≡ Output function }
        ensures outlet { IsOutletOf board.now self.new token.new }
        ensures room { (n : ℕ) → HasRoom (n + plan.now.burst) self.old.kept → HasRoom n self.new.kept }
    {
        for moved in 0..plan.burst {
            if !self.move_one(head, board, token, plan, registry, function, now) {
                return moved;
            }
        }
        plan.burst
    }
}

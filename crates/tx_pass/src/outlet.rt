//! Where moved frames go.
ghost use Rattle.std.specs.Prelude.{◌≡◌, ◌<◌, ◌≤◌, ◌∷◌, [], length, ℕ, suc};
ghost use Rattle.onvm_base.specs.declared.ids.RingId.TheVariants.{Lane, Output};
ghost use Rattle.onvm_base.specs.declared.outcome.Outcome.TheVariants.{Sent, Dropped};
ghost use Rattle.onvm_core.specs.declared.step.Act.TheVariants.{Give};
ghost use Rattle.onvm_core.specs.Layouts.{IsBuffer, IsLayoutOf};
ghost use Rattle.onvm_board.specs.Rule.{FitsRing};
ghost use Rattle.onvm_board.specs.Tokens.{Carries, grown, parcel_in};
ghost use Rattle.desc_ring.specs.Ends.{IsTailOf};
ghost use Rattle.entry_throttle.specs.Feeders.{IsFeederOf};
ghost use Rattle.onvm_promises.specs.Kept.{Told};
ghost use Rattle.tx_pass.specs.Keeping.{HasRoom, outcomes_of};
ghost use Rattle.tx_pass.specs.Moving.{went_on};
ghost use Rattle.tx_pass.specs.Noting.{HasNoted};

use crate::kept::Kept;
use crate::slot::{next_of, set_cursor};
use desc_ring::Tail;
use entry_throttle::Feeder;
use mbuf_pool::{give_back, send};
use nf_registry::Registry;
use onvm_base::{BufId, FnId, Move, Outcome, Plan, Why};
use onvm_board::{Board, Token};

/// A role's lanes with what it knows of them, and what it keeps.
#[derive(Drop)]
pub(crate) struct Outlet {
    // By function.
    pub(crate) lanes: Vec<Tail>,
    pub(crate) feeder: Feeder,
    pub(crate) kept: Kept,
}

// Pushes the parcel in hand on a lane, or gives its buffer back where the lane is full. Says whether it was
// pushed.
fn push_on(
    board: &Board,
    token: &mut Token,
    lane: &mut Tail,
    feeder: &mut Feeder,
    kept: &mut Kept,
    next: FnId,
    buf: BufId,
    now: u64,
) -> bool
    requires known { IsBuffer board.now.layout buf.0 }
    requires carries { Carries buf.0 token.old }
    requires lane { IsTailOf board.now lane.old token.old }
    requires ring { lane.old.spot.ring ≡ Lane next token.old.role }
    requires fits { length (parcel_in token.old).trail ≤ 31 }
    requires feeder { IsFeederOf board.now feeder.old token.old }
    requires ages { length feeder.old.ages ≡ board.now.layout.functions }
    requires high { 1 ≤ feeder.old.high }
    requires function { next.0 < board.now.layout.functions }
    requires room { HasRoom 1 kept.old }
    ensures grew { token.new ≡ grown (went_on (Lane next token.old.role) buf (parcel_in token.old) result) [] token.old }
    ensures told { Told (went_on (Lane next token.old.role) buf (parcel_in token.old) result)
        (outcomes_of kept.old) (outcomes_of kept.new) }
    ensures noted { HasNoted now (went_on (Lane next token.old.role) buf (parcel_in token.old) result) token.old.log
        feeder.old feeder.new }
    ensures lane { IsTailOf board.now lane.new token.new }
    ensures ring { lane.new.spot.ring ≡ lane.old.spot.ring }
    ensures feeder { IsFeederOf board.now feeder.new token.new }
    ensures room { (n : ℕ) → HasRoom (suc n) kept.old → HasRoom n kept.new }
{
    match lane.push(board, token, buf) {
        Ok(()) => {
            feeder.pushed(next, lane.spot(), now);
            true
        }
        Err(_) => {
            let ring = lane.spot().ring;
            kept.record(give_back(board, token, buf, Outcome::RingFull { ring }));
            false
        }
    }
}

// Sends the parcel in hand out of a port.
fn leave(board: &Board, token: &mut Token, kept: &mut Kept, buf: BufId, port: u8)
    requires board { token.old.board ≡ board.now.id }
    requires known { IsBuffer board.now.layout buf.0 }
    requires carries { Carries buf.0 token.old }
    requires room { HasRoom 1 kept.old }
    ensures grew { token.new ≡ grown (Give buf (Sent port) (parcel_in token.old) ∷ []) [] token.old }
    ensures told { Told (Give buf (Sent port) (parcel_in token.old) ∷ []) (outcomes_of kept.old) (outcomes_of kept.new) }
    ensures room { (n : ℕ) → HasRoom (suc n) kept.old → HasRoom n kept.new }
{
    kept.send(send(board, token, buf, port), port);
}

// Ends the parcel in hand after a function.
fn end(board: &Board, token: &mut Token, kept: &mut Kept, buf: BufId, function: FnId, why: Why)
    requires board { token.old.board ≡ board.now.id }
    requires known { IsBuffer board.now.layout buf.0 }
    requires carries { Carries buf.0 token.old }
    requires room { HasRoom 1 kept.old }
    ensures grew { token.new ≡ grown (Give buf (Dropped function why) (parcel_in token.old) ∷ []) [] token.old }
    ensures told { Told (Give buf (Dropped function why) (parcel_in token.old) ∷ [])
        (outcomes_of kept.old) (outcomes_of kept.new) }
    ensures room { (n : ℕ) → HasRoom (suc n) kept.old → HasRoom n kept.new }
{
    kept.record(give_back(board, token, buf, Outcome::Dropped(function, why)));
}

impl Outlet {
    ghost use Rattle.tx_pass.specs.Moving.{IsMoved, IsOutletOf};

    // Sends the parcel in hand on to a function.
    fn pass_on(
        &mut self,
        board: &Board,
        token: &mut Token,
        next: FnId,
        buf: BufId,
        now: u64,
    ) -> bool
        requires known { IsBuffer board.now.layout buf.0 }
        requires function { next.0 < board.now.layout.functions }
        requires carries { Carries buf.0 token.old }
        requires fits { length (parcel_in token.old).trail ≤ 31 }
        requires outlet { IsOutletOf board.now self.old token.old }
        requires room { HasRoom 1 self.old.kept }
        ensures grew { token.new ≡ grown (went_on (Lane next token.old.role) buf (parcel_in token.old) result) [] token.old }
        ensures told { Told (went_on (Lane next token.old.role) buf (parcel_in token.old) result)
            (outcomes_of self.old.kept) (outcomes_of self.new.kept) }
        ensures noted { HasNoted now (went_on (Lane next token.old.role) buf (parcel_in token.old) result) token.old.log
            self.old.feeder self.new.feeder }
        ensures outlet { IsOutletOf board.now self.new token.new }
        ensures room { (n : ℕ) → HasRoom (suc n) self.old.kept → HasRoom n self.new.kept }
    {
        let lane = &mut self.lanes[next.0 as usize];
        push_on(
            board,
            token,
            lane,
            &mut self.feeder,
            &mut self.kept,
            next,
            buf,
            now,
        )
    }

    /// Moves the parcel in hand, which was popped from the output ring of `function`, by its last verdict.
    pub(crate) fn move_on(
        &mut self,
        board: &Board,
        token: &mut Token,
        plan: &Plan,
        registry: &Registry,
        function: FnId,
        buf: BufId,
        now: u64,
    )
        requires board { token.old.board ≡ board.now.id }
        requires plan { IsLayoutOf plan.now board.now.layout }
        requires registry { registry.now ≡ plan.now }
        requires known { IsBuffer board.now.layout buf.0 }
        requires carries { Carries buf.0 token.old }
        requires fits { FitsRing (Output function) (parcel_in token.old) }
        requires outlet { IsOutletOf board.now self.old token.old }
        requires room { HasRoom 1 self.old.kept }
        ensures moved { IsMoved board.now plan.now now
            (record { function = function; buf = buf.0; parcel = parcel_in token.old })
            token.old token.new self.old self.new }
        ensures outlet { IsOutletOf board.now self.new token.new }
        ensures room { (n : ℕ) → HasRoom (suc n) self.old.kept → HasRoom n self.new.kept }
    {
        match next_of(board, token, plan, registry, buf) {
            Move::To(next, cursor) => {
                set_cursor(board, token, buf, cursor);
                let _ = self.pass_on(board, token, next, buf, now);
            }
            Move::Leave(port) => leave(board, token, &mut self.kept, buf, port),
            Move::End(why) => end(board, token, &mut self.kept, buf, function, why),
        }
    }
}

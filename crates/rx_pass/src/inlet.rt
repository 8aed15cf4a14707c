//! Where frames enter the board.
ghost use Rattle.std.specs.Prelude.{◌≡◌, ◌+◌, ◌<◌, ◌≤◌, ◌∷◌, [], length, ℕ, suc, true, false, Some, None, Option, IfSome};
ghost use Rattle.onvm_base.specs.declared.ids.RingId.TheVariants.{Lane};
ghost use Rattle.onvm_base.specs.declared.outcome.Outcome.TheVariants.{Sent};
ghost use Rattle.onvm_core.specs.declared.step.Act.TheVariants.{Give};
ghost use Rattle.onvm_core.specs.Layouts.{IsBuffer, IsLayoutOf, feeder_count};
ghost use Rattle.onvm_core.specs.Logs.{Setting, entry_after, entry_parcel};
ghost use Rattle.onvm_core.specs.Receiving.ReceivePhase.{Between, Seeks, Took};
ghost use Rattle.onvm_board.specs.Tokens.{Carries, grown, parcel_in};
ghost use Rattle.desc_ring.specs.Ends.{IsTailOf};
ghost use Rattle.entry_throttle.specs.Feeders.{IsFeederOf};
ghost use Rattle.onvm_promises.specs.Kept.{Told};
ghost use Rattle.rx_pass.specs.Chains.{IsChainOfPlan};
ghost use Rattle.rx_pass.specs.Keeping.{HasRoom, outcomes_of};
ghost use Rattle.rx_pass.specs.Noting.{HasNoted};
ghost use Rattle.rx_pass.specs.Turns.{went_on, taken_hand};

use crate::kept::Kept;
use desc_ring::Tail;
use entry_throttle::{Admit, Feeder, admit};
use mbuf_pool::{Part, give_back, send};
use nf_registry::Registry;
use onvm_base::{BufId, FnId, Move, Outcome, Plan, Record};
use onvm_board::{Board, Token};
use onvm_core::{Entry, Parcel, Trail};
use service_chain::enter;

/// A receive role's part of the pool, its lanes with what it knows of them, and what it keeps.
#[derive(Drop)]
pub(crate) struct Inlet {
    pub(crate) part: Part,
    // By function.
    pub(crate) lanes: Vec<Tail>,
    pub(crate) feeder: Feeder,
    pub(crate) kept: Kept,
}

// Pushes the parcel in hand on a lane, or gives its buffer back where the lane is full. Says whether it was
// pushed.
fn push_on(
    board: &Board,
    token: &mut Token,
    lane: &mut Tail,
    feeder: &mut Feeder,
    kept: &mut Kept,
    next: FnId,
    buf: BufId,
    now: u64,
) -> bool
    requires known { IsBuffer board.now.layout buf.0 }
    requires carries { Carries buf.0 token.old }
    requires lane { IsTailOf board.now lane.old token.old }
    requires ring { lane.old.spot.ring ≡ Lane next token.old.role }
    requires fits { length (parcel_in token.old).trail ≤ 31 }
    requires feeder { IsFeederOf board.now feeder.old token.old }
    requires ages { length feeder.old.ages ≡ board.now.layout.functions }
    requires high { 1 ≤ feeder.old.high }
    requires function { next.0 < board.now.layout.functions }
    requires room { HasRoom 1 kept.old }
    ensures grew { token.new ≡ grown (went_on (Lane next token.old.role) buf (parcel_in token.old) result) [] token.old }
    ensures told { Told (went_on (Lane next token.old.role) buf (parcel_in token.old) result)
        (outcomes_of kept.old) (outcomes_of kept.new) }
    ensures noted { HasNoted now (went_on (Lane next token.old.role) buf (parcel_in token.old) result) token.old.log
        feeder.old feeder.new }
    ensures lane { IsTailOf board.now lane.new token.new }
    ensures ring { lane.new.spot.ring ≡ lane.old.spot.ring }
    ensures feeder { IsFeederOf board.now feeder.new token.new }
    ensures room { (n : ℕ) → HasRoom (suc n) kept.old → HasRoom n kept.new }
{
    match lane.push(board, token, buf) {
        Ok(()) => {
            feeder.pushed(next, lane.spot(), now);
            true
        }
        Err(_) => {
            let ring = lane.spot().ring;
            kept.record(give_back(board, token, buf, Outcome::RingFull { ring }));
            false
        }
    }
}

// Sends the parcel in hand out of a port.
fn leave(board: &Board, token: &mut Token, kept: &mut Kept, buf: BufId, port: u8)
    requires board { token.old.board ≡ board.now.id }
    requires known { IsBuffer board.now.layout buf.0 }
    requires carries { Carries buf.0 token.old }
    requires room { HasRoom 1 kept.old }
    ensures grew { token.new ≡ grown (Give buf (Sent port) (parcel_in token.old) ∷ []) [] token.old }
    ensures told { Told (Give buf (Sent port) (parcel_in token.old) ∷ []) (outcomes_of kept.old) (outcomes_of kept.new) }
    ensures room { (n : ℕ) → HasRoom (suc n) kept.old → HasRoom n kept.new }
{
    kept.send(send(board, token, buf, port), port);
}

// The parcel of a frame as it enters.
fn parcel_of(entry: Entry) -> Parcel
    ensures { result ≡ entry_parcel entry }
{
    Parcel {
        frame: entry.frame,
        stamp: entry.stamp,
        packet: entry.packet,
        chain: entry.chain,
        cursor: 0,
        hash: entry.hash,
        trail: Trail::none(),
    }
}

impl Inlet {
    ghost use Rattle.rx_pass.specs.Turns.{IsInletOf, IsTurn, Knows, asked_phase, sought_phase};

    // Sends the parcel in hand on to a function.
    fn pass_on(
        &mut self,
        board: &Board,
        token: &mut Token,
        next: FnId,
        buf: BufId,
        now: u64,
    ) -> bool
        requires known { IsBuffer board.now.layout buf.0 }
        requires function { next.0 < board.now.layout.functions }
        requires carries { Carries buf.0 token.old }
        requires fits { length (parcel_in token.old).trail ≤ 31 }
        requires inlet { IsInletOf board.now self.old token.old }
        requires room { HasRoom 1 self.old.kept }
        ensures grew { token.new ≡ grown (went_on (Lane next token.old.role) buf (parcel_in token.old) result) [] token.old }
        ensures told { Told (went_on (Lane next token.old.role) buf (parcel_in token.old) result)
            (outcomes_of self.old.kept) (outcomes_of self.new.kept) }
        ensures noted { HasNoted now (went_on (Lane next token.old.role) buf (parcel_in token.old) result) token.old.log
            self.old.feeder self.new.feeder }
        ensures inlet { IsInletOf board.now self.new token.new }
        ensures part { self.new.part ≡ self.old.part }
        ensures room { (n : ℕ) → HasRoom (suc n) self.old.kept → HasRoom n self.new.kept }
    {
        let lane = &mut self.lanes[next.0 as usize];
        push_on(
            board,
            token,
            lane,
            &mut self.feeder,
            &mut self.kept,
            next,
            buf,
            now,
        )
    }

    // Looks whether the frame may enter. Where it may not, it is recorded as throttled.
    fn ask(
        &mut self,
        board: &Board,
        token: &mut Token,
        registry: &Registry,
        entry: &Entry,
        feeders: u8,
        now: u64,
    ) -> bool
        requires feeders { feeders ≡ feeder_count board.now.layout }
        requires inlet { IsInletOf board.now self.old token.old }
        requires room { HasRoom 1 self.old.kept }
        ensures turn { (setting : Setting) (done : ℕ)
            → Knows board.now.layout registry.now token.old.role done entry.now setting
            → IsTurn setting token.old.role now (Between done) (asked_phase done result) token.old token.new
            self.old self.new }
        ensures hand { token.new.hand ≡ token.old.hand }
        ensures same { (token.new.role ≡ token.old.role) × (token.new.board ≡ token.old.board) }
        ensures inlet { IsInletOf board.now self.new token.new }
        ensures may { result ≡ true → self.new ≡ self.old }
        ensures part { self.new.part ≡ self.old.part }
        ensures room { (n : ℕ) → HasRoom (suc n) self.old.kept → HasRoom n self.new.kept }
    {
        let _ = now;
        let mask = registry.mask(entry.chain);
        match admit(board, token, entry.frame, mask, feeders) {
            Admit::Go => true,
            Admit::Hold {
                feeder,
                post,
                function,
            } => {
                let outcome = Outcome::Throttled {
                    feeder,
                    post,
                    function,
                };
                self.kept.record(Record {
                    frame: entry.frame,
                    outcome,
                });
                false
            }
        }
    }

    // Takes a buffer for the frame. Where there is none, it is recorded as one that found the pool
    // empty.
    fn seek(&mut self, board: &Board, token: &mut Token, entry: &Entry, now: u64) -> Option<BufId>
        requires inlet { IsInletOf board.now self.old token.old }
        requires empty_handed { token.old.hand ≡ [] }
        requires room { HasRoom 1 self.old.kept }
        ensures turn { (setting : Setting) (done : ℕ) → setting.layout ≡ board.now.layout
            → entry_after setting token.old.role done ≡ Some entry.now
            → IsTurn setting token.old.role now (Seeks done 0) (sought_phase done result) token.old token.new
            self.old self.new }
        ensures hand { token.new.hand ≡ taken_hand result }
        ensures known { IfSome result (λ buf. IsBuffer board.now.layout buf.0) }
        ensures same { (token.new.role ≡ token.old.role) × (token.new.board ≡ token.old.board) }
        ensures inlet { IsInletOf board.now self.new token.new }
        ensures found { IfSome result (λ _. self.new ≡ self.old) }
        ensures part { self.new.part ≡ self.old.part }
        ensures room { (n : ℕ) → HasRoom (suc n) self.old.kept → HasRoom n self.new.kept }
    {
        let _ = now;
        match self.part.take(board, token, entry.frame) {
            Some(buf) => Some(buf),
            None => {
                self.kept.record(Record {
                    frame: entry.frame,
                    outcome: Outcome::PoolEmpty,
                });
                None
            }
        }
    }

    // Puts the frame in the buffer that was taken, and lets it enter its chain.
    fn enter(
        &mut self,
        board: &Board,
        token: &mut Token,
        plan: &Plan,
        registry: &Registry,
        entry: Entry,
        buf: BufId,
        now: u64,
    )
        requires plan { IsLayoutOf plan.now board.now.layout }
        requires registry { registry.now ≡ plan.now }
        requires chain { IsChainOfPlan plan.now entry.chain }
        requires known { IsBuffer board.now.layout buf.0 }
        requires holds { token.old.hand ≡ (buf.0, None) ∷ [] }
        requires inlet { IsInletOf board.now self.old token.old }
        requires room { HasRoom 1 self.old.kept }
        ensures turn { (setting : Setting) (done : ℕ)
            → Knows board.now.layout plan.now token.old.role done entry setting
            → IsTurn setting token.old.role now (Took done buf.0) (Between (done + 1)) token.old token.new
            self.old self.new }
        ensures hand { token.new.hand ≡ [] }
        ensures same { (token.new.role ≡ token.old.role) × (token.new.board ≡ token.old.board) }
        ensures inlet { IsInletOf board.now self.new token.new }
        ensures part { self.new.part ≡ self.old.part }
        ensures room { (n : ℕ) → HasRoom (suc n) self.old.kept → HasRoom n self.new.kept }
    {
        let next = enter(plan, registry, entry.chain, entry.hash);
        let _ = board.lend(token, buf, Some(parcel_of(entry)));
        match next {
            Move::To(function, _) => {
                let _ = self.pass_on(board, token, function, buf, now);
            }
            Move::Leave(port) => leave(board, token, &mut self.kept, buf, port),
            Move::End(_) => unreachable!(),
        }
    }

    /// The block of a frame: it is held back, finds no buffer, or enters. Its number is that of the
    /// frames of the port.
    pub(crate) fn receive(
        &mut self,
        board: &Board,
        token: &mut Token,
        plan: &Plan,
        registry: &Registry,
        entry: Entry,
        now: u64,
    )
        requires plan { IsLayoutOf plan.now board.now.layout }
        requires registry { registry.now ≡ plan.now }
        requires chain { IsChainOfPlan plan.now entry.chain }
        requires empty_handed { token.old.hand ≡ [] }
        requires inlet { IsInletOf board.now self.old token.old }
        requires room { HasRoom 1 self.old.kept }
        ensures turn { (setting : Setting) (done : ℕ)
            → Knows board.now.layout plan.now token.old.role done entry setting
            → IsTurn setting token.old.role now (Between done) (Between (done + 1)) token.old token.new
            self.old self.new }
        ensures hand { token.new.hand ≡ [] }
        ensures same { (token.new.role ≡ token.old.role) × (token.new.board ≡ token.old.board) }
        ensures inlet { IsInletOf board.now self.new token.new }
        ensures part { self.new.part ≡ self.old.part }
        ensures room { (n : ℕ) → HasRoom (suc n) self.old.kept → HasRoom n self.new.kept }
    {
        let feeders = plan.ports + plan.transmit;
        if !self.ask(board, token, registry, &entry, feeders, now) {
            return;
        }
        match self.seek(board, token, &entry, now) {
            Some(buf) => self.enter(board, token, plan, registry, entry, buf, now),
            None => {}
        }
    }
}

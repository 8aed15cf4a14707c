//! The station of a function: its core's ends of the function's rings.
ghost use Rattle.std.specs.Prelude.{◌≡◌, ◌<◌, ◌≤◌, ◌+◌, ◌^◌, ◌∷◌, [], length, true, slice_get, IfNone, IfOk, IfSome, OnErr, None};
ghost use Rattle.onvm_base.specs.declared.ids.RingId.TheVariants.{Output};
ghost use Rattle.onvm_core.specs.declared.step.Act.TheVariants.{Push};
ghost use Rattle.onvm_core.specs.declared.step.Item.TheVariants.{Buffer};
ghost use Rattle.onvm_core.specs.Handling.{budget_left};
ghost use Rattle.onvm_core.specs.Layouts.{IsBuffer, IsLayoutOf, feeder_count};
ghost use Rattle.onvm_core.specs.Places.{one_if};
ghost use Rattle.onvm_board.specs.Known.{has_room};
ghost use Rattle.onvm_board.specs.Rule.{FitsRing};
ghost use Rattle.onvm_board.specs.Tokens.{Carries, grown, parcel_in};
ghost use Rattle.onvm_promises.specs.Sampling.{cost_of};
ghost use Rattle.nf_exec.specs.Handing.{HasGoneOn, IsUnmoved};
ghost use Rattle.nf_exec.specs.Serving.{HasGlanced, HasPassedOn, HasSearched, IsNextLane, IsService, IsServing, IsTimedBy, is_handled_turn, sample_acts};
ghost use Rattle.nf_exec.specs.Stations.{IsStation, IsToHandle, Stands};
ghost use Rattle.nf_exec.specs.Steps.{tried};

use crate::budget::budget_of;
use crate::slot::handle_in_slot;
use crate::turn::{Service, Turn};
use desc_ring::{Head, Mail, Tail};
use nf_api::NetFunction;
use onvm_base::{BufId, FnId, NoMemory, Plan};
use onvm_board::{Board, Token};
use onvm_core::Word;
use onvm_host::Clock;

// The largest time that a sample has room for, in nanoseconds.
const MAX_TIME: u64 = 1_099_511_627_775;

/// A function's station at its core.
#[derive(Drop)]
pub struct Station {
    pub function: FnId,
    /// By feeder.
    pub lanes: Vec<Head>,
    /// The feeder whose lane is tried next.
    pub next: u8,
    pub output: Tail,
    pub mail: Mail,
    /// The place of the next crumb: how many frames the function has handled, as far as a crumb
    /// counts.
    pub place: u32,
    /// How many frames it has handled since its last sample.
    pub count: u32,
    /// How long the first of them took, in nanoseconds.
    pub time: u64,
}

impl Station {
    // Looks whether the output ring has room.
    fn has_room(&self, board: &Board, token: &mut Token) -> bool
        requires station { IsStation board.now self.now token.old }
        ensures glanced { HasGlanced board.now self.now.function result token.old token.new }
        ensures room { result ≡ true → has_room board.now.layout (Output self.now.function) token.new.log ≡ true }
        ensures station { IsStation board.now self.now token.new }
    {
        self.output.room(board, token).is_ok()
    }

    // Tries the lane whose turn it is.
    fn try_lane(&mut self, board: &Board, token: &mut Token) -> Option<BufId>
        requires station { IsStation board.now self.old token.old }
        requires empty_handed { token.old.hand ≡ [] }
        ensures grew { token.new ≡ grown (tried self.old.function self.old.next result (parcel_in token.new) ∷ [])
            token.new.hand token.old }
        ensures carries { IfSome result (λ buf. Carries buf.0 token.new) }
        ensures known { IfSome result (λ buf. IsBuffer board.now.layout buf.0) }
        ensures fits { IfSome result (λ _. length (parcel_in token.new).trail ≤ 31) }
        ensures none { IfNone result (token.new.hand ≡ []) }
        ensures station { IsStation board.now self.new token.new }
        ensures next { IsNextLane (feeder_count board.now.layout) self.old.next self.new.next }
        ensures same { self.new ≡ record self.old { lanes = self.new.lanes; next = self.new.next } }
    {
        let head = &mut self.lanes[self.next as usize];
        let popped = head.pop(board, token);
        self.next = if self.next as usize + 1 == self.lanes.len() {
            0
        } else {
            self.next + 1
        };
        popped
    }

    // Tries the lanes in turn, each once, until one has a frame.
    fn next_frame(&mut self, board: &Board, token: &mut Token) -> Option<BufId>
        requires station { IsStation board.now self.old token.old }
        requires empty_handed { token.old.hand ≡ [] }
        ensures searched { HasSearched board.now self.old.function self.old.next (length self.old.lanes.items) result
            token.old token.new }
        ensures station { IsStation board.now self.new token.new }
        ensures same { self.new ≡ record self.old { lanes = self.new.lanes; next = self.new.next } }
    {
        for _ in 0..self.lanes.len() {
            if let Some(buf) = self.try_lane(board, token) {
                return Some(buf);
            }
        }
        None
    }

    // Pushes the handled parcel in hand on the output ring, which has room for it.
    fn pass_on(&mut self, board: &Board, token: &mut Token, buf: BufId)
        requires station { IsStation board.now self.old token.old }
        requires known { IsBuffer board.now.layout buf.0 }
        requires carries { Carries buf.0 token.old }
        requires fits { FitsRing (Output self.old.function) (parcel_in token.old) }
        requires room { has_room board.now.layout (Output self.old.function) token.old.log ≡ true }
        requires few { self.old.count < 4096 }
        ensures grew { token.new ≡ grown (Push (Output self.old.function) (Buffer buf (parcel_in token.old)) ∷ [])
            [] token.old }
        ensures station { IsStation board.now self.new token.new }
        ensures count { self.new.count ≡ self.old.count + 1 }
        ensures same { self.new ≡ record self.old {
          output = self.new.output;
          place = self.new.place;
          count = self.new.count;
        } }
    {
        let Ok(()) = self.output.push(board, token, buf) else {
            unreachable!()
        };
        self.place = self.place.saturating_add(1);
        self.count += 1;
    }

    // Keeps how long the function's first frame since its last sample took.
    fn time_first<C: Clock>(&mut self, plan: &Plan, clock: &C, start: u64)
        requires known { self.old.function.0 < length plan.now.functions }
        ensures timed { IsTimedBy (C.may_span clock.now) (cost_of (slice_get plan.now.functions self.old.function.0))
            self.old.count self.old.time
            → IsTimedBy (C.may_span clock.now) (cost_of (slice_get plan.now.functions self.old.function.0))
            (self.old.count + 1) self.new.time }
        ensures same { self.new ≡ record self.old { time = self.new.time } }
    {
        if self.count == 0 {
            let cost = plan.functions.as_slice()[self.function.0 as usize].cost;
            self.time = clock.span(start, u64::from(cost)).min(MAX_TIME);
        }
    }

    /// Lets the function handle the frame in hand. Where it wants memory nothing was done.
    pub(crate) fn handle<N: NetFunction, C: Clock>(
        &mut self,
        board: &Board,
        token: &mut Token,
        plan: &Plan,
        unit: &mut N,
        clock: &C,
        buf: BufId,
    ) -> Result<(), NoMemory>
        requires layout { IsLayoutOf plan.now board.now.layout }
        requires station { IsStation board.now self.old token.old }
        requires carries { Carries buf.0 token.old }
        requires ready { IsToHandle board.now.layout
            (record { function = self.old.function; buf = buf.0; parcel = parcel_in token.old }) token.old.log }
        requires few { self.old.count < 4096 }
        requires timed { IsTimedBy (C.may_span clock.now) (cost_of (slice_get plan.now.functions self.old.function.0))
            self.old.count self.old.time }
        ensures done { IfOk result (λ _. HasPassedOn N.acts N.state self.old.function buf unit.old unit.new
            token.old token.new) }
        ensures unchanged { OnErr result ((token.new ≡ token.old) × (self.new ≡ self.old)) }
        ensures unmoved { OnErr result (IsUnmoved N.acts N.state unit.old unit.new) }
        ensures station { IsStation board.now self.new token.new }
        ensures count { IfOk result (λ _. self.new.count ≡ self.old.count + 1) }
        ensures timed { IsTimedBy (C.may_span clock.now) (cost_of (slice_get plan.now.functions self.old.function.0))
            self.new.count self.new.time }
        ensures function { self.new.function ≡ self.old.function }
    {
        let start = if self.count == 0 { clock.now() } else { 0 };
        handle_in_slot(board, token, unit, self.function, self.place, buf)?;
        self.time_first(plan, clock, start);
        self.pass_on(board, token, buf);
        Ok(())
    }

    // One turn: looks for room, takes a frame and lets the function handle it.
    fn turn<N: NetFunction, C: Clock>(
        &mut self,
        board: &Board,
        token: &mut Token,
        plan: &Plan,
        unit: &mut N,
        clock: &C,
    ) -> Turn
        requires layout { IsLayoutOf plan.now board.now.layout }
        requires station { IsStation board.now self.old token.old }
        requires stands { Stands board.now.layout None token.old }
        requires left { 0 < budget_left plan.now self.old.function token.old.log }
        requires few { self.old.count < 4096 }
        requires timed { IsTimedBy (C.may_span clock.now) (cost_of (slice_get plan.now.functions self.old.function.0))
            self.old.count self.old.time }
        ensures turned { IsServing board.now plan.now self.old.function (one_if (is_handled_turn result)) result
            token.old token.new }
        ensures unit { HasGoneOn N.acts N.state self.old.function unit.old unit.new token.old.log token.new.log }
        ensures station { IsStation board.now self.new token.new }
        ensures count { self.new.count ≡ self.old.count + one_if (is_handled_turn result) }
        ensures timed { IsTimedBy (C.may_span clock.now) (cost_of (slice_get plan.now.functions self.old.function.0))
            self.new.count self.new.time }
        ensures function { self.new.function ≡ self.old.function }
    {
        if !self.has_room(board, token) {
            return Turn::Barred;
        }
        let Some(buf) = self.next_frame(board, token) else {
            return Turn::Dry;
        };
        match self.handle(board, token, plan, unit, clock, buf) {
            Ok(()) => Turn::Handled,
            Err(_) => Turn::Wanting(buf),
        }
    }

    /// Serves the function: turns up to its budget, and fewer where one doesn't handle a frame.
    pub(crate) fn serve<N: NetFunction, C: Clock>(
        &mut self,
        board: &Board,
        token: &mut Token,
        plan: &Plan,
        unit: &mut N,
        clock: &C,
    ) -> Service
        requires layout { IsLayoutOf plan.now board.now.layout }
        requires station { IsStation board.now self.old token.old }
        requires stands { Stands board.now.layout None token.old }
        requires few { self.old.count ≤ 1024 }
        requires timed { IsTimedBy (C.may_span clock.now) (cost_of (slice_get plan.now.functions self.old.function.0))
            self.old.count self.old.time }
        ensures served { IsService board.now plan.now self.old.function result.handled result.last token.old token.new }
        ensures unit { HasGoneOn N.acts N.state self.old.function unit.old unit.new token.old.log token.new.log }
        ensures station { IsStation board.now self.new token.new }
        ensures count { self.new.count ≡ self.old.count + result.handled }
        ensures timed { IsTimedBy (C.may_span clock.now) (cost_of (slice_get plan.now.functions self.old.function.0))
            self.new.count self.new.time }
        ensures function { self.new.function ≡ self.old.function }
    {
        let weight = board.look(token, Word::Weight(self.function));
        let budget = budget_of(plan, self.function, weight);
        for handled in 0..budget {
            match self.turn(board, token, plan, unit, clock) {
                Turn::Handled => {}
                last => return Service { handled, last },
            }
        }
        Service {
            handled: budget,
            last: Turn::Handled,
        }
    }

    /// Mails the sample of what the function has handled since the last one, where that is something.
    /// Says whether the sample was lost.
    pub(crate) fn mail_sample(&mut self, board: &Board, token: &mut Token) -> bool
        requires station { IsStation board.now self.old token.old }
        requires few { self.old.count < 4096 }
        requires time { 0 < self.old.count → self.old.time < 2 ^ 40 }
        ensures grew { token.new ≡ grown (sample_acts self.old.function self.old.count self.old.time result)
            token.old.hand token.old }
        ensures station { IsStation board.now self.new token.new }
        ensures count { self.new.count ≡ 0 }
        ensures lost { result ≡ true → 0 < self.old.count }
        ensures function { self.new.function ≡ self.old.function }
    {
        if self.count == 0 {
            return false;
        }
        let number = u64::from(self.count) * (MAX_TIME + 1) + self.time;
        let posted = self.mail.post_sample(board, token, number);
        self.count = 0;
        posted.is_err()
    }
}

//! Phases: the roles' passes beside each other.
ghost use Rattle.std.specs.Prelude.{◌≡◌, ◌⊎◌, ◌≤◌, [], ℕ, All, Err, IfNone, IfOk, IsSome, OnOk, Some, length, slice_get, true, vec_capacity};
ghost use Rattle.onvm_core.specs.Layouts.{IsLayout, first_role};
ghost use Rattle.onvm_board.specs.Rule.{AllJoined};
ghost use Rattle.onvm_board.specs.Tokens.{IsFirstToken};
ghost use Rattle.onvm_promises.specs.Answers.{is_complete};
ghost use Rattle.onvm_promises.specs.declared.pass.Pass.TheVariants.{Stopped};
ghost use Rattle.onvm_session.specs.Seats.{HasPassed, IsSeatReady};
ghost use Rattle.onvm_session.specs.declared.manager.Halt.TheVariants.{Fault};
ghost use Rattle.onvm_session.specs.declared.seat.Seat.{Seat as SeatView};

use crate::manager::{FIRST_WORD, Halt, Manager};
use crate::pace::Pace;
use crate::seat::Seat;
use nf_api::NetFunction;
use nf_registry::Registry;
use onvm_base::Plan;
use onvm_board::Board;
use onvm_host::{Clock, Gate, Source};
use onvm_promises::Pass;
use std::alloc::Global;
use std::sync::Wait;
use std::thread::Threads;
use std::{thread, time};

/// More threads than a session has roles.
const MOST_THREADS: usize = 32;

// All passes of a phase, each seat's in a thread of its own.
fn run_seats<
    R: Threads + Wait + time::Clock + Sync,
    I: Source + Send,
    N: NetFunction + Send,
    C: Clock,
    G: Gate,
>(
    rt: &R,
    alloc: Global,
    seats: &mut [Seat<I, N>],
    board: &Board,
    plan: &Plan,
    registry: &Registry,
    clock: &C,
    gate: &G,
    pace: &Pace,
)
    requires ready { All (IsSeatReady N.acts N.state (C.may_be_now clock.now) (C.may_span clock.now)
        board.now plan.now) seats.old }
    requires registry { registry.now ≡ plan.now }
    requires complete { All (λ seat. is_complete seat.answer ≡ true) seats.old }
    ensures many { length seats.new ≡ length seats.old }
    ensures each { (at : ℕ) (was is : SeatView I N) → slice_get seats.old at ≡ Some was
        → slice_get seats.new at ≡ Some is
        → HasPassed N.acts N.state (C.may_be_now clock.now) (C.may_span clock.now) I.name I.left I.takes
        board.now plan.now was is }
{
    let one = |_: usize, seat: &mut Seat<I, N>|
        requires ready { IsSeatReady N.acts N.state (C.may_be_now clock.now) (C.may_span clock.now)
            board.now plan.now seat.old }
        requires registry { registry.now ≡ plan.now }
        requires complete { is_complete seat.old.answer ≡ true }
        ensures { HasPassed N.acts N.state (C.may_be_now clock.entry.now) (C.may_span clock.entry.now) I.name I.left
            I.takes board.entry.now plan.entry.now seat.old seat.new }
    { seat.make_passes(rt, alloc, board, plan, registry, clock, gate, pace) };
    thread::for_each_mut(rt, seats, MOST_THREADS, &one);
}

// Why no more phases are made. Want of memory is told before a fault.
fn halt_of<I, N>(seats: &[Seat<I, N>]) -> Option<Halt>
    ensures none { IfNone result (All (λ seat. is_complete seat.answer ≡ true) seats.now) }
    ensures fault { result ≡ Some Fault → (at : ℕ) × (seat : SeatView I N) × (slice_get seats.now at ≡ Some seat)
        × (seat.answer ≡ Stopped) }
{
    let mut halt = None;
    for seat in seats {
        match seat.answer {
            Pass::Wanting => return Some(Halt::Memory),
            Pass::Stopped => halt = Some(Halt::Fault),
            Pass::Did(_) | Pass::Idle => {}
        }
    }
    halt
}

// The last moment of all passes, and where there is none later this one.
fn last_moment<I, N>(seats: &[Seat<I, N>], latest: u64) -> u64
    ensures later { latest ≤ result }
    ensures all { All (λ seat. seat.latest ≤ result) seats.now }
    ensures one { (result ≡ latest) ⊎ ((at : ℕ) × (seat : SeatView I N) × (slice_get seats.now at ≡ Some seat)
        × (result ≡ seat.latest)) }
{
    let mut last = latest;
    for seat in seats {
        last = last.max(seat.latest);
    }
    last
}

impl<I: Source, N: NetFunction> Manager<I, N> {
    ghost use Rattle.onvm_session.specs.Boards.{token_after_splits};
    ghost use Rattle.onvm_session.specs.Managers.{AllGrow, GoesOnTo, IsManager, IsOver, OfEach};
    ghost use Rattle.onvm_session.specs.RoleStates.{IsUpTo, fault_of};
    ghost use Rattle.onvm_session.specs.Seats.{AreJoinable, AreRolesOf, AreSeated, AreTokensJoined};
    ghost use Rattle.onvm_session.specs.declared.role.Role.{Role as RoleView};

    // All roles take their seats, the last role first: the passes of the last seat are made by the
    // thread that makes the phase, and it is the receive role of port 0 that takes most memory.
    fn seat_all(&mut self, seats: &mut Vec<Seat<I, N>>, latest: u64)
        requires first { IsFirstToken self.old.board self.old.first }
        requires joined { AllJoined self.old.board.layout self.old.first.log }
        requires many { length self.old.roles.items ≡ first_role self.old.board.layout }
        requires ranges { IsLayout self.old.board.layout }
        requires none { seats.old.items ≡ [] }
        requires room { length self.old.roles.items ≤ vec_capacity seats.old }
        ensures seated { AreSeated self.old latest seats.new.items }
        ensures room { vec_capacity seats.new ≡ vec_capacity seats.old }
        ensures empty { self.new.roles.items ≡ [] }
        ensures roles { vec_capacity self.new.roles ≡ vec_capacity self.old.roles }
        ensures first { self.new.first ≡ token_after_splits (length self.old.roles.items) self.old.first }
        ensures same { (self.new.board ≡ self.old.board) × (self.new.registry ≡ self.old.registry)
            × (self.new.layout ≡ self.old.layout) × (self.new.feeds ≡ self.old.feeds) }
    {
        for _ in 0..self.roles.len() {
            let role = self.roles.take_last();
            let number = self.roles.len() as u32;
            let token = self.board.split(&mut self.first, number);
            seats.push_reserved(Seat {
                number,
                role,
                token,
                latest,
                answer: Pass::Idle,
            });
        }
    }

    // All roles leave their seats, and their tokens are dropped.
    fn leave_all(&mut self, seats: &mut Vec<Seat<I, N>>)
        requires none { self.old.roles.items ≡ [] }
        requires room { length seats.old.items ≤ vec_capacity self.old.roles }
        ensures roles { AreRolesOf seats.old.items self.new.roles.items }
        ensures same { (self.new.board ≡ self.old.board) × (self.new.feeds ≡ self.old.feeds) }
    {
        for _ in 0..seats.len() {
            let seat = seats.take_last();
            self.roles.push_reserved(seat.role);
        }
    }

    // All roles leave their seats, and the first token joins their tokens, role 0's first.
    fn join_all(&mut self, seats: &mut Vec<Seat<I, N>>)
        requires first { IsFirstToken self.old.board self.old.first }
        requires kept { length self.old.first.logs ≡ first_role self.old.board.layout }
        requires joinable { AreJoinable self.old.board seats.old.items }
        requires none { self.old.roles.items ≡ [] }
        requires room { length seats.old.items ≤ vec_capacity self.old.roles }
        ensures roles { AreRolesOf seats.old.items self.new.roles.items }
        ensures joined { AreTokensJoined seats.old.items self.old.first self.new.first }
        ensures none { seats.new.items ≡ [] }
        ensures room { vec_capacity seats.new ≡ vec_capacity seats.old }
        ensures same { (self.new.board ≡ self.old.board) × (self.new.registry ≡ self.old.registry)
            × (self.new.layout ≡ self.old.layout) × (self.new.feeds ≡ self.old.feeds) }
    {
        for _ in 0..seats.len() {
            let Seat { role, token, .. } = seats.take_last();
            self.roles.push_reserved(role);
            self.board.join(&mut self.first, token);
        }
    }

    /// A phase: all roles' passes beside each other. Says the last moment of them.
    ///
    /// Where a pass was cut short, the tokens aren't joined, and no more phases are made.
    fn phase<R: Threads + Wait + time::Clock + Sync, C: Clock, G: Gate>(
        &mut self,
        rt: &R,
        alloc: Global,
        plan: &Plan,
        clock: &C,
        gate: &G,
        pace: &Pace,
        seats: &mut Vec<Seat<I, N>>,
        latest: u64,
    ) -> Result<u64, Halt>
    where
        I: Send,
        N: Send,
        requires manager { IsManager N.acts N.state (C.may_span clock.now) plan.now self.old }
        requires upto { OfEach (λ r role. IsUpTo latest role) self.old.roles.items }
        requires told { C.may_be_now clock.now latest }
        requires none { seats.old.items ≡ [] }
        requires room { length self.old.roles.items ≤ vec_capacity seats.old }
        ensures manager { OnOk result (IsManager N.acts N.state (C.may_span clock.now) plan.now self.new) }
        ensures upto { IfOk result (λ now. OfEach (λ r role. IsUpTo now role) self.new.roles.items) }
        ensures told { IfOk result (λ now. C.may_be_now clock.now now) }
        ensures none { OnOk result (seats.new.items ≡ []) }
        ensures room { OnOk result (length self.new.roles.items ≤ vec_capacity seats.new) }
        ensures on { IfOk result (λ now. GoesOnTo N.acts N.state (C.may_be_now clock.now) (C.may_span clock.now)
            plan.now latest now self.old self.new) }
        ensures grow { AllGrow I.name I.left I.takes self.old self.new }
        ensures fault { result ≡ Err Fault → (r : ℕ) × (role : RoleView I N)
            × (slice_get self.new.roles.items r ≡ Some role) × IsSome (fault_of role) }
    {
        self.seat_all(seats, latest);
        let all = seats.as_mut_slice();
        run_seats(
            rt,
            alloc,
            all,
            &self.board,
            plan,
            &self.registry,
            clock,
            gate,
            pace,
        );
        if let Some(halt) = halt_of(seats.as_slice()) {
            self.leave_all(seats);
            return Err(halt);
        }
        let now = last_moment(seats.as_slice(), latest);
        self.join_all(seats);
        self.board.look(&mut self.first, FIRST_WORD);
        Ok(now)
    }

    /// Phases, until each capture was pulled to its end and each frame has its record. Says the last
    /// moment of all passes.
    pub fn make_phases<R: Threads + Wait + time::Clock + Sync, C: Clock, G: Gate>(
        &mut self,
        rt: &R,
        alloc: Global,
        plan: &Plan,
        clock: &C,
        gate: &G,
        seats: &mut Vec<Seat<I, N>>,
        first: u64,
    ) -> Result<u64, Halt>
    where
        I: Send,
        N: Send,
        requires manager { IsManager N.acts N.state (C.may_span clock.now) plan.now self.old }
        requires upto { OfEach (λ r role. IsUpTo first role) self.old.roles.items }
        requires told { C.may_be_now clock.now first }
        requires none { seats.old.items ≡ [] }
        requires room { length self.old.roles.items ≤ vec_capacity seats.old }
        ensures manager { OnOk result (IsManager N.acts N.state (C.may_span clock.now) plan.now self.new) }
        ensures upto { IfOk result (λ now. OfEach (λ r role. IsUpTo now role) self.new.roles.items) }
        ensures told { IfOk result (λ now. C.may_be_now clock.now now) }
        ensures over { OnOk result (IsOver self.new) }
        ensures on { IfOk result (λ now. GoesOnTo N.acts N.state (C.may_be_now clock.now) (C.may_span clock.now)
            plan.now first now self.old self.new) }
        ensures grow { AllGrow I.name I.left I.takes self.old self.new }
        ensures fault { result ≡ Err Fault → (r : ℕ) × (role : RoleView I N)
            × (slice_get self.new.roles.items r ≡ Some role) × IsSome (fault_of role) }
    {
        let mut pace = Pace::make(plan);
        let mut now = first;
        for _ in rt.forever() {
            pace.begin_phase(self.roles.len());
            now = self.phase(rt, alloc, plan, clock, gate, &pace, seats, now)?;
            if self.is_over() {
                return Ok(now);
            }
        }
        unreachable!()
    }
}

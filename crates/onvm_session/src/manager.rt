//! The turns of a session's roles.
ghost use Rattle.std.specs.Prelude.{◌≡◌, ◌+◌, ◌-◌, ◌^◌, ◌<◌, ◌≤◌, ◌↔◌, ◌==◌, if◌then◌else◌, ℕ, IfOk, IsSome, IsTrue, OnErr, OnOk, Err, Option, Some, length, slice_get, true};
ghost use Rattle.onvm_core.specs.Layouts.{first_role};
ghost use Rattle.onvm_core.specs.Potential.{sum_below};
ghost use Rattle.onvm_promises.specs.Kept.{at_most_64_bits};
ghost use Rattle.onvm_session.specs.Moments.{moment_of_round};
ghost use Rattle.onvm_session.specs.Runs.{any_moment};
ghost use Rattle.onvm_session.specs.Views.{next_place, role_at};
ghost use Rattle.onvm_session.specs.declared.manager.Halt.TheVariants.{Fault};

use crate::role::Role;
use nf_api::NetFunction;
use nf_registry::Registry;
use onvm_base::{Plan, PortId};
use onvm_board::{Board, Token};
use onvm_core::{Layout, Word};
use onvm_host::{Clock, Source};
use onvm_promises::Pass;
use rx_feed::Feed;
use std::alloc::Global;
use std::sync::Wait;

/// The board of a session with its first token, and its roles by their numbers.
#[derive(Drop)]
pub struct Manager<I, N> {
    pub board: Board,
    pub first: Token,
    pub registry: Registry,
    pub layout: Layout,
    pub roles: Vec<Role<I, N>>,
    /// Empty, with room for the feeds, when they are handed back.
    pub feeds: Vec<Feed<I>>,
}

/// Why no more turns are made.
#[derive(Clone, Copy, Debug, PartialEq, Eq)]
pub enum Halt {
    /// A pass wanted memory.
    Memory,
    /// A fault has stopped a port.
    Fault,
}

// What the first token looks at behind a turn.
pub(crate) const FIRST_WORD: Word = Word::Pool {
    port: PortId(0),
    index: 0,
};

// The role at a place of a round: the receive roles, the cores, the transmit roles, the tick role.
fn role_at(layout: &Layout, place: u32) -> u32
    ensures { result ≡ role_at layout.now place }
{
    let ports = u32::from(layout.ports);
    let cores = u32::from(layout.cores);
    let transmit = u32::from(layout.transmit);
    if place < ports {
        place
    } else if place < ports + cores {
        place + transmit
    } else if place < ports + cores + transmit {
        place - cores
    } else {
        ports + transmit + cores
    }
}

impl<I: Source, N: NetFunction> Manager<I, N> {
    ghost use Rattle.onvm_session.specs.Managers.{AllGrow, GoesOn, IsManager, IsOver, OfEach, place_now, round_now};
    ghost use Rattle.onvm_session.specs.RoleStates.{IsUpTo, fault_of};
    ghost use Rattle.onvm_session.specs.declared.role.Role.{Role as RoleView};

    /// A turn of the role whose place it is: its token is split, it makes a pass, and the token is
    /// joined. Then the first token looks, which tells it that what it knows is of one history.
    ///
    /// Where the pass was cut short, the token isn't joined, and no more turns are made.
    pub fn turn<C: Clock>(
        &mut self,
        alloc: Global,
        plan: &Plan,
        clock: &C,
        role: u32,
        now: u64,
    ) -> Result<(), Halt>
        requires manager { IsManager N.acts N.state (C.may_span clock.now) plan.now self.old }
        requires upto { OfEach (λ r role. IsUpTo now role) self.old.roles.items }
        requires role { role ≡ role_at self.old.board.layout (place_now self.old) }
        requires now { now ≡ moment_of_round (round_now self.old) }
        ensures manager { OnOk result (IsManager N.acts N.state (C.may_span clock.now) plan.now self.new) }
        ensures upto { OfEach (λ r role. IsUpTo now role) self.new.roles.items }
        ensures place { OnOk result (place_now self.new ≡ next_place self.old.board.layout (place_now self.old)) }
        ensures round { OnOk result (round_now self.new
            ≡ (if place_now self.old + 1 == first_role self.old.board.layout then round_now self.old + 1
            else round_now self.old)) }
        ensures on { OnOk result (GoesOn N.acts N.state true any_moment (C.may_span clock.now) plan.now
            self.old self.new) }
        ensures grow { AllGrow I.name I.left I.takes self.old self.new }
        ensures fault { result ≡ Err Fault → (r : ℕ) × (role : RoleView I N)
            × (slice_get self.new.roles.items r ≡ Some role) × IsSome (fault_of role) }
    {
        let mut token = self.board.split(&mut self.first, role);
        let answer = self.roles[role as usize].pass(
            alloc,
            &mut token,
            &self.board,
            plan,
            &self.registry,
            clock,
            now,
        );
        match answer {
            Pass::Wanting => return Err(Halt::Memory),
            Pass::Stopped => return Err(Halt::Fault),
            Pass::Did(_) | Pass::Idle => {}
        }
        self.board.join(&mut self.first, token);
        self.board.look(&mut self.first, FIRST_WORD);
        Ok(())
    }

    /// A round at the moment `now`: a turn of each role.
    pub fn round<C: Clock>(
        &mut self,
        alloc: Global,
        plan: &Plan,
        clock: &C,
        now: u64,
    ) -> Result<(), Halt>
        requires manager { IsManager N.acts N.state (C.may_span clock.now) plan.now self.old }
        requires upto { OfEach (λ r role. IsUpTo now role) self.old.roles.items }
        requires place { place_now self.old ≡ 0 }
        requires now { now ≡ moment_of_round (round_now self.old) }
        ensures manager { OnOk result (IsManager N.acts N.state (C.may_span clock.now) plan.now self.new) }
        ensures upto { OfEach (λ r role. IsUpTo now role) self.new.roles.items }
        ensures place { OnOk result (place_now self.new ≡ 0) }
        ensures round { OnOk result (round_now self.new ≡ round_now self.old + 1) }
        ensures on { OnOk result (GoesOn N.acts N.state true any_moment (C.may_span clock.now) plan.now
            self.old self.new) }
        ensures grow { AllGrow I.name I.left I.takes self.old self.new }
        ensures fault { result ≡ Err Fault → (r : ℕ) × (role : RoleView I N)
            × (slice_get self.new.roles.items r ≡ Some role) × IsSome (fault_of role) }
    {
        let roles = self.roles.len() as u32;
        for place in 0..roles {
            let role = role_at(&self.layout, place);
            self.turn(alloc, plan, clock, role, now)?;
        }
        Ok(())
    }

    /// Rounds, until each capture was pulled to its end and each frame has its record. The moment of a
    /// round is its number times 1,000, counted from 0. Says the last round's.
    pub fn make_rounds<R: Wait, C: Clock>(
        &mut self,
        rt: &R,
        alloc: Global,
        plan: &Plan,
        clock: &C,
    ) -> Result<u64, Halt>
        requires manager { IsManager N.acts N.state (C.may_span clock.now) plan.now self.old }
        requires upto { OfEach (λ r role. IsUpTo 0 role) self.old.roles.items }
        requires place { place_now self.old ≡ 0 }
        requires round { round_now self.old ≡ 0 }
        ensures manager { OnOk result (IsManager N.acts N.state (C.may_span clock.now) plan.now self.new) }
        ensures upto { IfOk result (λ now. OfEach (λ r role. IsUpTo now role) self.new.roles.items) }
        ensures place { OnOk result (place_now self.new ≡ 0) }
        ensures some { OnOk result (0 < round_now self.new) }
        ensures now { IfOk result (λ now. now ≡ moment_of_round (round_now self.new - 1)) }
        ensures over { OnOk result (IsOver self.new) }
        ensures on { OnOk result (GoesOn N.acts N.state true any_moment (C.may_span clock.now) plan.now
            self.old self.new) }
        ensures grow { AllGrow I.name I.left I.takes self.old self.new }
        ensures fault { result ≡ Err Fault → (r : ℕ) × (role : RoleView I N)
            × (slice_get self.new.roles.items r ≡ Some role) × IsSome (fault_of role) }
    {
        let mut now: u64 = 0;
        for _ in rt.forever() {
            self.round(alloc, plan, clock, now)?;
            if self.is_over() {
                return Ok(now);
            }
            now = now.saturating_add(1000);
        }
        unreachable!()
    }
}

impl<I, N> Manager<I, N> {
    ghost use Rattle.onvm_session.specs.Managers.{IsOver, OfEach, keeps_in, pulled_at};
    ghost use Rattle.onvm_session.specs.RoleStates.{ended_in};

    // Whether each capture was pulled to its end.
    fn are_done(&self) -> bool
        ensures { IsTrue result ↔ OfEach (λ r role. ended_in role ≡ true) self.now.roles.items }
    {
        for role in self.roles.iter() {
            if !role.is_done() {
                return false;
            }
        }
        true
    }

    // How many frames were pulled.
    fn pulled(&self) -> u64
        requires { self.now.layout.ports ≤ length self.now.roles.items }
        ensures sum { result ≡ sum_below (λ r. pulled_at (slice_get self.now.roles.items r)) self.now.layout.ports }
        ensures few { result < 2 ^ 63 }
    {
        let mut pulled = 0;
        for at in 0..self.layout.ports as usize {
            pulled += u64::from(self.roles[at].pulled());
        }
        pulled
    }

    // How many records feeders have made, up to 2^64 - 1.
    fn recorded(&self) -> u64
        requires { self.now.layout.ports + self.now.layout.transmit ≤ length self.now.roles.items }
        ensures { result ≡ at_most_64_bits (sum_below (λ r.
            length (keeps_in self.now.roles.items r).feeder.outcomes.records)
            (self.now.layout.ports + self.now.layout.transmit)) }
    {
        let feeders = u32::from(self.layout.ports) + u32::from(self.layout.transmit);
        let mut recorded: u64 = 0;
        for at in 0..feeders as usize {
            recorded = recorded.saturating_add(self.roles[at].recorded());
        }
        recorded
    }

    /// Whether the session is over.
    pub fn is_over(&self) -> bool
        requires layout { self.now.layout ≡ self.now.board.layout }
        requires roles { self.now.layout.ports + self.now.layout.transmit ≤ length self.now.roles.items }
        ensures { IsTrue result ↔ IsOver self.now }
    {
        if !self.are_done() {
            return false;
        }
        self.pulled() == self.recorded()
    }
}

//! A role of a session, of whatever kind.
ghost use Rattle.std.specs.Prelude.{◌≡◌, ◌≢◌, ◌↔◌, ◌≤◌, [], ℕ, IsSome, List, OnOk, Option, length, true, false};
ghost use Rattle.onvm_core.specs.Blocks.{kind_of};
ghost use Rattle.onvm_core.specs.Logs.{Setting};
ghost use Rattle.onvm_promises.specs.Answers.{is_complete};
ghost use Rattle.onvm_promises.specs.Kept.{moment_then};
ghost use Rattle.onvm_promises.specs.declared.pass.Pass.TheVariants.{Stopped};
ghost use Rattle.nf_api.specs.Tree.{Tree};
ghost use Rattle.onvm_session.specs.Sessions.{IsRolePass};

use nf_api::NetFunction;
use nf_exec::CoreRole;
use nf_registry::Registry;
use onvm_base::{NoMemory, Plan};
use onvm_board::{Board, Token};
use onvm_host::{Clock, Source};
use onvm_promises::Pass;
use rx_feed::FeedFault;
use rx_pass::RxRole;
use std::alloc::Global;
use tick_pass::TickRole;
use tx_pass::TxRole;

/// A role. `I` is what live feeds read, `N` what functions are.
#[derive(Drop)]
pub enum Role<I, N> {
    Receive(RxRole<I>),
    Send(TxRole),
    Handle(CoreRole<N>),
    Tick(TickRole),
}

impl<I: Source, N: NetFunction> Role<I, N> {
    ghost use Rattle.onvm_session.specs.RoleStates.{HasStates, IsBoundTo, IsReady, IsRoleInOrder, IsUpTo, FitsOne, Grows, StartedAt, StaysFed, acts_by, fault_of, keeps_of, start_by};

    /// One pass at the moment `now`, in nanoseconds. It never closes the session.
    pub fn pass<C: Clock>(
        &mut self,
        alloc: Global,
        token: &mut Token,
        board: &Board,
        plan: &Plan,
        registry: &Registry,
        clock: &C,
        now: u64,
    ) -> Pass
        requires ready { IsReady N.acts N.state (C.may_span clock.now) board.now plan.now token.old self.old }
        requires registry { registry.now ≡ plan.now }
        requires later { IsUpTo now self.old }
        ensures promise { (setting : Setting) (moment : ℕ → ℕ) (first : ℕ) (units : List N) (state : ℕ → Tree)
            → FitsOne board.now.layout plan.now token.old.role self.new setting
            → IsRoleInOrder setting token.old.role moment token.old.log self.old
            → StartedAt first self.old
            → IsBoundTo N.acts N.state board.now.layout token.old.role units self.old
            → HasStates N.acts N.state board.now.layout token.old.role self.new state
            → IsRolePass (acts_by N.acts N.state units) (start_by N.acts N.state units) state
            (C.may_span clock.now) setting token.old.role (kind_of board.now.layout token.old.role) first now false
            moment token.old.log token.new.log (keeps_of self.old) (keeps_of self.new) result }
        ensures in_order { (setting : Setting) (moment : ℕ → ℕ)
            → FitsOne board.now.layout plan.now token.old.role self.new setting
            → IsRoleInOrder setting token.old.role moment token.old.log self.old
            → IsRoleInOrder setting token.old.role (moment_then moment (length token.old.log) now) token.new.log
            self.new }
        ensures ready { IsReady N.acts N.state (C.may_span clock.now) board.now plan.now token.new self.new }
        ensures same { (token.new.board ≡ token.old.board) × (token.new.role ≡ token.old.role) }
        ensures empty_handed { token.old.hand ≡ [] → is_complete result ≡ true → token.new.hand ≡ [] }
        ensures upto { IsUpTo now self.new }
        ensures first { (first : ℕ) → StartedAt first self.old → StartedAt first self.new }
        ensures bound { (units : List N) → IsBoundTo N.acts N.state board.now.layout token.old.role units self.old
            → IsBoundTo N.acts N.state board.now.layout token.old.role units self.new }
        ensures grows { Grows self.old self.new }
        ensures fed { StaysFed I.name I.left I.takes self.old self.new }
        ensures stopped { result ≡ Stopped → IsSome (fault_of self.new) }
    {
        match self {
            Role::Receive(role) => role.pass(alloc, token, board, plan, registry, now),
            Role::Send(role) => role.pass(token, board, plan, registry, now),
            Role::Handle(role) => role.pass(token, board, plan, clock),
            Role::Tick(role) => role.pass(token, board, plan, now, false),
        }
    }
}

impl<I, N> Role<I, N> {
    ghost use Rattle.onvm_session.specs.RoleStates.{ended_in, fault_of, keeps_of, pulled_in};

    /// Whether all frames of its feed were pulled, of a receive role. Others have none.
    pub fn is_done(&self) -> bool
        ensures { result ≡ ended_in self.now }
    {
        match self {
            Role::Receive(role) => role.done(),
            Role::Send(_) | Role::Handle(_) | Role::Tick(_) => true,
        }
    }

    /// What has stopped its port.
    pub fn fault(&self) -> Option<FeedFault>
        ensures { result ≡ fault_of self.now }
    {
        match self {
            Role::Receive(role) => role.fault(),
            Role::Send(_) | Role::Handle(_) | Role::Tick(_) => None,
        }
    }

    /// How many frames it has pulled.
    pub fn pulled(&self) -> u32
        ensures { result ≡ length (pulled_in self.now) }
    {
        match self {
            Role::Receive(role) => role.pulled(),
            Role::Send(_) | Role::Handle(_) | Role::Tick(_) => 0,
        }
    }

    /// How many records it has made.
    pub fn recorded(&self) -> u64
        ensures { result ≡ length (keeps_of self.now).feeder.outcomes.records }
    {
        match self {
            Role::Receive(role) => role.recorded(),
            Role::Send(role) => role.recorded(),
            Role::Handle(_) | Role::Tick(_) => 0,
        }
    }
}

impl<I: Source, N> Role<I, N> {
    ghost use Rattle.onvm_session.specs.RoleStates.{Grows, HasNoMore, StaysFed, keeps_of};

    /// Reads the rest of its feed, and keeps no frame: no pass comes after it. After want of memory it
    /// may have read a part of the rest.
    pub fn drain(&mut self, alloc: Global) -> Result<(), NoMemory>
        ensures ok { OnOk result (HasNoMore self.new) }
        ensures grows { Grows self.old self.new }
        ensures fed { StaysFed I.name I.left I.takes self.old self.new }
        ensures kept { keeps_of self.new ≡ keeps_of self.old }
        ensures stopped { HasNoMore self.old → self.new ≡ self.old }
    {
        match self {
            Role::Receive(role) => role.drain(alloc),
            Role::Send(_) | Role::Handle(_) | Role::Tick(_) => Ok(()),
        }
    }
}

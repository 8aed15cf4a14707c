//! A role's passes in a phase.
ghost use Rattle.std.specs.Prelude.{◌≡◌, not, true};
ghost use Rattle.onvm_promises.specs.Answers.{is_complete};

use crate::pace::{MOST_PASSES, Pace};
use crate::role::Role;
use nf_api::NetFunction;
use nf_registry::Registry;
use onvm_base::Plan;
use onvm_board::{Board, Token};
use onvm_host::{Clock, Gate, Source};
use onvm_promises::Pass;
use std::alloc::Global;
use std::sync::Wait;
use std::time;

/// A role in a phase, with its token.
#[derive(Drop)]
pub struct Seat<I, N> {
    pub number: u32,
    pub role: Role<I, N>,
    pub token: Token,
    /// The moment of the role's last pass, at first that of the last phase.
    pub latest: u64,
    /// What its last pass answered.
    pub answer: Pass,
}

impl<I: Source, N: NetFunction> Seat<I, N> {
    ghost use Rattle.onvm_session.specs.Seats.{HasPassed, IsSeatReady};

    // One pass, at the clock's moment. Where the clock is behind the last pass, it is at the moment of
    // that one: a role's moments never fall.
    fn pass<C: Clock>(
        &mut self,
        alloc: Global,
        board: &Board,
        plan: &Plan,
        registry: &Registry,
        clock: &C,
    )
        requires ready { IsSeatReady N.acts N.state (C.may_be_now clock.now) (C.may_span clock.now)
            board.now plan.now self.old }
        requires registry { registry.now ≡ plan.now }
        ensures { HasPassed N.acts N.state (C.may_be_now clock.now) (C.may_span clock.now) I.name I.left I.takes
            board.now plan.now self.old self.new }
    {
        let now = clock.now().max(self.latest);
        self.answer = self
            .role
            .pass(alloc, &mut self.token, board, plan, registry, clock, now);
        self.latest = now;
    }

    // Whether the last pass was cut short.
    fn is_cut_short(&self) -> bool
        ensures { result ≡ not (is_complete self.now.answer) }
    {
        match self.answer {
            Pass::Wanting | Pass::Stopped => true,
            Pass::Did(_) | Pass::Idle => false,
        }
    }

    /// The passes of a phase: as many as the pace admits.
    pub fn make_passes<T: Wait + time::Clock, C: Clock, G: Gate>(
        &mut self,
        rt: &T,
        alloc: Global,
        board: &Board,
        plan: &Plan,
        registry: &Registry,
        clock: &C,
        gate: &G,
        pace: &Pace,
    )
        requires ready { IsSeatReady N.acts N.state (C.may_be_now clock.now) (C.may_span clock.now)
            board.now plan.now self.old }
        requires registry { registry.now ≡ plan.now }
        requires complete { is_complete self.old.answer ≡ true }
        ensures { HasPassed N.acts N.state (C.may_be_now clock.now) (C.may_span clock.now) I.name I.left I.takes
            board.now plan.now self.old self.new }
    {
        let mut stride = pace.stride_of(&self.role);
        for number in 0..MOST_PASSES {
            if !pace.admits(rt, &self.role, &mut stride) {
                return;
            }
            gate.turn(self.number, pace.pass_number(number));
            self.pass(alloc, board, plan, registry, clock);
            pace.note(&self.role, self.answer, &mut stride);
            if self.is_cut_short() {
                break;
            }
        }
        pace.end_phase();
    }
}

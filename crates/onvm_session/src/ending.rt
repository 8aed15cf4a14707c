//! How a session ends.
ghost use Rattle.std.specs.Prelude.{◌≡◌, ◌+◌, ◌-◌, ◌<◌, ◌≤◌, ◌++◌, ℕ, Err, IfErr, IfOk, IsSome, List, OnErr, OnOk, Some, length, slice_get, true, vec_capacity, vec_len};
ghost use Rattle.rx_feed.specs.declared.fault.FeedFault.{FeedFault as FaultView};
ghost use Rattle.onvm_session.specs.Closings.{IsClosedRun, IsClosingTurn, IsRunOfLists};
ghost use Rattle.onvm_session.specs.Runs.{any_span, told_fault};
ghost use Rattle.onvm_session.specs.declared.run.Stop.TheVariants.{Memory};

use crate::leaving::Leavings;
use crate::lists::Gathered;
use crate::manager::{FIRST_WORD, Manager};
use crate::role::Role;
use crate::run::{Counters, Ended, Run, Stop, stop_of};
use load_estimate::{Samples, Ticks};
use nf_api::NetFunction;
use onvm_base::{ListOf, NoMemory, Plan, PortId};
use onvm_board::Closed;
use onvm_host::Source;
use onvm_promises::Pass;
use rx_feed::FeedFault;
use std::alloc::Global;

// The run of these lists and this board, where all lists are complete.
fn run_of(
    complete: bool,
    gathered: Gathered,
    samples: Samples,
    ticks: Ticks,
    closed: Closed,
) -> Result<Run, Stop>
    ensures { IsRunOfLists complete gathered samples ticks closed result }
{
    if !complete {
        return Err(Stop::Memory);
    }
    let Ok(lists) = gathered.into_lists() else {
        return Err(Stop::Memory);
    };
    Ok(Run {
        records: lists.records,
        sent: lists.sent,
        posts: lists.posts,
        samples,
        ticks,
        counters: Counters {
            yields: lists.yields,
            lost: lists.lost,
        },
        closed,
    })
}

impl<I: Drop> Leavings<I> {
    // The feeds, and the run of the lists and of this board.
    fn end(self, closed: Closed) -> Ended<I>
        ensures feeds { result.feeds ≡ self.feeds.items }
        ensures run { IsRunOfLists self.complete self.gathered self.samples self.ticks closed result.outcome }
    {
        let Leavings {
            feeds,
            gathered,
            samples,
            ticks,
            complete,
        } = self;
        Ended {
            outcome: run_of(complete, gathered, samples, ticks, closed),
            feeds: ListOf::from_vec(feeds),
        }
    }
}

impl<I: Source + Drop, N: NetFunction> Manager<I, N> {
    ghost use Rattle.onvm_session.specs.Leaving.{feeds_of};
    ghost use Rattle.onvm_session.specs.Managers.{AllGrow, HasFault, IsDrainedAt, IsManager, OfEach};
    ghost use Rattle.onvm_session.specs.RoleStates.{HasNoMore, IsUpTo, fault_of};
    ghost use Rattle.onvm_session.specs.declared.role.Role.{Role as RoleView};

    // Reads the capture of a role's port to its end, or up to a fault.
    fn drain_at(&mut self, alloc: Global, at: usize) -> Result<Option<FeedFault>, NoMemory>
        requires { at < length self.old.roles.items }
        ensures told { IfOk result (λ fault. IsDrainedAt at fault self.old self.new) }
        ensures stopped { (role : RoleView I N) → slice_get self.old.roles.items at ≡ Some role → HasNoMore role
            → self.new.roles.items ≡ self.old.roles.items }
        ensures grow { AllGrow I.name I.left I.takes self.old self.new }
    {
        self.roles[at].drain(alloc)?;
        Ok(self.roles[at].fault())
    }

    /// Reads the captures of the ports to their ends, in order, up to the first port that has a fault.
    pub fn find_fault(&mut self, alloc: Global) -> Stop
        requires fault { (r : ℕ) × (role : RoleView I N) × (slice_get self.old.roles.items r ≡ Some role)
            × IsSome (fault_of role) }
        requires few { length self.old.roles.items ≤ 255 }
        ensures told { (port : ℕ) (fault : FaultView) → told_fault result ≡ Some (port, fault)
            → HasFault self.new.roles.items port fault }
        ensures grow { AllGrow I.name I.left I.takes self.old self.new }
    {
        for at in 0..self.roles.len() {
            let Ok(fault) = self.drain_at(alloc, at) else {
                return Stop::Memory;
            };
            if let Some(fault) = fault {
                return stop_of(PortId(at as u8), fault);
            }
        }
        unreachable!()
    }

    /// The session stops, and the feeds are handed back.
    pub fn hand_back(self, alloc: Global, stop: Stop) -> Ended<I>
        requires room { vec_len self.feeds + length (feeds_of self.roles.items) ≤ vec_capacity self.feeds }
        ensures outcome { result.outcome ≡ Err stop }
        ensures feeds { result.feeds ≡ self.feeds.items ++ feeds_of self.roles.items }
    {
        let mut leavings = Leavings::make(alloc, self.feeds);
        leavings.add_all(self.roles);
        Ended {
            outcome: Err(stop),
            feeds: ListOf::from_vec(leavings.feeds),
        }
    }

    // The last turn: the tick role makes its closing pass at this moment.
    fn closing_turn(&mut self, plan: &Plan, now: u64) -> Result<(), NoMemory>
        requires manager { IsManager N.acts N.state any_span plan.now self.old }
        requires upto { OfEach (λ r role. IsUpTo now role) self.old.roles.items }
        ensures turn { OnOk result (IsClosingTurn plan.now now self.old self.new) }
        ensures feeds { (feeds_of self.new.roles.items ≡ feeds_of self.old.roles.items)
            × (self.new.feeds ≡ self.old.feeds) }
    {
        let number = u32::from(self.layout.ports)
            + u32::from(self.layout.transmit)
            + u32::from(self.layout.cores);
        let mut token = self.board.split(&mut self.first, number);
        let Role::Tick(role) = &mut self.roles[number as usize] else {
            unreachable!()
        };
        match role.pass(&mut token, &self.board, plan, now, true) {
            Pass::Did(_) | Pass::Idle => {}
            Pass::Wanting | Pass::Stopped => return Err(NoMemory),
        }
        self.board.join(&mut self.first, token);
        self.board.look(&mut self.first, FIRST_WORD);
        Ok(())
    }

    /// Makes the closing turn at this moment, closes the board, and puts the lists together.
    pub fn finish(mut self, alloc: Global, plan: &Plan, now: u64) -> Ended<I>
        requires manager { IsManager N.acts N.state any_span plan.now self }
        requires upto { OfEach (λ r role. IsUpTo now role) self.roles.items }
        requires room { vec_len self.feeds + length (feeds_of self.roles.items) ≤ vec_capacity self.feeds }
        ensures feeds { result.feeds ≡ self.feeds.items ++ feeds_of self.roles.items }
        ensures stop { IfErr result.outcome (λ stop. stop ≡ Memory) }
        ensures done { IfOk result.outcome (λ run. IsClosedRun plan.now now self run) }
    {
        if self.closing_turn(plan, now).is_err() {
            return self.hand_back(alloc, Stop::Memory);
        }
        let closed = self.board.close(self.first);
        let mut leavings = Leavings::make(alloc, self.feeds);
        leavings.add_all(self.roles);
        leavings.end(closed)
    }
}

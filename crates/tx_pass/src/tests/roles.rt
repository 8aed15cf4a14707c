//! The roles of a new board.
ghost use Rattle.std.specs.Prelude.{◌≡◌, ◌+◌, ◌<◌, ◌≤◌, IfOk};
ghost use Rattle.onvm_core.specs.Layouts.{IsLayoutOf, first_role};
ghost use Rattle.tx_pass.specs.Examples.{Enters, Handles, IsFresh, IsOpen, IsTestLayout};
ghost use Rattle.tx_pass.specs.Roles.{IsTxRole};

use crate::tests::frames::{Core, Entrance};
use crate::{Pass, TxRole, TxRoom};
use desc_ring::{Head, Tail};
use mbuf_pool::Part;
use nf_registry::Registry;
use onvm_base::{FnId, NoMemory, Plan, PortId, RingId};
use onvm_board::{Board, Token};
use onvm_core::Layout;
use std::alloc::Global;

/// Splits the first role that isn't split yet.
pub fn split(board: &Board, first: &mut Token, role: u32) -> Token
    requires open { IsOpen board.now role first.old }
    requires known { role < first_role board.now.layout }
    ensures open { IsOpen board.now (role + 1) first.new }
    ensures fresh { IsFresh board.now role result }
{
    board.split(first, role)
}

impl Entrance {
    /// The receive role of port 0.
    pub fn start(board: &Board, plan: &Plan, token: Token) -> Entrance
        requires layout { IsTestLayout board.now.layout }
        requires plan { IsLayoutOf plan.now board.now.layout }
        requires fresh { IsFresh board.now 0 token }
        ensures enters { Enters board.now result.token result.part result.lane }
    {
        let lane = Tail::at(board, RingId::Lane(FnId(0), 0), plan.ring);
        let part = Part::of(&Layout::of(plan), PortId(0));
        Entrance { token, part, lane }
    }
}

impl Core {
    /// The core of function 0 or 1, which has a core of its own, with the lane from a feeder.
    pub fn start(board: &Board, plan: &Plan, token: Token, function: u8, feeder: u8) -> Core
        requires layout { IsTestLayout board.now.layout }
        requires plan { IsLayoutOf plan.now board.now.layout }
        requires function { function < 2 }
        requires feeder { feeder < 3 }
        requires fresh { IsFresh board.now (3 + function) token }
        ensures handles { Handles board.now result.token result.lane result.output }
    {
        let lane = Head::at(board, RingId::Lane(FnId(function), feeder), plan.ring);
        let output = Tail::at(board, RingId::Output(FnId(function)), plan.output);
        Core {
            token,
            lane,
            output,
        }
    }
}

/// A transmit role with its token.
#[derive(Drop)]
pub struct Sender {
    pub token: Token,
    pub role: TxRole,
}

impl Sender {
    /// Transmit role 0 or 1: what it is when it starts.
    pub fn start(
        alloc: Global,
        board: &Board,
        plan: &Plan,
        token: Token,
        number: u8,
    ) -> Result<Sender, NoMemory>
        requires layout { IsTestLayout board.now.layout }
        requires plan { IsLayoutOf plan.now board.now.layout }
        requires number { (1 ≤ number) × (number < 3) }
        requires fresh { IsFresh board.now number token }
        ensures sends { IfOk result (λ sender. IsTxRole board.now plan.now sender.token sender.role) }
    {
        let role = TxRoom::make(alloc, board, plan, number)?.start();
        Ok(Sender { token, role })
    }

    pub fn pass(&mut self, board: &Board, plan: &Plan, registry: &Registry, now: u64) -> Pass
        requires sends { IsTxRole board.now plan.now self.old.token self.old.role }
        requires registry { registry.now ≡ plan.now }
        ensures sends { IsTxRole board.now plan.now self.new.token self.new.role }
    {
        self.role.pass(&mut self.token, board, plan, registry, now)
    }

    /// What four passes at moment 0 answer.
    pub fn four_passes(&mut self, board: &Board, plan: &Plan, registry: &Registry) -> [Pass; 4]
        requires sends { IsTxRole board.now plan.now self.old.token self.old.role }
        requires registry { registry.now ≡ plan.now }
        ensures sends { IsTxRole board.now plan.now self.new.token self.new.role }
    {
        let first = self.pass(board, plan, registry, 0);
        let second = self.pass(board, plan, registry, 0);
        let third = self.pass(board, plan, registry, 0);
        let fourth = self.pass(board, plan, registry, 0);
        [first, second, third, fourth]
    }
}

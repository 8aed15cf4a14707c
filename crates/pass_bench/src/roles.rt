//! The roles of a new board.
ghost use Rattle.std.specs.Prelude.{◌≡◌, ◌+◌, ◌<◌, ◌≤◌};
ghost use Rattle.onvm_core.specs.Layouts.{IsLayout, IsLayoutOf, first_role};
ghost use Rattle.onvm_board.specs.Tokens.{first_token};
ghost use Rattle.tx_pass.specs.Examples.{Enters, Handles, IsFresh, IsOpen, IsTestLayout, IsTestPlan};

use crate::frames::{Core, Entrance};
use desc_ring::{Head, Tail};
use mbuf_pool::Part;
use onvm_base::{FnId, Plan, PortId, RingId};
use onvm_board::{Board, Token};
use onvm_core::Layout;

/// Splits the first role that isn't split yet.
pub fn split(board: &Board, first: &mut Token, role: u32) -> Token
    requires open { IsOpen board.now role first.old }
    requires known { role < first_role board.now.layout }
    ensures open { IsOpen board.now (role + 1) first.new }
    ensures fresh { IsFresh board.now role result }
{
    board.split(first, role)
}

impl Entrance {
    /// The receive role of port 0.
    pub fn start(board: &Board, plan: &Plan, token: Token) -> Entrance
        requires ranges { IsLayout board.now.layout }
        requires plan { IsLayoutOf plan.now board.now.layout }
        requires fresh { IsFresh board.now 0 token }
        ensures enters { Enters board.now result.token result.part result.lane }
    {
        let lane = Tail::at(board, RingId::Lane(FnId(0), 0), plan.ring);
        let part = Part::of(&Layout::of(plan), PortId(0));
        Entrance { token, part, lane }
    }
}

impl Core {
    // The core of function 0 or 1, which has a core of its own, with the lane from a feeder.
    fn start(board: &Board, plan: &Plan, token: Token, function: u8, feeder: u8) -> Core
        requires layout { IsTestLayout board.now.layout }
        requires plan { IsLayoutOf plan.now board.now.layout }
        requires function { function < 2 }
        requires feeder { feeder < 3 }
        requires fresh { IsFresh board.now (3 + function) token }
        ensures handles { Handles board.now result.token result.lane result.output }
    {
        let lane = Head::at(board, RingId::Lane(FnId(function), feeder), plan.ring);
        let output = Tail::at(board, RingId::Output(FnId(function)), plan.output);
        Core {
            token,
            lane,
            output,
        }
    }
}

/// The roles between which frames go: the receive role and the cores of two functions, and the tokens
/// of the two transmit roles.
#[derive(Drop)]
pub struct Line {
    pub entrance: Entrance,
    pub first: Core,
    pub mover: Token,
    pub second: Core,
    pub sender: Token,
}

impl Line {
    pub fn start(plan: &Plan, board: &Board, lead: &mut Token) -> Line
        requires plan { IsTestPlan plan.now }
        requires layout { IsLayoutOf plan.now board.now.layout }
        requires ranges { IsLayout board.now.layout }
        requires lead { lead.old ≡ first_token board.now }
        ensures layout { IsTestLayout board.now.layout }
        ensures enters { Enters board.now result.entrance.token result.entrance.part result.entrance.lane }
        ensures first { Handles board.now result.first.token result.first.lane result.first.output }
        ensures mover { IsFresh board.now 1 result.mover }
        ensures second { Handles board.now result.second.token result.second.lane result.second.output }
        ensures sender { IsFresh board.now 2 result.sender }
    {
        let receive = split(board, lead, 0);
        let mover = split(board, lead, 1);
        let sender = split(board, lead, 2);
        let first_core = split(board, lead, 3);
        let second_core = split(board, lead, 4);
        Line {
            entrance: Entrance::start(board, plan, receive),
            first: Core::start(board, plan, first_core, 0, 0),
            mover,
            second: Core::start(board, plan, second_core, 1, 1),
            sender,
        }
    }
}

//! Frames that go by transmit passes.
ghost use Rattle.std.specs.Prelude.{◌≡◌, IfOk, true};
ghost use Rattle.onvm_core.specs.Layouts.{IsLayout, IsLayoutOf};
ghost use Rattle.onvm_board.specs.Tokens.{first_token};
ghost use Rattle.tx_pass.specs.Examples.{Enters, Handles, IsFresh, IsTestPlan};
ghost use Rattle.tx_pass.specs.Roles.{IsTransmit, IsTxRole};

use crate::cost::{BURST, Cost, Costs};
use crate::frames::{Core, Entrance};
use crate::roles::Line;
use nf_registry::Registry;
use onvm_base::{NoMemory, Plan, Verdict};
use onvm_board::{Board, Token};
use onvm_host::Clock;
use std::alloc::Global;
use tx_pass::{Pass, TxRole, TxRoom};

/// A transmit role with its token.
#[derive(Drop)]
pub struct Sender {
    pub token: Token,
    pub role: TxRole,
}

impl Sender {
    /// The transmit role of this number among all roles.
    pub fn start(
        alloc: Global,
        board: &Board,
        plan: &Plan,
        token: Token,
        number: u8,
    ) -> Result<Sender, NoMemory>
        requires plan { IsLayoutOf plan.now board.now.layout }
        requires number { IsTransmit board.now.layout number }
        requires fresh { IsFresh board.now number token }
        ensures sends { IfOk result (λ sender. IsTxRole board.now plan.now sender.token sender.role) }
    {
        let role = TxRoom::make(alloc, board, plan, number)?.start();
        Ok(Sender { token, role })
    }

    /// So many frames are moved by one pass.
    pub fn pass(&mut self, board: &Board, plan: &Plan, registry: &Registry, now: u64) -> u64
        requires sends { IsTxRole board.now plan.now self.old.token self.old.role }
        requires registry { registry.now ≡ plan.now }
        ensures sends { IsTxRole board.now plan.now self.new.token self.new.role }
    {
        match self.role.pass(&mut self.token, board, plan, registry, now) {
            Pass::Did(moved) => u64::from(moved),
            _ => 0,
        }
    }

    // A burst of frames is moved, by two passes.
    fn pass_twice<C: Clock>(
        &mut self,
        board: &Board,
        plan: &Plan,
        registry: &Registry,
        clock: &C,
        cost: &mut Cost,
    )
        requires sends { IsTxRole board.now plan.now self.old.token self.old.role }
        requires registry { registry.now ≡ plan.now }
        ensures sends { IsTxRole board.now plan.now self.new.token self.new.role }
    {
        let start = clock.now();
        let first = self.pass(board, plan, registry, start);
        let second = self.pass(board, plan, registry, start);
        let time = clock.now().saturating_sub(start);
        cost.add(time, first.wrapping_add(second));
    }
}

/// What frames cost that a transmit pass moves to a lane, and ones that another sends, over bursts.
pub fn cost_of_passes<C: Clock>(
    alloc: Global,
    plan: &Plan,
    board: &Board,
    lead: &mut Token,
    clock: &C,
    rounds: u32,
) -> Result<Costs, NoMemory>
    requires plan { IsTestPlan plan.now }
    requires layout { IsLayoutOf plan.now board.now.layout }
    requires ranges { IsLayout board.now.layout }
    requires lead { lead.old ≡ first_token board.now }
{
    let registry = Registry::make(alloc, plan)?;
    let Line {
        mut entrance,
        mut first,
        mover,
        mut second,
        sender,
    } = Line::start(plan, board, lead);
    let mut mover = Sender::start(alloc, board, plan, mover, 1)?;
    let mut sender = Sender::start(alloc, board, plan, sender, 2)?;
    let mut costs = Costs::new();
    for _ in 0..rounds {
        if !bring(alloc, board, &mut entrance, &mut first)? {
            break;
        }
        mover.pass_twice(board, plan, &registry, clock, &mut costs.moved);
        if !second.handle_all(board, Verdict::Out(0)) {
            break;
        }
        sender.pass_twice(board, plan, &registry, clock, &mut costs.sent);
    }
    Ok(costs)
}

/// A burst of frames enters, and function 0 handles it.
pub fn bring(
    alloc: Global,
    board: &Board,
    entrance: &mut Entrance,
    core: &mut Core,
) -> Result<bool, NoMemory>
    requires enters { Enters board.now entrance.old.token entrance.old.part entrance.old.lane }
    requires handles { Handles board.now core.old.token core.old.lane core.old.output }
    ensures enters { IfOk result (λ brought. brought ≡ true
        → Enters board.now entrance.new.token entrance.new.part entrance.new.lane) }
    ensures handles { IfOk result (λ brought. brought ≡ true
        → Handles board.now core.new.token core.new.lane core.new.output) }
{
    if !entrance.enter_all(alloc, board, BURST)? {
        return Ok(false);
    }
    Ok(core.handle_all(board, Verdict::Next))
}

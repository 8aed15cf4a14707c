//! What a core's pass costs for each frame that its functions handle.
ghost use Rattle.std.specs.Prelude.{◌≡◌, ◌+◌, ◌*◌, ◌<◌, [], IfOk};
ghost use Rattle.onvm_core.specs.Layouts.{IsLayout, IsLayoutOf};
ghost use Rattle.onvm_board.specs.Tokens.{first_token};
ghost use Rattle.onvm_promises.specs.Sampling.{AreTimed};
ghost use Rattle.nf_exec.specs.Roles.{IsCoreRole};
ghost use Rattle.tx_pass.specs.Examples.{Enters, IsFresh};
ghost use Rattle.tx_pass.specs.Roles.{IsTxRole};

use crate::cost::Cost;
use crate::frames::Entrance;
use crate::passes::Sender;
use crate::roles::split;
use chain_file::read;
use nf_api::NetFunction;
use nf_exec::{CoreRole, CoreRoom};
use nf_registry::Registry;
use nf_steady::Steady;
use onvm_base::{ListOf, NoMemory, Plan};
use onvm_board::{Board, Token};
use onvm_core::Layout;
use onvm_files::SysClock;
use onvm_host::Clock;
use onvm_promises::Pass;
use std::alloc::Global;

// Frames that enter before each pass: as many as a function may handle in one.
const BURST: u32 = 32;

// How many frames so many functions may handle in one pass.
fn frames_of(functions: u8) -> u32
    ensures { result ≡ 32 * functions }
{
    BURST * u32::from(functions)
}

// So many functions on one core, and a chain through all.
fn chain_file(alloc: Global, functions: u8) -> Result<String, NoMemory> {
    let mut text = String::new(alloc);
    text.push_str("{\"version\":1,\"ports\":1,\"functions\":[")?;
    for f in 1..functions {
        text.push_str(&function(alloc, f)?)?;
        text.push_str(",")?;
    }
    text.push_str(&function(alloc, functions)?)?;
    text.push_str("],\"chains\":[{\"name\":\"c\",\"steps\":[")?;
    for f in 1..functions {
        text.push_str(&format!(in alloc; "{{\"to\":{f}}},")?)?;
    }
    text.push_str(&format!(in alloc; "{{\"to\":{functions}}}")?)?;
    text.push_str("]}],\"default\":\"c\"}")?;
    Ok(text)
}

fn function(alloc: Global, number: u8) -> Result<String, NoMemory> {
    Ok(format!(in alloc;
        "{{\"name\":\"f{number}\",\"service\":{number},\"core\":0,\"kind\":\"forward\"}}"
    )?)
}

fn plan(alloc: Global, functions: u8) -> Result<Plan, NoMemory>
    ensures { IfOk result (λ plan. (plan.ports ≡ 1) × (plan.transmit ≡ 1)) }
{
    let text = chain_file(alloc, functions)?;
    match read(alloc, text.as_bytes(), 1, &[]) {
        Ok(plan) if plan.ports == 1 && plan.transmit == 1 => Ok(plan),
        _ => Err(NoMemory),
    }
}

// The core of all functions.
#[derive(Drop)]
struct Handler<N> {
    token: Token,
    role: CoreRole<N>,
}

impl<N: NetFunction> Handler<N> {
    fn start(
        alloc: Global,
        board: &Board,
        layout: &Layout,
        registry: &Registry,
        token: Token,
        units: ListOf<N>,
    ) -> Result<Handler<N>, NoMemory>
        requires ranges { IsLayout layout.now }
        requires plan { IsLayoutOf registry.now layout.now }
        requires layout { layout.now ≡ board.now.layout }
        requires fresh { IsFresh board.now (layout.now.ports + layout.now.transmit) token }
        ensures role { IfOk result (λ handler.
            IsCoreRole N.acts N.state board.now registry.now handler.token handler.role) }
        ensures token { IfOk result (λ handler. handler.token ≡ token) }
    {
        let room = CoreRoom::make(alloc, board, layout, registry, 0)?;
        if room.functions() != units.len() {
            return Err(NoMemory);
        }
        let role = room.start(units);
        Ok(Handler { token, role })
    }

    // So many frames are handled by one pass.
    fn pass<C: Clock>(&mut self, board: &Board, plan: &Plan, clock: &C) -> u32
        requires role { IsCoreRole N.acts N.state board.now plan.now self.old.token self.old.role }
        requires timed { AreTimed (C.may_span clock.now) plan.now self.old.token.log }
        ensures role { IsCoreRole N.acts N.state board.now plan.now self.new.token self.new.role }
        ensures timed { AreTimed (C.may_span clock.now) plan.now self.new.token.log }
    {
        match self.role.pass(&mut self.token, board, plan, clock) {
            Pass::Did(handled) => handled,
            _ => 0,
        }
    }
}

// The roles through which the frames go round: they enter, and a transmit role moves them from
// function to function until their chain ends.
#[derive(Drop)]
struct Round<N> {
    entrance: Entrance,
    sender: Sender,
    handler: Handler<N>,
}

impl<N: NetFunction> Round<N> {
    fn start(
        alloc: Global,
        board: &Board,
        layout: &Layout,
        plan: &Plan,
        registry: &Registry,
        lead: &mut Token,
        units: ListOf<N>,
    ) -> Result<Round<N>, NoMemory>
        requires one { (layout.now.ports ≡ 1) × (layout.now.transmit ≡ 1) }
        requires ranges { IsLayout layout.now }
        requires plan { IsLayoutOf plan.now layout.now }
        requires layout { layout.now ≡ board.now.layout }
        requires registry { registry.now ≡ plan.now }
        requires lead { lead.old ≡ first_token board.now }
        ensures enters { IfOk result (λ round.
            Enters board.now round.entrance.token round.entrance.part round.entrance.lane) }
        ensures sends { IfOk result (λ round. IsTxRole board.now plan.now round.sender.token round.sender.role) }
        ensures handles { IfOk result (λ round.
            IsCoreRole N.acts N.state board.now plan.now round.handler.token round.handler.role) }
        ensures begin { IfOk result (λ round. round.handler.token.log ≡ []) }
    {
        let receive = split(board, lead, 0);
        let transmit = split(board, lead, 1);
        let core = split(board, lead, 2);
        Ok(Round {
            entrance: Entrance::start(board, plan, receive),
            sender: Sender::start(alloc, board, plan, transmit, 1)?,
            handler: Handler::start(alloc, board, layout, registry, core, units)?,
        })
    }
}

// What passes cost in which each function handled as many frames as it may, over so many passes.
fn cost_of_cores<N: NetFunction, C: Clock>(
    alloc: Global,
    plan: &Plan,
    board: &Board,
    registry: &Registry,
    clock: &C,
    round: Round<N>,
    functions: u8,
    passes: u32,
) -> Result<Cost, NoMemory>
    requires registry { registry.now ≡ plan.now }
    requires enters { Enters board.now round.entrance.token round.entrance.part round.entrance.lane }
    requires sends { IsTxRole board.now plan.now round.sender.token round.sender.role }
    requires handles { IsCoreRole N.acts N.state board.now plan.now round.handler.token round.handler.role }
    requires begin { round.handler.token.log ≡ [] }
{
    let Round {
        mut entrance,
        mut sender,
        mut handler,
    } = round;
    let mut cost = Cost::new();
    for _ in 0..passes {
        if !entrance.enter_all(alloc, board, BURST)? {
            break;
        }
        let start = clock.now();
        let handled = handler.pass(board, plan, clock);
        let time = clock.now().saturating_sub(start);
        if handled == frames_of(functions) {
            cost.add(time, u64::from(handled));
        }
        let _ = sender.pass(board, plan, registry, start);
    }
    Ok(cost)
}

/// Prints what a frame costs at a core of so many functions, over so many passes.
pub fn measure_cores(rt: &HostRuntime, functions: u8, passes: u32) -> Result<(), NoMemory>
    requires some { 0 < functions }
{
    let clock = SysClock::make(*rt);
    let plan = plan(rt.alloc(), functions)?;
    let layout = Layout::of(&plan);
    let registry = Registry::make(rt.alloc(), &plan)?;
    let (board, mut lead) = Board::make(rt.alloc(), &layout)?;
    let mut units = ListOf::make(rt.alloc());
    for _ in 0..functions {
        units.push(Steady::Forward)?;
    }
    let round = Round::start(
        rt.alloc(),
        &board,
        &layout,
        &plan,
        &registry,
        &mut lead,
        units,
    )?;
    let cost = cost_of_cores(
        rt.alloc(),
        &plan,
        &board,
        &registry,
        &clock,
        round,
        functions,
        passes,
    )?;
    let name = format!(in rt.alloc(); "a frame that a core handles, functions {functions}")?;
    cost.print_of(rt, &name, frames_of(functions));
    Ok(())
}

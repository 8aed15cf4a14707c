//! One frame, pass by pass.
ghost use Rattle.std.specs.Prelude.{◌≡◌, ◌+◌, ◌<◌, Some};
ghost use Rattle.onvm_core.specs.Layouts.{IsLayout, IsLayoutOf, first_role};
ghost use Rattle.rx_feed.specs.Feeds.{IsFreshFeed};
ghost use Rattle.tx_pass.specs.Examples.{IsFresh, IsOpen};

use super::calls::plan_of;
use super::captures::{FRAME, capture, feed_of};
use super::plans::{FORWARD, one_function};
use nf_api::NetFunction;
use nf_catalog::units;
use nf_exec::CoreRoom;
use nf_registry::Registry;
use onvm_base::{ListOf, NoMemory, Plan, PortId};
use onvm_board::{Board, Token};
use onvm_core::Layout;
use onvm_host::{Source, StepClock};
use onvm_promises::Pass;
use rx_feed::Feed;
use rx_pass::RxRoom;
use std::alloc::Global;
use std::test::Fail;
use tx_pass::TxRoom;

// Splits the first role that isn't split yet.
fn split(board: &Board, first: &mut Token, role: u32) -> Token
    requires open { IsOpen board.now role first.old }
    requires known { role < first_role board.now.layout }
    ensures open { IsOpen board.now (role + 1) first.new }
    ensures fresh { IsFresh board.now role result }
{
    board.split(first, role)
}

// What the receive role of port 0 answers, and what it answers then.
fn receive<I: Source + Drop>(
    alloc: Global,
    board: &Board,
    plan: &Plan,
    registry: &Registry,
    mut token: Token,
    feed: Feed<I>,
) -> Result<(Pass, Pass), NoMemory>
    requires ranges { IsLayout board.now.layout }
    requires plan { IsLayoutOf plan.now board.now.layout }
    requires registry { registry.now ≡ plan.now }
    requires token { IsFresh board.now 0 token }
    requires feed { IsFreshFeed (Some feed) }
{
    let mut role = RxRoom::make(alloc, board, plan, PortId(0))?.start(Some(feed));
    let received = role.pass(alloc, &mut token, board, plan, registry, 0);
    let again = role.pass(alloc, &mut token, board, plan, registry, 0);
    Ok((received, again))
}

// What core 0 answers.
fn handle<N: NetFunction>(
    alloc: Global,
    board: &Board,
    layout: &Layout,
    plan: &Plan,
    registry: &Registry,
    mut token: Token,
    units: ListOf<N>,
) -> Result<Pass, NoMemory>
    requires ranges { IsLayout layout.now }
    requires layout { layout.now ≡ board.now.layout }
    requires plan { IsLayoutOf plan.now board.now.layout }
    requires registry { registry.now ≡ plan.now }
    requires token { IsFresh board.now (plan.now.ports + plan.now.transmit) token }
{
    let room = CoreRoom::make(alloc, board, layout, registry, 0)?;
    if room.functions() != units.len() {
        return Err(NoMemory);
    }
    let mut role = room.start(units);
    let clock = StepClock { at: 0 };
    Ok(role.pass(&mut token, board, plan, &clock))
}

// What the first transmit role answers.
fn send(
    alloc: Global,
    board: &Board,
    plan: &Plan,
    registry: &Registry,
    mut token: Token,
) -> Result<Pass, NoMemory>
    requires ranges { IsLayout board.now.layout }
    requires plan { IsLayoutOf plan.now board.now.layout }
    requires registry { registry.now ≡ plan.now }
    requires token { IsFresh board.now plan.now.ports token }
{
    let mut role = TxRoom::make(alloc, board, plan, plan.ports)?.start();
    Ok(role.pass(&mut token, board, plan, registry, 0))
}

// What passes answer, one after another: of the receive role, of it again, of the core, and of the
// transmit role.
fn answers_of<I: Source + Drop, N: NetFunction>(
    alloc: Global,
    plan: &Plan,
    units: ListOf<N>,
    feed: Feed<I>,
) -> Result<(Pass, Pass, Pass, Pass), NoMemory>
    requires one { (plan.now.ports ≡ 1) × (plan.now.transmit ≡ 1) }
    requires feed { IsFreshFeed (Some feed) }
{
    let layout = Layout::of(plan);
    let registry = Registry::make(alloc, plan)?;
    let (board, mut first) = Board::make(alloc, &layout)?;
    let port = split(&board, &mut first, 0);
    let sender = split(&board, &mut first, 1);
    let core = split(&board, &mut first, 2);
    let (received, again) = receive(alloc, &board, plan, &registry, port, feed)?;
    let handled = handle(alloc, &board, &layout, plan, &registry, core, units)?;
    let moved = send(alloc, &board, plan, &registry, sender)?;
    Ok((received, again, handled, moved))
}

#[test]
fn one_frame_goes_on_by_one_pass_of_each_role(rt: HostRuntime) -> Result<(), Fail> {
    let alloc = rt.alloc();
    let plan = plan_of(alloc, &one_function(alloc, "", FORWARD)?)?;
    if plan.ports != 1 || plan.transmit != 1 {
        return Err(Fail::from("not one port and one transmit role"));
    }
    let units = units(alloc, &plan, Vec::new(alloc))?;
    let feed = feed_of(alloc, &capture(alloc, &[FRAME])?, &[])?;
    let answers = answers_of(alloc, &plan, units, feed)?;
    let one = Pass::Did(1);
    assert_eq!(rt; answers, (one, Pass::Idle, one, one));
    Ok(())
}

//! A core of one function over a small board. Frames have one byte, their number.
ghost use Rattle.std.specs.Prelude.{◌≡◌, IfOk, length};

mod desk;
mod functions;
mod plans;

use desk::Desk;
use functions::WantsOnce;
use nf_api::{Guest, NetFunction};
use nf_guests::Flip;
use onvm_base::{ListOf, Name, NoMemory};
use onvm_board::Board;
use onvm_core::Layout;
use onvm_promises::Pass;
use plans::plan;
use std::alloc::Global;
use std::test::Fail;

// A function that counts its packets, and wants memory for the first one unless it did so before.
fn counts(alloc: Global, wanted: bool) -> Result<ListOf<WantsOnce>, NoMemory>
    ensures { IfOk result (λ units. length units ≡ 1) }
{
    let mut units = ListOf::make(alloc);
    units.push(WantsOnce { wanted, handled: 0 })?;
    Ok(units)
}

// A boxed function that changes the last bit.
fn flips(alloc: Global) -> Result<ListOf<Guest>, NoMemory>
    ensures { IfOk result (λ units. length units ≡ 1) }
{
    let function: Box<dyn NetFunction + Send> = Box::new(alloc, Flip { handled: 0 })?;
    let name = Name::from_slice(alloc, b"flip")?;
    let mut units = ListOf::make(alloc);
    units.push(Guest { name, function })?;
    Ok(units)
}

// A role is handed to the thread of its core.
fn may_be_handed_over<T: Send>(_role: &T) {}

#[test]
fn a_posted_weight_of_1_is_a_budget_of_one_frame_a_pass(rt: HostRuntime) -> Result<(), Fail> {
    let plan = plan(rt.alloc(), 16)?;
    let layout = Layout::of(&plan);
    let (board, mut first) = Board::make(rt.alloc(), &layout)?;
    let units = counts(rt.alloc(), true)?;
    let Desk {
        mut zero,
        mut core,
        mut ticker,
        ..
    } = Desk::start(rt.alloc(), &board, &layout, &plan, &mut first, units)?;
    may_be_handed_over(&core.role);
    zero.enter(rt.alloc(), &board, 1)?;
    zero.enter(rt.alloc(), &board, 2)?;
    assert_eq!(rt; core.pass(&board, &plan), Pass::Did(2));
    ticker.post(&board, 1);
    zero.enter(rt.alloc(), &board, 3)?;
    zero.enter(rt.alloc(), &board, 4)?;
    assert_eq!(rt; core.pass(&board, &plan), Pass::Did(1));
    assert_eq!(rt; core.pass(&board, &plan), Pass::Did(1));
    assert_eq!(rt; core.pass(&board, &plan), Pass::Idle);
    Ok(())
}

#[test]
fn a_full_output_ring_yields_and_loses_nothing(rt: HostRuntime) -> Result<(), Fail> {
    let plan = plan(rt.alloc(), 2)?;
    let layout = Layout::of(&plan);
    let (board, mut first) = Board::make(rt.alloc(), &layout)?;
    let units = counts(rt.alloc(), true)?;
    let Desk {
        mut zero,
        mut core,
        mut outlet,
        ..
    } = Desk::start(rt.alloc(), &board, &layout, &plan, &mut first, units)?;
    zero.enter(rt.alloc(), &board, 1)?;
    zero.enter(rt.alloc(), &board, 2)?;
    zero.enter(rt.alloc(), &board, 3)?;
    assert_eq!(rt; core.pass(&board, &plan), Pass::Did(2));
    assert_eq!(rt; core.pass(&board, &plan), Pass::Idle);
    assert_eq!(rt; core.role.yields, 2);
    assert_eq!(rt; outlet.leave(&board), Some(1));
    assert_eq!(rt; core.pass(&board, &plan), Pass::Did(1));
    assert_eq!(rt; outlet.leave(&board), Some(2));
    assert_eq!(rt; outlet.leave(&board), Some(3));
    Ok(())
}

#[test]
fn two_lanes_are_served_in_turn(rt: HostRuntime) -> Result<(), Fail> {
    let plan = plan(rt.alloc(), 16)?;
    let layout = Layout::of(&plan);
    let (board, mut first) = Board::make(rt.alloc(), &layout)?;
    let units = counts(rt.alloc(), true)?;
    let Desk {
        mut zero,
        mut one,
        mut core,
        mut outlet,
        ..
    } = Desk::start(rt.alloc(), &board, &layout, &plan, &mut first, units)?;
    zero.enter(rt.alloc(), &board, 1)?;
    zero.enter(rt.alloc(), &board, 2)?;
    one.enter(rt.alloc(), &board, 11)?;
    one.enter(rt.alloc(), &board, 12)?;
    assert_eq!(rt; core.pass(&board, &plan), Pass::Did(4));
    assert_eq!(rt; outlet.leave(&board), Some(1));
    assert_eq!(rt; outlet.leave(&board), Some(11));
    assert_eq!(rt; outlet.leave(&board), Some(2));
    assert_eq!(rt; outlet.leave(&board), Some(12));
    Ok(())
}

#[test]
fn a_frame_that_wanted_memory_is_handled_once_and_not_lost(rt: HostRuntime) -> Result<(), Fail> {
    let plan = plan(rt.alloc(), 16)?;
    let layout = Layout::of(&plan);
    let (board, mut first) = Board::make(rt.alloc(), &layout)?;
    let units = counts(rt.alloc(), false)?;
    let Desk {
        mut zero,
        mut one,
        mut core,
        mut outlet,
        ..
    } = Desk::start(rt.alloc(), &board, &layout, &plan, &mut first, units)?;
    zero.enter(rt.alloc(), &board, 1)?;
    one.enter(rt.alloc(), &board, 11)?;
    assert_eq!(rt; core.pass(&board, &plan), Pass::Wanting);
    assert_eq!(rt; outlet.leave(&board), None);
    assert_eq!(rt; core.pass(&board, &plan), Pass::Did(2));
    assert_eq!(rt; core.pass(&board, &plan), Pass::Idle);
    assert_eq!(rt; outlet.leave(&board), Some(1));
    assert_eq!(rt; outlet.leave(&board), Some(11));
    assert_eq!(rt; outlet.leave(&board), None);
    let kept = core.role.end();
    let handled: Vec<u64> = kept
        .units
        .as_slice()
        .iter()
        .map(|unit| unit.handled)
        .collect(rt.alloc())?;
    assert_eq!(rt; handled.as_slice(), [2].as_slice());
    assert_eq!(rt; (kept.yields, kept.lost), (0, 0));
    Ok(())
}

#[test]
fn a_guest_in_a_box_handles_frames(rt: HostRuntime) -> Result<(), Fail> {
    let plan = plan(rt.alloc(), 16)?;
    let layout = Layout::of(&plan);
    let (board, mut first) = Board::make(rt.alloc(), &layout)?;
    let units = flips(rt.alloc())?;
    let Desk {
        mut zero,
        mut core,
        mut outlet,
        ..
    } = Desk::start(rt.alloc(), &board, &layout, &plan, &mut first, units)?;
    zero.enter(rt.alloc(), &board, 4)?;
    assert_eq!(rt; core.pass(&board, &plan), Pass::Did(1));
    assert_eq!(rt; outlet.leave(&board), Some(5));
    Ok(())
}

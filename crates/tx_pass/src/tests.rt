//! Passes over a board with three functions: frames go on, leave, end and meet a full lane.
ghost use Rattle.std.specs.Prelude.{◌≡◌, ◌+◌, ◌<◌, ◌≤◌, IfOk, true};
ghost use Rattle.onvm_core.specs.Layouts.{IsLayout, IsLayoutOf};
ghost use Rattle.onvm_base.specs.declared.limits.TheConstants.{MAX_HOPS};
ghost use Rattle.onvm_board.specs.Tokens.{first_token};
ghost use Rattle.tx_pass.specs.Examples.{Enters, Handles, IsTestPlan};
ghost use Rattle.tx_pass.specs.Roles.{IsTxRole};

mod frames;
mod plans;
mod roles;

use crate::{Pass, TxRole};
use frames::{Arrival, Core, Entrance, frame};
use nf_registry::Registry;
use onvm_base::{FnId, NoMemory, Outcome, Plan, Post, Record, RingId, Verdict, Why};
use onvm_board::{Board, Token};
use onvm_core::Layout;
use plans::plan;
use roles::{Sender, split};
use std::alloc::Global;
use std::test::Fail;

// The roles that bring frames to function 0, which a transmit role moves on to function 1.
#[derive(Drop)]
struct Desk {
    entrance: Entrance,
    first: Core,
    sender: Sender,
    second: Core,
    last: Sender,
}

impl Desk {
    fn start(alloc: Global, plan: &Plan, board: &Board, lead: &mut Token) -> Result<Desk, NoMemory>
        requires plan { IsTestPlan plan.now }
        requires layout { IsLayoutOf plan.now board.now.layout }
        requires ranges { IsLayout board.now.layout }
        requires lead { lead.old ≡ first_token board.now }
        ensures enters { IfOk result (λ desk. Enters board.now desk.entrance.token desk.entrance.part desk.entrance.lane) }
        ensures first { IfOk result (λ desk. Handles board.now desk.first.token desk.first.lane desk.first.output) }
        ensures sender { IfOk result (λ desk. IsTxRole board.now plan.now desk.sender.token desk.sender.role) }
        ensures second { IfOk result (λ desk. Handles board.now desk.second.token desk.second.lane desk.second.output) }
        ensures last { IfOk result (λ desk. IsTxRole board.now plan.now desk.last.token desk.last.role) }
    {
        let receive = split(board, lead, 0);
        let first_transmit = split(board, lead, 1);
        let second_transmit = split(board, lead, 2);
        let first_core = split(board, lead, 3);
        let second_core = split(board, lead, 4);
        Ok(Desk {
            entrance: Entrance::start(board, plan, receive),
            first: Core::start(board, plan, first_core, 0, 0),
            sender: Sender::start(alloc, board, plan, first_transmit, 1)?,
            second: Core::start(board, plan, second_core, 1, 1),
            last: Sender::start(alloc, board, plan, second_transmit, 2)?,
        })
    }
}

// A frame enters, and function 0 handles it.
fn bring(
    alloc: Global,
    board: &Board,
    entrance: &mut Entrance,
    core: &mut Core,
    arrival: Arrival,
    verdict: Verdict,
) -> Result<bool, NoMemory>
    requires enters { Enters board.now entrance.old.token entrance.old.part entrance.old.lane }
    requires handles { Handles board.now core.old.token core.old.lane core.old.output }
    requires hops { arrival.hops < MAX_HOPS }
    ensures enters { IfOk result (λ brought. brought ≡ true
        → Enters board.now entrance.new.token entrance.new.part entrance.new.lane) }
    ensures handles { IfOk result (λ brought. brought ≡ true
        → Handles board.now core.new.token core.new.lane core.new.output) }
{
    if !entrance.enter(alloc, board, arrival)? {
        return Ok(false);
    }
    Ok(core.handle(board, verdict))
}

// Brings frames with these numbers, each with the verdict Next.
fn fill(
    alloc: Global,
    board: &Board,
    entrance: &mut Entrance,
    core: &mut Core,
    from: u32,
    upto: u32,
) -> Result<bool, NoMemory>
    requires enters { Enters board.now entrance.old.token entrance.old.part entrance.old.lane }
    requires handles { Handles board.now core.old.token core.old.lane core.old.output }
    ensures enters { IfOk result (λ brought. brought ≡ true
        → Enters board.now entrance.new.token entrance.new.part entrance.new.lane) }
    ensures handles { IfOk result (λ brought. brought ≡ true
        → Handles board.now core.new.token core.new.lane core.new.output) }
{
    for number in from..upto {
        let arrival = Arrival::new(number, 0, 0);
        if !bring(alloc, board, entrance, core, arrival, Verdict::Next)? {
            return Ok(false);
        }
    }
    Ok(true)
}

fn record(number: u32, outcome: Outcome) -> Record {
    Record {
        frame: frame(number),
        outcome,
    }
}

fn may_be_handed_over<T: Send>(_role: &T) {}

#[test]
fn a_frame_goes_on_to_its_next_function_and_leaves_by_its_port(
    rt: HostRuntime,
) -> Result<(), Fail> {
    let plan = plan(rt.alloc())?;
    let registry = Registry::make(rt.alloc(), &plan)?;
    let (board, mut lead) = Board::make(rt.alloc(), &Layout::of(&plan))?;
    let Desk {
        mut entrance,
        mut first,
        mut sender,
        mut second,
        mut last,
    } = Desk::start(rt.alloc(), &plan, &board, &mut lead)?;
    assert_eq!(rt; sender.pass(&board, &plan, &registry, 0), Pass::Idle);
    let brought = bring(
        rt.alloc(),
        &board,
        &mut entrance,
        &mut first,
        Arrival::new(1, 0, 0),
        Verdict::Next,
    )?;
    assert!(rt; brought);
    if brought {
        assert_eq!(rt; last.pass(&board, &plan, &registry, 1000), Pass::Idle);
        assert_eq!(rt; sender.pass(&board, &plan, &registry, 1000), Pass::Did(1));
        assert_eq!(rt; sender.pass(&board, &plan, &registry, 2000), Pass::Idle);
        assert!(rt; second.handle(&board, Verdict::Out(0)));
        assert_eq!(rt; last.pass(&board, &plan, &registry, 2000), Pass::Did(1));
        assert_eq!(rt; last.pass(&board, &plan, &registry, 3000), Pass::Idle);
    }
    assert_eq!(rt; (sender.role.recorded(), last.role.recorded()), (0, 1));
    may_be_handed_over(&last.role);
    let kept = last.role.end();
    assert_eq!(rt;
        kept.records.as_slice(),
        [record(1, Outcome::Sent(0))].as_slice()
    );
    assert_eq!(rt; kept.posts.len(), 0);
    for sent in kept.sent.as_slice() {
        assert_eq!(rt; (sent.frame, sent.stamp.nanos), (frame(1), 5));
        assert_eq!(rt; sent.packet.bytes(), [1, 2, 3].as_slice());
    }
    assert_eq!(rt; kept.sent.len(), 1);
    Ok(())
}

// Five frames that go nowhere.
fn bring_five(
    alloc: Global,
    board: &Board,
    entrance: &mut Entrance,
    core: &mut Core,
) -> Result<bool, NoMemory>
    requires enters { Enters board.now entrance.old.token entrance.old.part entrance.old.lane }
    requires handles { Handles board.now core.old.token core.old.lane core.old.output }
{
    let out = Verdict::Out(1);
    if !bring(alloc, board, entrance, core, Arrival::new(1, 0, 0), out)? {
        return Ok(false);
    }
    let away = Verdict::ToService(9);
    if !bring(alloc, board, entrance, core, Arrival::new(2, 0, 0), away)? {
        return Ok(false);
    }
    let next = Verdict::Next;
    if !bring(alloc, board, entrance, core, Arrival::new(3, 1, 1), next)? {
        return Ok(false);
    }
    if !bring(alloc, board, entrance, core, Arrival::new(4, 0, 31), next)? {
        return Ok(false);
    }
    let drop = Verdict::Drop;
    bring(alloc, board, entrance, core, Arrival::new(5, 0, 0), drop)
}

#[test]
fn five_frames_end_each_with_its_cause(rt: HostRuntime) -> Result<(), Fail> {
    let plan = plan(rt.alloc())?;
    let registry = Registry::make(rt.alloc(), &plan)?;
    let (board, mut lead) = Board::make(rt.alloc(), &Layout::of(&plan))?;
    let Desk {
        mut entrance,
        mut first,
        mut sender,
        ..
    } = Desk::start(rt.alloc(), &plan, &board, &mut lead)?;
    assert!(rt; bring_five(rt.alloc(), &board, &mut entrance, &mut first)?);
    assert_eq!(rt; sender.pass(&board, &plan, &registry, 0), Pass::Did(5));
    assert_eq!(rt; sender.pass(&board, &plan, &registry, 0), Pass::Idle);
    let kept = sender.role.end();
    let ends = [
        record(1, Outcome::Dropped(FnId(0), Why::NoPort)),
        record(2, Outcome::Dropped(FnId(0), Why::NoService)),
        record(3, Outcome::Dropped(FnId(0), Why::ChainEnd)),
        record(4, Outcome::Dropped(FnId(0), Why::Hops)),
        record(5, Outcome::Dropped(FnId(0), Why::Asked)),
    ];
    assert_eq!(rt; kept.records.as_slice(), ends.as_slice());
    assert_eq!(rt; kept.sent.len(), 0);
    Ok(())
}

// Twice 65 frames, and what the four passes after each 65 answer.
fn two_rounds(
    alloc: Global,
    board: &Board,
    plan: &Plan,
    registry: &Registry,
    entrance: &mut Entrance,
    core: &mut Core,
    sender: &mut Sender,
) -> Result<Option<[[Pass; 4]; 2]>, NoMemory>
    requires enters { Enters board.now entrance.old.token entrance.old.part entrance.old.lane }
    requires handles { Handles board.now core.old.token core.old.lane core.old.output }
    requires sends { IsTxRole board.now plan.now sender.old.token sender.old.role }
    requires registry { registry.now ≡ plan.now }
    ensures sends { IfOk result (λ _. IsTxRole board.now plan.now sender.new.token sender.new.role) }
{
    if !fill(alloc, board, entrance, core, 1, 66)? {
        return Ok(None);
    }
    let first = sender.four_passes(board, plan, registry);
    if !fill(alloc, board, entrance, core, 66, 131)? {
        return Ok(None);
    }
    let second = sender.four_passes(board, plan, registry);
    Ok(Some([first, second]))
}

#[test]
fn a_full_lane_turns_frames_back_and_is_throttled_at_its_age(rt: HostRuntime) -> Result<(), Fail> {
    let plan = plan(rt.alloc())?;
    let registry = Registry::make(rt.alloc(), &plan)?;
    let (board, mut lead) = Board::make(rt.alloc(), &Layout::of(&plan))?;
    let Desk {
        mut entrance,
        mut first,
        mut sender,
        ..
    } = Desk::start(rt.alloc(), &plan, &board, &mut lead)?;
    let moved = two_rounds(
        rt.alloc(),
        &board,
        &plan,
        &registry,
        &mut entrance,
        &mut first,
        &mut sender,
    )?;
    let each = [Pass::Did(32), Pass::Did(32), Pass::Did(1), Pass::Idle];
    assert_eq!(rt; moved, Some([each, each]));
    assert_eq!(rt; sender.pass(&board, &plan, &registry, 99_999), Pass::Idle);
    assert_eq!(rt; sender.pass(&board, &plan, &registry, 100_000), Pass::Idle);
    let kept = sender.role.end();
    let ring = RingId::Lane(FnId(1), 1);
    let full = Outcome::RingFull { ring };
    assert_eq!(rt;
        kept.records.as_slice(),
        [record(129, full), record(130, full)].as_slice()
    );
    let post = Post {
        feeder: 1,
        number: 1,
        moment: 100_000,
        bits: 0b10,
    };
    assert_eq!(rt; kept.posts.as_slice(), [post].as_slice());
    Ok(())
}

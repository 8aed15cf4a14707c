//! A small board whose lane fills and empties: its marks passes, and what the entry check answers.
ghost use Rattle.std.specs.Prelude.{◌≡◌, ◌<◌, [], true, IfOk};
ghost use Rattle.onvm_core.specs.Layouts.{IsLayout, IsLayoutOf};
ghost use Rattle.onvm_board.specs.Tokens.{first_token};
ghost use Rattle.desc_ring.specs.Ends.{IsHeadOf};
ghost use Rattle.entry_throttle.specs.Examples.{Feeds, IsSmall, IsSmallPlan};
ghost use Rattle.entry_throttle.specs.Feeders.{IsFeederOf};

mod frames;
mod plans;

use crate::{Admit, Feeder, admit, marks_pass};
use desc_ring::{Head, Tail};
use frames::{enter, leave};
use onvm_base::{FnId, FrameId, NoMemory, Plan, PortId, Post, Posts, RingId};
use onvm_board::{Board, Token};
use onvm_core::Layout;
use plans::plan;
use std::alloc::Global;

// What was seen while the lane filled and emptied.
#[derive(Drop)]
struct Seen {
    // Of a frame whose chain has the function, while the mark is raised.
    held: Admit,
    // Of one whose chain has it not.
    other: Admit,
    // Of one whose chain has it, after the mark was cleared.
    freed: Admit,
    posts: Posts,
}

// Frames 0 to 3 enter at moments 1000 to 4000.
fn fill(
    alloc: Global,
    board: &Board,
    token: &mut Token,
    feeder: &mut Feeder,
    tail: &mut Tail,
) -> Result<bool, NoMemory>
    requires layout { IsSmall board.now.layout }
    requires feeds { Feeds board.now feeder.old tail.old token.old }
    ensures feeds { IfOk result (λ filled. filled ≡ true → Feeds board.now feeder.new tail.new token.new) }
{
    for number in 0..4 {
        let now = 1000 * (u64::from(number) + 1);
        if !enter(alloc, board, token, feeder, tail, number, now)? {
            return Ok(false);
        }
    }
    Ok(true)
}

// A marks pass, with room for its post.
fn pass(
    feeder: &mut Feeder,
    board: &Board,
    token: &mut Token,
    tail: &Tail,
    now: u64,
) -> Result<(), NoMemory>
    requires feeds { Feeds board.now feeder.old tail.now token.old }
    ensures feeds { IfOk result (λ _. Feeds board.now feeder.new tail.now token.new) }
{
    feeder.reserve()?;
    marks_pass(feeder, board, token, now);
    Ok(())
}

// What the entry check answers frame 5, whose chain has the functions of the mask.
fn ask(board: &Board, token: &mut Token, feeder: &Feeder, tail: &Tail, mask: u32) -> Admit
    requires layout { IsSmall board.now.layout }
    requires feeds { Feeds board.now feeder.now tail.now token.old }
    ensures feeds { Feeds board.now feeder.now tail.now token.new }
{
    let frame = FrameId {
        port: PortId(0),
        number: 5,
    };
    admit(board, token, frame, mask, 2)
}

// The core takes three frames off the lane.
fn drain(board: &Board, token: &mut Token, head: &mut Head) -> bool
    requires head { IsHeadOf board.now head.old token.old }
    requires empty_handed { token.old.hand ≡ [] }
{
    for _ in 0..3 {
        if !leave(board, token, head) {
            return false;
        }
    }
    true
}

// The lane fills at the age and one nanosecond before it, and then empties below the low mark.
fn story(
    alloc: Global,
    board: &Board,
    mut token: Token,
    mut feeder: Feeder,
    mut tail: Tail,
    mut core: Token,
    mut head: Head,
) -> Result<Option<Seen>, NoMemory>
    requires layout { IsSmall board.now.layout }
    requires feeds { Feeds board.now feeder tail token }
    requires head { IsHeadOf board.now head core }
    requires empty_handed { core.hand ≡ [] }
{
    if !fill(alloc, board, &mut token, &mut feeder, &mut tail)? {
        return Ok(None);
    }
    pass(&mut feeder, board, &mut token, &tail, 3999)?;
    pass(&mut feeder, board, &mut token, &tail, 4000)?;
    let held = ask(board, &mut token, &feeder, &tail, 1);
    let other = ask(board, &mut token, &feeder, &tail, 2);
    if !drain(board, &mut core, &mut head) {
        return Ok(None);
    }
    pass(&mut feeder, board, &mut token, &tail, 5000)?;
    pass(&mut feeder, board, &mut token, &tail, 6000)?;
    let freed = ask(board, &mut token, &feeder, &tail, 1);
    Ok(Some(Seen {
        held,
        other,
        freed,
        posts: feeder.end(),
    }))
}

fn run(
    alloc: Global,
    plan: &Plan,
    board: &Board,
    first: &mut Token,
) -> Result<Option<Seen>, NoMemory>
    requires plan { IsSmallPlan plan.now }
    requires layout { IsLayoutOf plan.now board.now.layout }
    requires ranges { IsLayout board.now.layout }
    requires first { first.old ≡ first_token board.now }
{
    let receive = board.split(first, 0);
    let core = board.split(first, 2);
    let feeder = Feeder::make(alloc, plan, 0)?;
    let lane = RingId::Lane(FnId(0), 0);
    let tail = Tail::at(board, lane, 8);
    let head = Head::at(board, lane, 8);
    story(alloc, board, receive, feeder, tail, core, head)
}

#[test]
fn a_lane_at_its_high_mark_throttles_at_the_age_and_clears_below_its_low_mark(rt: HostRuntime) {
    let plan = plan(rt.alloc()).expect(&rt, "memory");
    let layout = Layout::of(&plan);
    let (board, mut first) = Board::make(rt.alloc(), &layout).expect(&rt, "memory");
    match run(rt.alloc(), &plan, &board, &mut first).expect(&rt, "memory") {
        Some(seen) => {
            let raised = Post {
                feeder: 0,
                number: 1,
                moment: 4000,
                bits: 1,
            };
            let cleared = Post {
                feeder: 0,
                number: 2,
                moment: 5000,
                bits: 0,
            };
            let hold = Admit::Hold {
                feeder: 0,
                post: 1,
                function: FnId(0),
            };
            assert_eq!(rt; seen.posts.as_slice(), [raised, cleared].as_slice());
            assert_eq!(rt; seen.held, hold);
            assert_eq!(rt; seen.other, Admit::Go);
            assert_eq!(rt; seen.freed, Admit::Go);
        }
        None => assert!(rt; false),
    }
}

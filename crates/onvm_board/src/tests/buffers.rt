//! Buffers with their parcels, on one thread and on two.
ghost use Rattle.std.specs.Prelude.{◌≡◌, ◌<◌, []};
ghost use Rattle.onvm_base.specs.declared.ids.RingId.TheVariants.{Lane};
ghost use Rattle.onvm_board.specs.Tokens.{IsHead, IsTail};

use crate::board::Board;
use crate::spot::Spot;
use crate::tests::frames::{enter, handle, leave};
use crate::tests::layouts::small;
use crate::token::Token;
use onvm_base::{FnId, RingId, Verdict};
use onvm_core::Crumb;
use std::alloc::Global;
use std::sync::Wait;
use std::thread;
use std::thread::Threads;

#[test]
fn a_buffer_goes_take_push_pop_push_pop_give_with_its_parcel(rt: HostRuntime) {
    let (board, mut first) = Board::make(rt.alloc(), &small()).expect(&rt, "memory");
    let mut lane = board.start(RingId::Lane(FnId(0), 0));
    let from = lane;
    let mut output = board.start(RingId::Output(FnId(0)));
    let onto = output;
    let crumb = Crumb {
        place: 5,
        function: FnId(0),
        verdict: Verdict::Next,
    };
    let mut receive = board.split(&mut first, 0);
    let mut transmit = board.split(&mut first, 1);
    let mut core = board.split(&mut first, 2);
    let entered = enter(rt.alloc(), &board, &mut receive, &mut lane, 1).expect(&rt, "memory");
    assert!(rt; entered);
    assert!(rt; handle(&board, &mut core, from, onto, crumb));
    match leave(&board, &mut transmit, &mut output, 8) {
        Some(parcel) => {
            assert_eq!(rt; parcel.packet.bytes(), [1, 8, 9].as_slice());
            assert_eq!(rt; parcel.trail.len(), 1);
        }
        None => assert!(rt; false),
    }
    board.join(&mut first, receive);
    board.join(&mut first, transmit);
    board.join(&mut first, core);
    assert_eq!(rt; board.close(first).left(), 0);
}

#[test]
fn a_buffer_on_a_lane_is_left(rt: HostRuntime) {
    let (board, mut first) = Board::make(rt.alloc(), &small()).expect(&rt, "memory");
    let mut lane = board.start(RingId::Lane(FnId(0), 0));
    let mut receive = board.split(&mut first, 0);
    let entered = enter(rt.alloc(), &board, &mut receive, &mut lane, 3).expect(&rt, "memory");
    assert!(rt; entered);
    board.join(&mut first, receive);
    assert_eq!(rt; board.close(first).left(), 1);
}

/// An end of the lane, with the token whose end it is and the number of the frame that is next there.
#[derive(Drop)]
struct End {
    token: Token,
    spot: Spot,
    next: u8,
}

// Tries so often to let the next frame enter, up to 100.
fn feed(alloc: Global, board: &Board, end: End, tries: u32) -> End
    requires layout { (board.now.layout.ports ≡ 1) × (board.now.layout.buffers ≡ 4) × (board.now.layout.ring ≡ 8) }
    requires tail { IsTail board.now end.spot end.token }
    requires ring { end.spot.ring ≡ Lane (record { 0 = 0 }) 0 }
    requires role { end.token.role ≡ 0 }
    requires next { end.next < 102 }
    requires empty_handed { end.token.hand ≡ [] }
    ensures tail { IsTail board.now result.spot result.token }
    ensures ring { result.spot.ring ≡ end.spot.ring }
    ensures role { result.token.role ≡ 0 }
    ensures next { result.next < 102 }
    ensures empty_handed { result.token.hand ≡ [] }
{
    let End {
        mut token,
        mut spot,
        mut next,
    } = end;
    for _ in 0..tries {
        if next <= 100 {
            if let Ok(true) = enter(alloc, board, &mut token, &mut spot, next) {
                next += 1;
            }
        }
    }
    End { token, spot, next }
}

// Tries so often to let a frame leave, and counts on while each is the next one, whole.
fn drain(board: &Board, end: End, tries: u32) -> End
    requires layout { (board.now.layout.ports ≡ 1) × (board.now.layout.buffers ≡ 4) × (board.now.layout.ring ≡ 8) }
    requires head { IsHead board.now end.spot end.token }
    requires ring { end.spot.ring ≡ Lane (record { 0 = 0 }) 0 }
    requires empty_handed { end.token.hand ≡ [] }
    ensures head { IsHead board.now result.spot result.token }
    ensures ring { result.spot.ring ≡ end.spot.ring }
    ensures role { result.token.role ≡ end.token.role }
    ensures empty_handed { result.token.hand ≡ [] }
{
    let End {
        mut token,
        mut spot,
        mut next,
    } = end;
    for _ in 0..tries {
        if let Some(parcel) = leave(board, &mut token, &mut spot, 8) {
            if parcel.frame.number == u32::from(next)
                && parcel.packet.bytes() == [next, 8, 9].as_slice()
            {
                next = next.saturating_add(1);
            }
        }
    }
    End { token, spot, next }
}

fn both<R: Threads + Wait + Sync>(
    rt: &R,
    alloc: Global,
    board: &Board,
    tail: End,
    head: End,
) -> (End, End)
    requires layout { (board.now.layout.ports ≡ 1) × (board.now.layout.buffers ≡ 4) × (board.now.layout.ring ≡ 8) }
    requires tail { IsTail board.now tail.spot tail.token }
    requires head { IsHead board.now head.spot head.token }
    requires tail_ring { tail.spot.ring ≡ Lane (record { 0 = 0 }) 0 }
    requires head_ring { head.spot.ring ≡ Lane (record { 0 = 0 }) 0 }
    requires role { tail.token.role ≡ 0 }
    requires next { tail.next < 102 }
    requires empty_handed { (tail.token.hand ≡ []) × (head.token.hand ≡ []) }
    ensures tail { IsTail board.now result.0.spot result.0.token }
    ensures head { IsHead board.now result.1.spot result.1.token }
    ensures tail_ring { result.0.spot.ring ≡ Lane (record { 0 = 0 }) 0 }
    ensures head_ring { result.1.spot.ring ≡ Lane (record { 0 = 0 }) 0 }
    ensures role { result.0.token.role ≡ 0 }
    ensures head_role { result.1.token.role ≡ head.token.role }
    ensures next { result.0.next < 102 }
    ensures empty_handed { (result.0.token.hand ≡ []) × (result.1.token.hand ≡ []) }
{
    thread::join(
        rt,
        move ||
            requires { (board.now.layout.ports ≡ 1) × (board.now.layout.buffers ≡ 4) × (board.now.layout.ring ≡ 8) × IsTail board.now tail.spot tail.token
                × (tail.spot.ring ≡ Lane (record { 0 = 0 }) 0) × (tail.token.role ≡ 0)
                × (tail.next < 102) × (tail.token.hand ≡ []) }
            ensures tail { IsTail board.entry.now result.spot result.token }
            ensures ring { result.spot.ring ≡ Lane (record { 0 = 0 }) 0 }
            ensures role { result.token.role ≡ 0 }
            ensures next { result.next < 102 }
            ensures empty_handed { result.token.hand ≡ [] }
        { feed(alloc, board, tail, 1000) },
        move ||
            requires { (board.now.layout.ports ≡ 1) × (board.now.layout.buffers ≡ 4) × (board.now.layout.ring ≡ 8) × IsHead board.now head.spot head.token
                × (head.spot.ring ≡ Lane (record { 0 = 0 }) 0) × (head.token.hand ≡ []) }
            ensures head { IsHead board.entry.now result.spot result.token }
            ensures ring { result.spot.ring ≡ Lane (record { 0 = 0 }) 0 }
            ensures role { result.token.role ≡ head.token.role }
            ensures empty_handed { result.token.hand ≡ [] }
        { drain(board, head, 1000) },
    )
}

// Four frames at a time enter and leave, so often.
fn finish(alloc: Global, board: &Board, tail: End, head: End, rounds: u32) -> (End, End)
    requires layout { (board.now.layout.ports ≡ 1) × (board.now.layout.buffers ≡ 4) × (board.now.layout.ring ≡ 8) }
    requires tail { IsTail board.now tail.spot tail.token }
    requires head { IsHead board.now head.spot head.token }
    requires tail_ring { tail.spot.ring ≡ Lane (record { 0 = 0 }) 0 }
    requires head_ring { head.spot.ring ≡ Lane (record { 0 = 0 }) 0 }
    requires role { tail.token.role ≡ 0 }
    requires next { tail.next < 102 }
    requires empty_handed { (tail.token.hand ≡ []) × (head.token.hand ≡ []) }
    ensures tail { (result.0.token.board ≡ board.now.id) × (result.0.token.role ≡ 0) }
    ensures head { (result.1.token.board ≡ board.now.id) × (result.1.token.role ≡
        head.token.role) }
    ensures empty_handed { (result.0.token.hand ≡ []) × (result.1.token.hand ≡ []) }
{
    let mut tail = tail;
    let mut head = head;
    for _ in 0..rounds {
        head = drain(board, head, 4);
        tail = feed(alloc, board, tail, 4);
    }
    (tail, head)
}

// What leaves while the threads run is a front of what enters: the rest moves here, so that all 100
// frames come in order, each once, whatever the schedule was.
#[test]
fn two_threads_hand_100_frames_over_a_lane_and_the_buffers_back_by_the_pool(rt: HostRuntime) {
    let (board, mut first) = Board::make(rt.alloc(), &small()).expect(&rt, "memory");
    let spot = board.start(RingId::Lane(FnId(0), 0));
    let tail = End {
        token: board.split(&mut first, 0),
        spot,
        next: 1,
    };
    let head = End {
        token: board.split(&mut first, 2),
        spot,
        next: 1,
    };
    let (tail, head) = both(&rt, rt.alloc(), &board, tail, head);
    assert!(rt; head.next <= tail.next);
    let (tail, head) = finish(rt.alloc(), &board, tail, head, 27);
    assert_eq!(rt; (tail.next, head.next), (101, 101));
    board.join(&mut first, tail.token);
    board.join(&mut first, head.token);
    assert_eq!(rt; board.close(first).left(), 0);
}

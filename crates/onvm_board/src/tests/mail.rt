//! The two ends of a mail ring, on one thread and on two.
ghost use Rattle.std.specs.Prelude.{◌≡◌, ◌<◌, []};
ghost use Rattle.onvm_board.specs.Tokens.{IsHead, IsMailRing, IsTail};

use crate::board::Board;
use crate::spot::Spot;
use crate::tests::layouts::small;
use crate::token::Token;
use onvm_base::{FnId, MAIL_RING, RingId};
use std::sync::Wait;
use std::thread;
use std::thread::Threads;

/// An end of the mail ring, with the token whose end it is and the number that is next there.
#[derive(Drop)]
struct End {
    token: Token,
    spot: Spot,
    next: u64,
}

// Tries so often to push the next number, up to 100.
fn post(board: &Board, end: End, tries: u32) -> End
    requires tail { IsTail board.now end.spot end.token }
    requires mail { IsMailRing end.spot.ring }
    requires next { (0 < end.next) × (end.next < 102) }
    requires empty_handed { end.token.hand ≡ [] }
    ensures tail { IsTail board.now result.spot result.token }
    ensures mail { IsMailRing result.spot.ring }
    ensures next { (0 < result.next) × (result.next < 102) }
    ensures role { result.token.role ≡ end.token.role }
    ensures empty_handed { result.token.hand ≡ [] }
{
    let End {
        mut token,
        mut spot,
        mut next,
    } = end;
    for _ in 0..tries {
        if next <= 100 && board.mail(&mut token, spot, next).is_ok() {
            spot = spot.next(MAIL_RING);
            next += 1;
        }
    }
    End { token, spot, next }
}

// Tries so often to pop, and counts on while each number is the next one.
fn fetch(board: &Board, end: End, tries: u32) -> End
    requires head { IsHead board.now end.spot end.token }
    requires mail { IsMailRing end.spot.ring }
    requires empty_handed { end.token.hand ≡ [] }
    ensures head { IsHead board.now result.spot result.token }
    ensures mail { IsMailRing result.spot.ring }
    ensures role { result.token.role ≡ end.token.role }
    ensures empty_handed { result.token.hand ≡ [] }
{
    let End {
        mut token,
        mut spot,
        mut next,
    } = end;
    for _ in 0..tries {
        if let Some(value) = board.unmail(&mut token, spot) {
            spot = spot.next(MAIL_RING);
            if value == next {
                next = next.saturating_add(1);
            }
        }
    }
    End { token, spot, next }
}

#[test]
fn a_mail_ring_refuses_the_65th_number_and_gives_64_in_order(rt: HostRuntime) {
    let (board, mut first) = Board::make(rt.alloc(), &small()).expect(&rt, "memory");
    let spot = board.start(RingId::Mail(FnId(0)));
    let core = board.split(&mut first, 2);
    let tick = board.split(&mut first, 3);
    let tail = post(
        &board,
        End {
            token: core,
            spot,
            next: 1,
        },
        64,
    );
    assert_eq!(rt; tail.next, 65);
    let tail = post(&board, tail, 1);
    assert_eq!(rt; tail.next, 65);
    let head = fetch(
        &board,
        End {
            token: tick,
            spot,
            next: 1,
        },
        64,
    );
    assert_eq!(rt; head.next, 65);
    let head = fetch(&board, head, 1);
    assert_eq!(rt; head.next, 65);
    board.join(&mut first, tail.token);
    board.join(&mut first, head.token);
    assert_eq!(rt; board.close(first).left(), 0);
}

fn both<R: Threads + Wait + Sync>(rt: &R, board: &Board, tail: End, head: End) -> (End, End)
    requires tail { IsTail board.now tail.spot tail.token }
    requires head { IsHead board.now head.spot head.token }
    requires mail { IsMailRing tail.spot.ring × IsMailRing head.spot.ring }
    requires next { (0 < tail.next) × (tail.next < 102) }
    requires empty_handed { (tail.token.hand ≡ []) × (head.token.hand ≡ []) }
    ensures tail { IsTail board.now result.0.spot result.0.token }
    ensures head { IsHead board.now result.1.spot result.1.token }
    ensures mail { IsMailRing result.0.spot.ring × IsMailRing result.1.spot.ring }
    ensures next { (0 < result.0.next) × (result.0.next < 102) }
    ensures roles { (result.0.token.role ≡ tail.token.role) × (result.1.token.role ≡
        head.token.role) }
    ensures empty_handed { (result.0.token.hand ≡ []) × (result.1.token.hand ≡ []) }
{
    thread::join(
        rt,
        move ||
            requires { IsTail board.now tail.spot tail.token × IsMailRing tail.spot.ring
                × (0 < tail.next) × (tail.next < 102) × (tail.token.hand ≡ []) }
            ensures tail { IsTail board.entry.now result.spot result.token }
            ensures mail { IsMailRing result.spot.ring }
            ensures next { (0 < result.next) × (result.next < 102) }
            ensures role { result.token.role ≡ tail.token.role }
            ensures empty_handed { result.token.hand ≡ [] }
        { post(board, tail, 1000) },
        move ||
            requires { IsHead board.now head.spot head.token × IsMailRing head.spot.ring
                × (head.token.hand ≡ []) }
            ensures head { IsHead board.entry.now result.spot result.token }
            ensures mail { IsMailRing result.spot.ring }
            ensures role { result.token.role ≡ head.token.role }
            ensures empty_handed { result.token.hand ≡ [] }
        { fetch(board, head, 1000) },
    )
}

// What the threads pop is a front of what they push: the rest is moved here, so that all 100 numbers
// come in order whatever the schedule was.
#[test]
fn two_threads_on_the_ends_of_a_mail_ring_move_100_numbers_in_order(rt: HostRuntime) {
    let (board, mut first) = Board::make(rt.alloc(), &small()).expect(&rt, "memory");
    let spot = board.start(RingId::Mail(FnId(0)));
    let core = board.split(&mut first, 2);
    let tick = board.split(&mut first, 3);
    let tail = End {
        token: core,
        spot,
        next: 1,
    };
    let head = End {
        token: tick,
        spot,
        next: 1,
    };
    let (tail, head) = both(&rt, &board, tail, head);
    assert!(rt; head.next <= tail.next);
    let head = fetch(&board, head, 64);
    let tail = post(&board, tail, 64);
    let head = fetch(&board, head, 64);
    let tail = post(&board, tail, 64);
    let head = fetch(&board, head, 64);
    assert_eq!(rt; (tail.next, head.next), (101, 101));
    board.join(&mut first, tail.token);
    board.join(&mut first, head.token);
    assert_eq!(rt; board.close(first).left(), 0);
}

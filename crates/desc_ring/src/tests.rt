//! Ends over a small board. Full and empty lanes are tested in `mbuf_pool`, which has buffers.
ghost use Rattle.std.specs.Prelude.{◌≡◌, ◌<◌, ◌≤◌, replicate};
ghost use Rattle.onvm_core.specs.Layouts.{IsLayout};
ghost use Rattle.onvm_core.specs.Logs.{push_count};
ghost use Rattle.desc_ring.specs.Ends.{IsMailHead, IsMailTail, IsTailOf};

use crate::arrays::{lane_heads, lane_tails, mail_ends, output_heads, output_tails};
use crate::mail::Mail;
use crate::tail::Tail;
use onvm_base::{FnId, RingId};
use onvm_board::{Board, Token};
use onvm_core::Layout;

// Two functions on one core, two ports and one transmit role, so three feeders.
fn small() -> Layout
    ensures ranges { IsLayout result }
    ensures is { result ≡ record {
      ports = 2;
      transmit = 1;
      cores = 1;
      functions = 2;
      buffers = 1;
      ring = 8;
      output = 16;
      core_of = replicate 32 0;
    } }
{
    Layout {
        ports: 2,
        transmit: 1,
        cores: 1,
        functions: 2,
        buffers: 1,
        ring: 8,
        output: 16,
        core_of: [0; 32],
    }
}

// How many of the samples 1 to 65 a ring takes.
fn post_all(board: &Board, token: &mut Token, mail: &mut Mail) -> u64
    requires mail { IsMailTail board.now mail.old token.old }
{
    let mut posted = 0;
    for value in 1..66 {
        if mail.post_sample(board, token, value).is_ok() {
            posted += 1;
        }
    }
    posted
}

// How many of the samples 1 to 65 a ring gives in order.
fn take_all(board: &Board, token: &mut Token, mail: &mut Mail) -> u64
    requires mail { IsMailHead board.now mail.old token.old }
{
    let mut taken = 0;
    for value in 1..66 {
        if mail.take_sample(board, token) == Some(value) {
            taken += 1;
        }
    }
    taken
}

#[test]
fn a_mail_ring_takes_64_samples_and_gives_them_in_order(rt: HostRuntime) {
    let (board, mut first) = Board::make(rt.alloc(), &small()).expect(&rt, "memory");
    let mut core = board.split(&mut first, 3);
    let mut tick = board.split(&mut first, 4);
    let ring = RingId::Mail(FnId(1));
    let mut tail = Mail::at(&board, ring);
    let mut head = Mail::at(&board, ring);
    assert_eq!(rt; head.take_sample(&board, &mut tick), None);
    assert_eq!(rt; post_all(&board, &mut core, &mut tail), 64);
    assert_eq!(rt; take_all(&board, &mut tick, &mut head), 64);
}

// Asks for more than was pushed. The token stays as it was.
fn ask_for_more(board: &Board, token: &mut Token, tail: &Tail, k: u16) -> bool
    requires tail { IsTailOf board.now tail.now token.old }
    requires more { push_count tail.now.spot.ring token.old.log < k }
    requires most { k ≤ tail.now.size }
    ensures same { token.new ≡ token.old }
{
    tail.at_least(board, token, k)
}

#[test]
fn a_lane_on_which_nothing_was_pushed_holds_none_and_no_step_tells_so(rt: HostRuntime) {
    let (board, mut first) = Board::make(rt.alloc(), &small()).expect(&rt, "memory");
    let mut receive = board.split(&mut first, 1);
    let tail = Tail::at(&board, RingId::Lane(FnId(1), 1), 8);
    assert!(rt; !ask_for_more(&board, &mut receive, &tail, 1));
    assert!(rt; !ask_for_more(&board, &mut receive, &tail, 8));
    assert!(rt; tail.room(&board, &mut receive).is_ok());
}

#[test]
fn arrays_have_the_ends_of_each_function_or_feeder(rt: HostRuntime) {
    let layout = small();
    let (board, first) = Board::make(rt.alloc(), &layout).expect(&rt, "memory");
    let lanes = lane_tails(rt.alloc(), &board, &layout, 2).expect(&rt, "memory");
    let heads = lane_heads(rt.alloc(), &board, &layout, FnId(1)).expect(&rt, "memory");
    let outputs = output_tails(rt.alloc(), &board, &layout).expect(&rt, "memory");
    let reads = output_heads(rt.alloc(), &board, &layout).expect(&rt, "memory");
    let mails = mail_ends(rt.alloc(), &board, &layout).expect(&rt, "memory");
    assert_eq!(rt;
        (
            lanes.len(),
            heads.len(),
            outputs.len(),
            reads.len(),
            mails.len()
        ),
        (2, 3, 2, 2, 2)
    );
    assert_eq!(rt; lanes[1].spot().ring, RingId::Lane(FnId(1), 2));
    assert_eq!(rt; heads[2].spot().ring, RingId::Lane(FnId(1), 2));
    assert_eq!(rt; outputs[1].spot().ring, RingId::Output(FnId(1)));
    assert_eq!(rt; reads[1].spot().ring, RingId::Output(FnId(1)));
    assert_eq!(rt; mails[1].spot().ring, RingId::Mail(FnId(1)));
    assert_eq!(rt;
        (lanes[0].size, heads[0].size, outputs[0].size, reads[0].size),
        (8, 8, 16, 16)
    );
    drop(first);
}

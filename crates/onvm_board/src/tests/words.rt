//! Looks, posts and judged looks.
use crate::ask::Ask;
use crate::board::Board;
use crate::tests::layouts::small;
use onvm_base::{FnId, FrameId, PortId};
use onvm_core::Word;

#[test]
fn a_look_shows_the_four_buffers_the_last_post_and_the_last_weight(rt: HostRuntime) {
    let (board, mut first) = Board::make(rt.alloc(), &small()).expect(&rt, "memory");
    let word = Word::Pool {
        port: PortId(0),
        index: 0,
    };
    assert_eq!(rt; board.look(&mut first, word), 0b1111);
    let mut receive = board.split(&mut first, 0);
    let mut tick = board.split(&mut first, 3);
    assert_eq!(rt; board.look(&mut first, Word::Post(0)), 0);
    board.post(&mut receive, Word::Post(0), 0x1_0000_0001);
    board.post(&mut receive, Word::Post(0), 0x2_0000_0000);
    assert_eq!(rt; board.look(&mut tick, Word::Post(0)), 0x2_0000_0000);
    board.post(&mut tick, Word::Weight(FnId(0)), 77);
    assert_eq!(rt; board.look(&mut receive, Word::Weight(FnId(0))), 77);
    board.join(&mut first, receive);
    board.join(&mut first, tick);
    assert_eq!(rt; board.close(first).left(), 0);
}

#[test]
fn a_judged_look_shows_the_word_too(rt: HostRuntime) {
    let (board, mut first) = Board::make(rt.alloc(), &small()).expect(&rt, "memory");
    let mut receive = board.split(&mut first, 0);
    let frame = FrameId {
        port: PortId(0),
        number: 1,
    };
    board.post(&mut receive, Word::Post(0), 0x1_0000_0001);
    let ask = Ask::Hold { feeder: 0, mask: 1 };
    assert_eq!(rt;
        board.judge(&mut receive, Word::Post(0), frame, ask),
        0x1_0000_0001
    );
    let word = Word::Pool {
        port: PortId(0),
        index: 0,
    };
    assert_eq!(rt; board.judge(&mut receive, word, frame, Ask::Last), 0b1111);
}

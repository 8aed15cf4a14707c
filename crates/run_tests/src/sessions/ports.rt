//! Sessions of several ports, and of made frames.

use super::calls::{add, line, none, one, record, run_of, sent};
use super::captures::{FRAME, capture, feed_of};
use super::plans::{FORWARD, FOUR_PORTS, LONG_CHAIN, TWO_PORTS, one_function};
use onvm_base::{Outcome, Record};
use rx_feed::{Feed, Generator};
use std::test::Fail;

// Whether the frames of a port, from 1 to a count, were sent in order by port 0, beginning at this
// record.
fn are_sent(records: &[Record], port: u8, frames: u32) -> bool {
    let mut number: u32 = 0;
    for told in records {
        if told.frame.port.0 == port {
            number = number.saturating_add(1);
            if *told != record(port, number, Outcome::Sent(0)) {
                return false;
            }
        }
    }
    number == frames
}

// 3,125 bursts of 32 frames. The end is seen in the round behind them.
#[test]
fn a_hundred_thousand_made_frames_are_sent(rt: HostRuntime) -> Result<(), Fail> {
    let file = one_function(rt.alloc(), "", FORWARD)?;
    let feeds = one(rt.alloc(), Feed::Made(Generator::make(7, 100_000)))?;
    let run = run_of(&rt, rt.alloc(), &file, feeds)?;
    assert_eq!(rt; run.records.len(), 100_000);
    assert!(rt; are_sent(run.records.as_slice(), 0, 100_000));
    assert_eq!(rt; (run.sent.len(), run.samples.len()), (100_000, 3125));
    assert_eq!(rt; (run.counters.yields, run.counters.lost), (0, 0));
    assert_eq!(rt; (run.posts.len(), run.ticks.len()), (0, 1));
    let Some(tick) = run.ticks.get(0) else {
        return Err(Fail::from("no tick was made"));
    };
    assert_eq!(rt;
        (tick.number, tick.moment, tick.taken),
        (1, 3_125_000, 3125)
    );
    let lines = [line(32_768, 3_276_800, 3_276_800, 1024)];
    assert_eq!(rt; tick.lines.as_slice(), lines.as_slice());
    Ok(())
}

// Both ports bring 32 frames a round, and each function handles 32: the first one in rounds 0 to 62,
// each next one a round later.
#[test]
fn two_ports_share_a_long_chain(rt: HostRuntime) -> Result<(), Fail> {
    let mut feeds = none(rt.alloc());
    add(&mut feeds, Feed::Made(Generator::make(1, 1000)))?;
    add(&mut feeds, Feed::Made(Generator::make(2, 1000)))?;
    let run = run_of(&rt, rt.alloc(), LONG_CHAIN, feeds)?;
    assert_eq!(rt; (run.records.len(), run.sent.len()), (2000, 2000));
    assert!(rt; are_sent(run.records.as_slice(), 0, 1000));
    assert!(rt; are_sent(run.records.as_slice(), 1, 1000));
    assert_eq!(rt; (run.posts.len(), run.counters.yields), (0, 0));
    assert_eq!(rt; (run.samples.len(), run.ticks.len()), (252, 1));
    let Some(tick) = run.ticks.get(0) else {
        return Err(Fail::from("no tick was made"));
    };
    assert_eq!(rt; (tick.moment, tick.taken), (65_000, 252));
    let half = line(2000, 200_000, 400_000, 512);
    assert_eq!(rt; tick.lines.as_slice(), [half, half, half, half].as_slice());
    Ok(())
}

// Port 2's frame meets both functions, in rounds 0 and 1.
#[test]
fn four_ports_have_chains_of_their_own(rt: HostRuntime) -> Result<(), Fail> {
    let mut feeds = none(rt.alloc());
    let two = capture(rt.alloc(), &[FRAME, FRAME])?;
    let single = capture(rt.alloc(), &[FRAME])?;
    add(&mut feeds, feed_of(rt.alloc(), &two, &[])?)?;
    add(&mut feeds, Feed::Made(Generator::make(7, 3)))?;
    add(&mut feeds, feed_of(rt.alloc(), &single, &[])?)?;
    add(&mut feeds, feed_of(rt.alloc(), &single, &[])?)?;
    let run = run_of(&rt, rt.alloc(), FOUR_PORTS, feeds)?;
    let records = [
        sent(1),
        sent(2),
        record(1, 1, Outcome::Sent(1)),
        record(1, 2, Outcome::Sent(1)),
        record(1, 3, Outcome::Sent(1)),
        record(2, 1, Outcome::Sent(2)),
        record(3, 1, Outcome::Sent(3)),
    ];
    assert_eq!(rt; run.records.as_slice(), records.as_slice());
    let Some(tick) = run.ticks.get(0) else {
        return Err(Fail::from("no tick was made"));
    };
    assert_eq!(rt; (tick.moment, tick.taken), (1000, 3));
    let lines = [line(3, 300, 300, 1024), line(4, 400, 400, 1024)];
    assert_eq!(rt; tick.lines.as_slice(), lines.as_slice());
    Ok(())
}

#[test]
fn a_port_without_a_feed_receives_nothing(rt: HostRuntime) -> Result<(), Fail> {
    let single = capture(rt.alloc(), &[FRAME])?;
    let feeds = one(rt.alloc(), feed_of(rt.alloc(), &single, &[])?)?;
    let run = run_of(&rt, rt.alloc(), TWO_PORTS, feeds)?;
    assert_eq!(rt; run.records.as_slice(), [sent(1)].as_slice());
    Ok(())
}

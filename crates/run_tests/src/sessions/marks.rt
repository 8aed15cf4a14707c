//! Frames that are held at the entry.
//!
//! The function handles one frame a round, and a burst has eight frames: behind round r its lane has
//! 7 - r of the first burst left.

use super::calls::{F, one, post, record, run_of, run_of_equal, sent};
use super::captures::{FRAME, OTHER, capture, feed_of};
use super::plans::{MARKED, SLOW, two_functions};
use onvm_base::{Outcome, Record};
use std::test::Fail;

// A frame that post 1 of feeder 0 holds, because of function f.
fn held(number: u32) -> Record {
    let outcome = Outcome::Throttled {
        feeder: 0,
        post: 1,
        function: F,
    };
    record(0, number, outcome)
}

#[test]
fn frames_behind_the_high_mark_are_held_until_the_low_mark(rt: HostRuntime) -> Result<(), Fail> {
    let run = run_of_equal(&rt, rt.alloc(), MARKED, SLOW, 12)?;
    let records = [
        sent(1),
        sent(2),
        sent(3),
        sent(4),
        sent(5),
        sent(6),
        sent(7),
        sent(8),
        held(9),
        held(10),
        held(11),
        held(12),
    ];
    assert_eq!(rt; run.records.as_slice(), records.as_slice());
    let posts = [post(1, 1000, 1), post(2, 7000, 0)];
    assert_eq!(rt; run.posts.as_slice(), posts.as_slice());
    assert_eq!(rt; (run.samples.len(), run.ticks.len()), (8, 1));
    Ok(())
}

// The lane is at its high mark until round 4, and its frames came in round 0.
#[test]
fn a_mark_is_raised_once_frames_have_waited(rt: HostRuntime) -> Result<(), Fail> {
    let records = [
        sent(1),
        sent(2),
        sent(3),
        sent(4),
        sent(5),
        sent(6),
        sent(7),
        sent(8),
    ];
    let waits = r#""buffers":64,"ring":8,"high":4,"low":2,"burst":8,"age":4000,"#;
    let run = run_of_equal(&rt, rt.alloc(), waits, SLOW, 8)?;
    assert_eq!(rt; run.records.as_slice(), records.as_slice());
    let posts = [post(1, 4000, 1), post(2, 7000, 0)];
    assert_eq!(rt; run.posts.as_slice(), posts.as_slice());
    let waits_longer = r#""buffers":64,"ring":8,"high":4,"low":2,"burst":8,"age":4001,"#;
    let run = run_of_equal(&rt, rt.alloc(), waits_longer, SLOW, 8)?;
    assert_eq!(rt; run.records.as_slice(), records.as_slice());
    assert_eq!(rt; run.posts.len(), 0);
    Ok(())
}

#[test]
fn frames_of_another_chain_are_not_held(rt: HostRuntime) -> Result<(), Fail> {
    let top = format!(in rt.alloc(); r#""cores":2,{MARKED}"#)?;
    let g = r#""core":1,"kind":"forward","weight":1024"#;
    let file = two_functions(rt.alloc(), &top, SLOW, g)?;
    let mut frames = Vec::new(rt.alloc());
    for _ in 0..12 {
        frames.push(FRAME)?;
    }
    frames.push(OTHER)?;
    frames.push(OTHER)?;
    let feed = feed_of(rt.alloc(), &capture(rt.alloc(), &frames)?, &[])?;
    let run = run_of(&rt, rt.alloc(), &file, one(rt.alloc(), feed)?)?;
    let records = [
        sent(1),
        sent(2),
        sent(3),
        sent(4),
        sent(5),
        sent(6),
        sent(7),
        sent(8),
        held(9),
        held(10),
        held(11),
        held(12),
        sent(13),
        sent(14),
    ];
    assert_eq!(rt; run.records.as_slice(), records.as_slice());
    let posts = [post(1, 1000, 1), post(2, 7000, 0)];
    assert_eq!(rt; run.posts.as_slice(), posts.as_slice());
    Ok(())
}

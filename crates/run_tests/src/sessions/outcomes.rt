//! What becomes of frames.

use super::calls::{F, IDLE, line, one, record, run_of, run_of_equal, run_of_one, sent};
use super::captures::{FRAME, capture, feed_of};
use super::plans::{FORWARD, sixteen_functions};
use load_estimate::Sample;
use onvm_base::{FnId, Outcome, RingId, Stamp, Why};
use onvm_host::Source;
use std::test::Fail;

#[test]
fn one_frame_is_sent_as_it_came_with_a_sample_and_the_closing_tick(
    rt: HostRuntime,
) -> Result<(), Fail> {
    let run = run_of_equal(&rt, rt.alloc(), "", FORWARD, 1)?;
    assert_eq!(rt; run.records.as_slice(), [sent(1)].as_slice());
    assert_eq!(rt; run.sent.len(), 1);
    let Some(frame) = run.sent.get(0) else {
        return Err(Fail::from("no frame was sent"));
    };
    let stamp = Stamp {
        seconds: 1,
        nanos: 2000,
        tail: 0,
    };
    assert_eq!(rt; (frame.frame, frame.stamp), (sent(1).frame, stamp));
    assert_eq!(rt; frame.packet.bytes(), FRAME.as_slice());
    let sample = Sample {
        function: F,
        moment: 0,
        count: 1,
        time: 100,
    };
    assert_eq!(rt; run.samples.as_slice(), [sample].as_slice());
    assert_eq!(rt; run.ticks.len(), 1);
    let Some(tick) = run.ticks.get(0) else {
        return Err(Fail::from("no tick was made"));
    };
    assert_eq!(rt; (tick.number, tick.moment, tick.taken), (1, 0, 1));
    assert_eq!(rt; tick.lines.as_slice(), [line(1, 100, 100, 1024)].as_slice());
    assert_eq!(rt; run.posts.len(), 0);
    assert_eq!(rt; (run.counters.yields, run.counters.lost), (0, 0));
    Ok(())
}

#[test]
fn without_a_frame_nothing_is_shared(rt: HostRuntime) -> Result<(), Fail> {
    let run = run_of_equal(&rt, rt.alloc(), "", FORWARD, 0)?;
    assert_eq!(rt;
        (run.records.len(), run.sent.len(), run.samples.len()),
        (0, 0, 0)
    );
    assert_eq!(rt; run.ticks.len(), 1);
    let Some(tick) = run.ticks.get(0) else {
        return Err(Fail::from("no tick was made"));
    };
    assert_eq!(rt; (tick.number, tick.moment, tick.taken), (1, 0, 0));
    assert_eq!(rt; tick.lines.as_slice(), [IDLE].as_slice());
    Ok(())
}

#[test]
fn a_frame_ends_as_its_function_says(rt: HostRuntime) -> Result<(), Fail> {
    let rows = [
        (FORWARD, Outcome::Sent(0)),
        (r#""kind":"drop""#, Outcome::Dropped(F, Why::Asked)),
        (
            r#""kind":"to","to_service":9"#,
            Outcome::Dropped(F, Why::NoService),
        ),
        (r#""kind":"out","port":9"#, Outcome::Dropped(F, Why::NoPort)),
        (
            r#""kind":"to","to_service":1"#,
            Outcome::Dropped(F, Why::Hops),
        ),
    ];
    for (kind, outcome) in rows {
        let run = run_of_equal(&rt, rt.alloc(), "", kind, 1)?;
        assert_eq!(rt; run.records.as_slice(), [record(0, 1, outcome)].as_slice());
    }
    Ok(())
}

// Its function handles it once a round, in rounds 0 to 31.
#[test]
fn a_frame_that_comes_back_is_handled_32_times(rt: HostRuntime) -> Result<(), Fail> {
    let kind = r#""kind":"to","to_service":1"#;
    let run = run_of_equal(&rt, rt.alloc(), "", kind, 1)?;
    let outcome = Outcome::Dropped(F, Why::Hops);
    assert_eq!(rt; run.records.as_slice(), [record(0, 1, outcome)].as_slice());
    assert_eq!(rt; run.samples.len(), 32);
    let Some(tick) = run.ticks.get(0) else {
        return Err(Fail::from("no tick was made"));
    };
    assert_eq!(rt; (tick.moment, tick.taken), (31_000, 32));
    assert_eq!(rt;
        tick.lines.as_slice(),
        [line(32, 3200, 3200, 1024)].as_slice()
    );
    Ok(())
}

#[test]
fn a_frame_goes_through_sixteen_functions(rt: HostRuntime) -> Result<(), Fail> {
    let last = FnId(15);
    let rows = [
        (16, "", Outcome::Dropped(last, Why::ChainEnd)),
        (15, r#",{"out":0}"#, Outcome::Sent(0)),
    ];
    for (through, end, outcome) in rows {
        let file = sixteen_functions(rt.alloc(), through, end)?;
        let feed = feed_of(rt.alloc(), &capture(rt.alloc(), &[FRAME])?, &[])?;
        let run = run_of(&rt, rt.alloc(), &file, one(rt.alloc(), feed)?)?;
        assert_eq!(rt; run.records.as_slice(), [record(0, 1, outcome)].as_slice());
        assert_eq!(rt; run.samples.len(), usize::from(through));
    }
    Ok(())
}

#[test]
fn frames_that_a_lane_has_no_room_for_end_there(rt: HostRuntime) -> Result<(), Fail> {
    let top = r#""ring":2,"burst":4,"#;
    let run = run_of_equal(&rt, rt.alloc(), top, FORWARD, 4)?;
    let full = Outcome::RingFull {
        ring: RingId::Lane(F, 0),
    };
    let records = [sent(1), sent(2), record(0, 3, full), record(0, 4, full)];
    assert_eq!(rt; run.records.as_slice(), records.as_slice());
    assert_eq!(rt; (run.counters.yields, run.posts.len()), (1, 0));
    Ok(())
}

// The third frame comes a round later, and takes the buffer of the first one.
#[test]
fn a_frame_that_finds_no_buffer_ends_there(rt: HostRuntime) -> Result<(), Fail> {
    let top = r#""buffers":1,"burst":2,"#;
    let run = run_of_equal(&rt, rt.alloc(), top, FORWARD, 3)?;
    let records = [sent(1), record(0, 2, Outcome::PoolEmpty), sent(3)];
    assert_eq!(rt; run.records.as_slice(), records.as_slice());
    assert_eq!(rt; run.counters.yields, 0);
    Ok(())
}

// Two frames leave in each of rounds 0, 1 and 2.
#[test]
fn a_full_output_ring_delays_frames_and_loses_none(rt: HostRuntime) -> Result<(), Fail> {
    let top = r#""ring":8,"output":2,"burst":8,"#;
    let run = run_of_equal(&rt, rt.alloc(), top, FORWARD, 6)?;
    let records = [sent(1), sent(2), sent(3), sent(4), sent(5), sent(6)];
    assert_eq!(rt; run.records.as_slice(), records.as_slice());
    assert_eq!(rt; (run.counters.yields, run.posts.len()), (3, 0));
    assert_eq!(rt; run.samples.len(), 3);
    Ok(())
}

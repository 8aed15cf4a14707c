//! Ticks, and the shares that cores are divided by.

use super::calls::{F, G, IDLE, line, one, run_of};
use super::captures::{FRAME, OTHER, capture, feed_of};
use super::plans::{FORWARD, two_functions};
use load_estimate::{Sample, TickLine};
use onvm_base::FnId;
use std::test::Fail;

// Four frames in one round.
fn four(function: FnId, moment: u64) -> Sample {
    Sample {
        function,
        moment,
        count: 4,
        time: 100,
    }
}

// Rounds 0 and 1 bring four frames to each function. Round 2 brings eight to f, whose weight is 512 by
// then: it handles four of them, and the other four in round 3.
#[test]
fn weights_follow_priorities_and_loads_tick_by_tick(rt: HostRuntime) -> Result<(), Fail> {
    let top = r#""burst":8,"tick":1000,"#;
    let g = r#""core":0,"kind":"forward","priority":3"#;
    let file = two_functions(rt.alloc(), top, FORWARD, g)?;
    let mut frames = Vec::new(rt.alloc());
    for _ in 0..8 {
        frames.push(FRAME)?;
        frames.push(OTHER)?;
    }
    for _ in 0..8 {
        frames.push(FRAME)?;
    }
    let feed = feed_of(rt.alloc(), &capture(rt.alloc(), &frames)?, &[])?;
    let run = run_of(&rt, rt.alloc(), &file, one(rt.alloc(), feed)?)?;
    assert_eq!(rt; run.sent.len(), 24);
    let samples = [
        four(F, 0),
        four(G, 0),
        four(F, 1000),
        four(G, 1000),
        four(F, 2000),
        four(F, 3000),
    ];
    assert_eq!(rt; run.samples.as_slice(), samples.as_slice());
    let ticks: [(u32, u64, u64, [TickLine; 2]); 4] = [
        (
            1,
            1000,
            4,
            [line(8, 800, 1600, 512), line(8, 2400, 1600, 1536)],
        ),
        (
            2,
            2000,
            5,
            [line(12, 1200, 2000, 614), line(8, 2400, 2000, 1228)],
        ),
        (
            3,
            3000,
            6,
            [line(16, 1600, 2400, 682), line(8, 2400, 2400, 1024)],
        ),
        (
            4,
            3000,
            6,
            [line(16, 1600, 2400, 682), line(8, 2400, 2400, 1024)],
        ),
    ];
    assert_eq!(rt; run.ticks.len(), ticks.len());
    for (tick, (number, moment, taken, lines)) in run.ticks.as_slice().iter().zip(&ticks) {
        assert_eq!(rt;
            (tick.number, tick.moment, tick.taken),
            (*number, *moment, *taken)
        );
        assert_eq!(rt; tick.lines.as_slice(), lines.as_slice());
    }
    Ok(())
}

#[test]
fn a_function_that_does_nothing_keeps_its_weight(rt: HostRuntime) -> Result<(), Fail> {
    let g = r#""core":1,"kind":"forward""#;
    let file = two_functions(rt.alloc(), r#""cores":2,"#, FORWARD, g)?;
    let feed = feed_of(rt.alloc(), &capture(rt.alloc(), &[FRAME])?, &[])?;
    let run = run_of(&rt, rt.alloc(), &file, one(rt.alloc(), feed)?)?;
    assert_eq!(rt; run.ticks.len(), 1);
    let Some(tick) = run.ticks.get(0) else {
        return Err(Fail::from("no tick was made"));
    };
    let lines = [line(1, 100, 100, 1024), IDLE];
    assert_eq!(rt; tick.lines.as_slice(), lines.as_slice());
    Ok(())
}

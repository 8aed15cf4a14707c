//! Files that give and take a byte at a time, and sources that give frames and then fail.

use super::expected::all_sent;
use super::frames::{CAPTURE, EMITTED, altered, two_frames};
use super::hosts::{Given, Left, done, expect, refused, sound};
use super::texts::FORWARDING;
use onvm_base::Status;
use std::process::Abort;
use std::sync::Wait;
use std::test::Fail;
use std::thread::Threads;
use std::time;

const SERIAL: [&str; 4] = ["--serial", "c", "o", "k"];

const BESIDE: [&str; 3] = ["c", "o", "k"];

// A file that moves a byte at a time, and of which the call of this number fails, 0 for none.
fn slow<'a>(name: &'a str, bytes: &'a [u8], fail: &'a [u64]) -> Given<'a> {
    Given {
        fail,
        piece: 1,
        ..sound(name, bytes)
    }
}

// A run over files that move a byte at a time. Of these numbers are the take of the chain file, that of
// the capture, and the put that fail, 0 for none. There was an output before it, of no byte.
fn replay<R: AllocGlobal + Threads + Wait + time::Clock + Sync + Abort>(
    rt: &R,
    words: &[&str],
    fails: [u64; 3],
    expected: Left<'_>,
) -> Result<(), Fail> {
    let [chain, capture, put] = fails;
    let (chain, capture, put) = ([chain], [capture], [put]);
    let files = [
        slow("c", FORWARDING.as_bytes(), &chain),
        slow("k", &CAPTURE, &capture),
        slow("o", &[], &put),
    ];
    let shown = format!(in rt.alloc(); "{words:?} {fails:?}")?;
    expect(rt, &files, words, expected, &shown)
}

// Where no output was made, the one before it is still there.
fn before(status: Status, said: &str) -> Left<'_> {
    Left {
        output: Some(&[]),
        ..refused(status, said)
    }
}

#[test]
fn a_run_is_the_same_a_byte_at_a_time(rt: HostRuntime) -> Result<(), Fail> {
    let said = all_sent(rt.alloc(), 1, "")?;
    for words in [SERIAL.as_slice(), &BESIDE] {
        replay(&rt, words, [0, 0, 0], done(&said, &EMITTED))?;
    }
    Ok(())
}

// The take behind the last byte tells that there is none, and it too can fail.
#[test]
fn each_take_that_fails_is_told(rt: HostRuntime) -> Result<(), Fail> {
    let takes = FORWARDING.len() as u64 + 1;
    for take in [1, 2, takes - 1, takes] {
        let expected = before(Status::Read, "fault read chain\n");
        replay(&rt, &SERIAL, [take, 0, 0], expected)?;
    }
    for take in 1..=57 {
        let expected = before(Status::Read, "fault read 0\n");
        replay(&rt, &SERIAL, [0, take, 0], expected)?;
    }
    let expected = before(Status::Read, "fault read 0\n");
    replay(&rt, &BESIDE, [0, 57, 0], expected)
}

#[test]
fn each_put_that_fails_leaves_what_was_put_before(rt: HostRuntime) -> Result<(), Fail> {
    for len in 0..EMITTED.len() {
        let expected = Left {
            status: Status::Write,
            said: "fault write\n",
            output: Some(&EMITTED[..len]),
        };
        let put = len as u64 + 1;
        replay(&rt, &SERIAL, [0, 0, put], expected)?;
        if len == 40 {
            replay(&rt, &BESIDE, [0, 0, put], expected)?;
        }
    }
    Ok(())
}

// A fault in the second record is told before the take behind it fails.
#[test]
fn a_source_fails_behind_its_frames(rt: HostRuntime) -> Result<(), Fail> {
    let whole_second = altered(CAPTURE, 28, [0x40, 0x42, 0x0f, 0]);
    let sound_frames = two_frames(rt.alloc(), &CAPTURE, &CAPTURE)?;
    let faulty_frames = two_frames(rt.alloc(), &CAPTURE, &whole_second)?;
    for (bytes, status, line) in [
        (&sound_frames, Status::Read, "fault read 0\n"),
        (
            &faulty_frames,
            Status::Capture,
            "fault capture 0 fraction 56\n",
        ),
    ] {
        for (piece, fail) in [(0, [2]), (1, [89])] {
            let files = [
                sound("c", FORWARDING.as_bytes()),
                Given {
                    fail: &fail,
                    piece,
                    ..sound("k", bytes.as_slice())
                },
            ];
            for words in [SERIAL.as_slice(), &BESIDE] {
                expect(&rt, &files, words, refused(status, line), line)?;
            }
        }
    }
    Ok(())
}

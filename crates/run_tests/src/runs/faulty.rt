//! Captures that are cut or have a faulty head, and chain files that are none.

use super::expected::all_sent;
use super::frames::{CAPTURE, EMITTED, altered};
use super::hosts::{Left, done, expect, refused, sound};
use super::texts::FORWARDING;
use onvm_base::Status;
use std::process::Abort;
use std::sync::Wait;
use std::test::Fail;
use std::thread::Threads;
use std::time;

const SERIAL: [&str; 4] = ["--serial", "c", "o", "k"];

const BESIDE: [&str; 3] = ["c", "o", "k"];

// A run over these bytes of a chain file and of a capture.
fn replay<R: AllocGlobal + Threads + Wait + time::Clock + Sync + Abort>(
    rt: &R,
    words: &[&str],
    chain: &[u8],
    capture: &[u8],
    expected: Left<'_>,
    shown: &str,
) -> Result<(), Fail> {
    let files = [sound("c", chain), sound("k", capture)];
    expect(rt, &files, words, expected, shown)
}

// A header that is cut is torn at 0, and a record at its own offset, be it in its head or in its bytes.
#[test]
fn a_cut_capture_is_torn_where_its_last_part_begins(rt: HostRuntime) -> Result<(), Fail> {
    let none = all_sent(rt.alloc(), 0, "")?;
    for len in 0..CAPTURE.len() {
        let expected = match len {
            0..24 => refused(Status::Capture, "fault capture 0 torn 0\n"),
            24 => done(&none, &EMITTED[..24]),
            _ => refused(Status::Capture, "fault capture 0 torn 24\n"),
        };
        let shown = format!(in rt.alloc(); "{len} bytes")?;
        let chain = FORWARDING.as_bytes();
        replay(&rt, &SERIAL, chain, &CAPTURE[..len], expected, &shown)?;
        if matches!(len, 0 | 24 | 55) {
            replay(&rt, &BESIDE, chain, &CAPTURE[..len], expected, &shown)?;
        }
    }
    Ok(())
}

// Of two faults in a header or in a head the first in order is told.
#[test]
fn a_faulty_head_is_told_with_its_offset(rt: HostRuntime) -> Result<(), Fail> {
    let whole_second = altered(CAPTURE, 28, [0x40, 0x42, 0x0f, 0]);
    let older = altered(CAPTURE, 4, [2, 0, 3, 0]);
    for (words, capture, line) in [
        (
            SERIAL.as_slice(),
            altered(whole_second, 32, [255; 4]),
            "fault capture 0 too-long 24 4294967295\n",
        ),
        (&SERIAL, whole_second, "fault capture 0 fraction 24\n"),
        (
            &SERIAL,
            altered(older, 20, [2, 0, 0, 0]),
            "fault capture 0 version\n",
        ),
        (&BESIDE, whole_second, "fault capture 0 fraction 24\n"),
    ] {
        let expected = refused(Status::Capture, line);
        let chain = FORWARDING.as_bytes();
        replay(&rt, words, chain, &capture, expected, line)?;
    }
    Ok(())
}

// No bytes, a byte that no text has, more lists in one another than are read, and one byte too many.
#[test]
fn a_file_that_is_no_chain_file_is_told(rt: HostRuntime) -> Result<(), Fail> {
    let mut lists = "[".repeat(rt.alloc(), 200)?;
    lists.push_str(&"]".repeat(rt.alloc(), 200)?)?;
    let spaces = " ".repeat(rt.alloc(), 1_048_577)?;
    for (words, chain, line) in [
        (SERIAL.as_slice(), [].as_slice(), "fault plan json file\n"),
        (&SERIAL, &[255], "fault plan json file\n"),
        (&SERIAL, lists.as_bytes(), "fault plan json file\n"),
        (&SERIAL, spaces.as_bytes(), "fault plan limit file\n"),
        (&BESIDE, &[], "fault plan json file\n"),
    ] {
        let expected = refused(Status::Plan, line);
        replay(&rt, words, chain, &CAPTURE, expected, line)?;
    }
    Ok(())
}

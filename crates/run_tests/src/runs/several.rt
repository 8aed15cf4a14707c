//! Several ports.

use super::expected::all_sent;
use super::frames::{CAPTURE, FRAME, emitted};
use super::hosts::{done, expect, sound};
use super::texts::THREE_PORTS;
use std::test::Fail;

// Its frames are those of port 0 and those of port 1. Port 2 has no capture.
#[test]
fn one_file_may_be_the_capture_of_two_ports(rt: HostRuntime) -> Result<(), Fail> {
    let given = [sound("c", THREE_PORTS.as_bytes()), sound("k", &CAPTURE)];
    let said = all_sent(rt.alloc(), 2, "record 0 1 sent 0\nrecord 1 1 sent 1\n")?;
    let output = emitted(rt.alloc(), &[&FRAME, &FRAME])?;
    let words = ["--serial", "--records", "c", "o", "k", "k"];
    expect(&rt, &given, &words, done(&said, &output), "one file twice")
}

//! Calls of the host that fail, and want of memory.

use super::frames::{CAPTURE, EMITTED, altered};
use super::hosts::{Given, Left, SPACE, compare, expect, host_of, play, refused, sound};
use super::texts::{FORWARDING, TWO_PORTS};
use onvm_base::Status;
use std::process::Abort;
use std::sync::Wait;
use std::test::Fail;
use std::thread::Threads;
use std::time;

const WORDS: [&str; 4] = ["--serial", "c", "o", "k"];

// The same with roles beside each other.
const BESIDE: [&str; 3] = ["c", "o", "k"];

// Also where a port before it has all its frames, or one behind it is faulty.
#[test]
fn a_file_that_is_not_there_is_told(rt: HostRuntime) -> Result<(), Fail> {
    let given = [
        sound("c", TWO_PORTS.as_bytes()),
        sound("k", &CAPTURE),
        sound("l", &CAPTURE[..55]),
    ];
    for (words, line) in [
        (["x", "o", "k", "l"], "fault read chain\n"),
        (["c", "o", "x", "l"], "fault read 0\n"),
        (["c", "o", "k", "x"], "fault read 1\n"),
        (["c", "o", "l", "x"], "fault read 1\n"),
    ] {
        let mut host = host_of(rt.alloc(), &given, &[], SPACE)?;
        let status = play(&rt, &mut host, &words, Vec::new(rt.alloc()))?;
        compare(&rt, &host, status, refused(Status::Read, line), line)?;
    }
    Ok(())
}

// A capture: its bytes, or all but the last, and the number of its take that fails, 0 for none.
#[derive(Clone, Copy)]
struct Capture {
    bytes: [u8; 56],
    torn: bool,
    failing: u64,
}

impl Capture {
    fn text(&self) -> &[u8] {
        if self.torn {
            &self.bytes[..55]
        } else {
            self.bytes.as_slice()
        }
    }
}

const SOUND: Capture = Capture {
    bytes: CAPTURE,
    torn: false,
    failing: 0,
};

const TORN: Capture = Capture {
    bytes: CAPTURE,
    torn: true,
    failing: 0,
};

// A run over a chain file whose take of this number fails, and two captures. It makes no output.
fn refuse<R: AllocGlobal + Threads + Wait + time::Clock + Sync + Abort>(
    rt: &R,
    chain: u64,
    captures: [Capture; 2],
    status: Status,
    line: &str,
) -> Result<(), Fail> {
    let [first, second] = captures;
    let (chain_fail, first_fail, second_fail) = ([chain], [first.failing], [second.failing]);
    let files = [
        given("c", TWO_PORTS.as_bytes(), &chain_fail),
        given("k", first.text(), &first_fail),
        given("l", second.text(), &second_fail),
    ];
    let words = ["--serial", "c", "o", "k", "l"];
    expect(rt, &files, &words, refused(status, line), line)
}

// The first take gives all bytes there are, and the second tells that they end. So without the second
// no torn end is told.
#[test]
fn a_failed_take_is_told(rt: HostRuntime) -> Result<(), Fail> {
    for failing in [1, 2] {
        refuse(
            &rt,
            failing,
            [SOUND, SOUND],
            Status::Read,
            "fault read chain\n",
        )?;
        for capture in [SOUND, TORN] {
            let failed = Capture { failing, ..capture };
            refuse(&rt, 0, [failed, SOUND], Status::Read, "fault read 0\n")?;
            refuse(&rt, 0, [SOUND, failed], Status::Read, "fault read 1\n")?;
        }
    }
    Ok(())
}

// A fault in the bytes that were taken is told before the take behind them fails.
#[test]
fn the_first_fault_of_the_lowest_port_is_told(rt: HostRuntime) -> Result<(), Fail> {
    let long = Capture {
        bytes: altered(CAPTURE, 32, [1, 0, 4, 0]),
        ..SOUND
    };
    let line = "fault capture 0 too-long 24 262145\n";
    let late = Capture { failing: 2, ..long };
    refuse(&rt, 0, [late, SOUND], Status::Capture, line)?;
    let line = "fault capture 0 torn 24\n";
    let unread = Capture {
        failing: 1,
        ..SOUND
    };
    refuse(&rt, 0, [TORN, unread], Status::Capture, line)?;
    let cut = Capture { failing: 2, ..TORN };
    refuse(&rt, 0, [cut, long], Status::Read, "fault read 0\n")
}

fn given<'a>(name: &'a str, bytes: &'a [u8], fail: &'a [u64]) -> Given<'a> {
    Given {
        fail,
        ..sound(name, bytes)
    }
}

fn unwritten(output: Option<&[u8]>) -> Left<'_> {
    Left {
        status: Status::Write,
        said: "fault write\n",
        output,
    }
}

// The header, the head of a frame and its bytes are put one after the other. The output takes over the
// failing calls of the file that had its name before.
#[test]
fn a_failed_put_leaves_what_was_put_before(rt: HostRuntime) -> Result<(), Fail> {
    for (put, len) in [(1, 0), (2, 24), (3, 40)] {
        let fail = [put];
        let files = [
            sound("c", FORWARDING.as_bytes()),
            sound("k", &CAPTURE),
            given("o", b"old", &fail),
        ];
        let mut host = host_of(rt.alloc(), &files, &[], SPACE)?;
        let status = play(&rt, &mut host, &WORDS, Vec::new(rt.alloc()))?;
        let shown = format!(in rt.alloc(); "put {put}")?;
        compare(&rt, &host, status, unwritten(EMITTED.get(..len)), &shown)?;
    }
    Ok(())
}

// The opens of both files, the create and the keep of the output, the report's say, and the say of the
// fault behind it. A failed keep and a failed say leave the output whole.
#[test]
fn a_failed_call_of_the_host_has_its_status(rt: HostRuntime) -> Result<(), Fail> {
    let silent = Left {
        said: "",
        ..unwritten(Some(&EMITTED))
    };
    for (words, calls, expected) in [
        (
            WORDS.as_slice(),
            [1].as_slice(),
            refused(Status::Read, "fault read chain\n"),
        ),
        (&WORDS, &[2], refused(Status::Read, "fault read 0\n")),
        (&WORDS, &[3], unwritten(None)),
        (&WORDS, &[4], unwritten(Some(&EMITTED))),
        (&WORDS, &[5], unwritten(Some(&EMITTED))),
        (&WORDS, &[4, 5], silent),
        (&WORDS, &[5, 6], silent),
        (&BESIDE, &[2], refused(Status::Read, "fault read 0\n")),
        (&BESIDE, &[3], unwritten(None)),
        (&BESIDE, &[4], unwritten(Some(&EMITTED))),
        (&BESIDE, &[5], unwritten(Some(&EMITTED))),
        (&BESIDE, &[5, 6], silent),
    ] {
        let given = [sound("c", FORWARDING.as_bytes()), sound("k", &CAPTURE)];
        let mut host = host_of(rt.alloc(), &given, calls, SPACE)?;
        let status = play(&rt, &mut host, words, Vec::new(rt.alloc()))?;
        let shown = format!(in rt.alloc(); "{words:?} {calls:?}")?;
        compare(&rt, &host, status, expected, &shown)?;
    }
    Ok(())
}

// There is room for less than the header, for one frame, and for part of the report behind it.
#[test]
fn what_there_is_no_room_for_is_not_written(rt: HostRuntime) -> Result<(), Fail> {
    let given = [sound("c", FORWARDING.as_bytes()), sound("k", &CAPTURE)];
    let mut host = host_of(rt.alloc(), &given, &[], 20)?;
    let status = play(&rt, &mut host, &WORDS, Vec::new(rt.alloc()))?;
    compare(
        &rt,
        &host,
        status,
        unwritten(EMITTED.get(..20)),
        "a part of the header",
    )?;
    let mut host = host_of(rt.alloc(), &given, &[], 60)?;
    let status = play(&rt, &mut host, &WORDS, Vec::new(rt.alloc()))?;
    let expected = Left {
        status: Status::Write,
        said: "frames 1\nsent 1\nasked 0\nchain-end 0\nno-service 0\nno-port 0\nh",
        output: Some(&EMITTED),
    };
    compare(&rt, &host, status, expected, "a part of the report")
}

#[test]
fn a_line_that_can_not_be_said_changes_no_status(rt: HostRuntime) -> Result<(), Fail> {
    for (words, fail, status) in [
        (["c", "o", "-k"].as_slice(), [1].as_slice(), Status::Words),
        (&["k", "o", "k"], &[2], Status::Plan),
        (&["c", "o", "c"], &[3], Status::Capture),
        (&["x", "o", "k"], &[2], Status::Read),
        (&["c", "o", "k"], &[3, 4], Status::Write),
    ] {
        let given = [sound("c", FORWARDING.as_bytes()), sound("k", &CAPTURE)];
        let mut host = host_of(rt.alloc(), &given, fail, SPACE)?;
        let left = play(&rt, &mut host, words, Vec::new(rt.alloc()))?;
        let shown = format!(in rt.alloc(); "{status:?}")?;
        compare(&rt, &host, left, refused(status, ""), &shown)?;
    }
    Ok(())
}

//! Passes over captures.
ghost use Rattle.std.specs.Prelude.{◌≡◌, ◌≤◌, Some};
ghost use Rattle.std.specs.Io.{ReadsAtMost};
ghost use Rattle.std.specs.Io.KnownBytes.{ReadConsumes};
ghost use Rattle.std.specs.Result.{result_ok};

use super::plans::{SIZES, Sizes, plan, plan_of};
use super::{counts, receive};
use onvm_base::{Failed, FrameId, ListOf, Outcome, PortId, Record, SentFrames, Text};
use onvm_host::{
    Host, HostFault, MemFile, MemFiles, MemHost, MemInput, Source, have_distinct_names,
};
use onvm_promises::Pass;
use rx_feed::{Feed, FeedFault};
use std::alloc::Global;
use std::test::Fail;

/// A header, two records of a byte, and a part of a third.
const TORN: [u8; 60] = [
    0xd4, 0xc3, 0xb2, 0xa1, 2, 0, 4, 0, 0, 0, 0, 0, 0, 0, 0, 0, 0, 0, 4, 0, 1, 0, 0, 0, // header
    1, 0, 0, 0, 2, 0, 0, 0, 1, 0, 0, 0, 1, 0, 0, 0, 7, // from byte 24
    2, 0, 0, 0, 0, 0, 0, 0, 1, 0, 0, 0, 9, 0, 0, 0, 8, // from byte 41
    3, 0, // from byte 58
];

/// A header and five records of 1, 0, 2, 1 and 3 bytes.
const FIVE: [u8; 111] = [
    0xd4, 0xc3, 0xb2, 0xa1, 2, 0, 4, 0, 0, 0, 0, 0, 0, 0, 0, 0, 0, 0, 4, 0, 1, 0, 0, 0, // header
    1, 0, 0, 0, 2, 0, 0, 0, 1, 0, 0, 0, 1, 0, 0, 0, 7, // from byte 24
    2, 0, 0, 0, 0, 0, 0, 0, 0, 0, 0, 0, 9, 0, 0, 0, // from byte 41
    3, 0, 0, 0, 0, 0, 0, 0, 2, 0, 0, 0, 2, 0, 0, 0, 8, 9, // from byte 57
    4, 0, 0, 0, 0, 0, 0, 0, 1, 0, 0, 0, 1, 0, 0, 0, 6, // from byte 75
    5, 0, 0, 0, 0, 0, 0, 0, 3, 0, 0, 0, 3, 0, 0, 0, 5, 4, 3, // from byte 92
];

// An input of these bytes. Those of its takes fail whose numbers, from 1, are listed.
fn input_of(alloc: Global, bytes: &[u8], fail: &[u64]) -> Result<MemInput, Fail> {
    let mut files = MemFiles::make(alloc);
    files.push(MemFile {
        name: Text::from_slice(alloc, b"k")?,
        bytes: Text::from_slice(alloc, bytes)?,
        fail: ListOf::from_slice(alloc, fail)?,
        piece: 0,
    })?;
    if !have_distinct_names(&files) {
        return Err(Fail::from("two files of one name"));
    }
    let mut host = MemHost::make(alloc, files, ListOf::make(alloc), 0)?;
    match host.open_input("k") {
        Ok(input) => Ok(input),
        Err(HostFault::Failed) => Err(Fail::from("no file")),
        Err(HostFault::Memory) => Err(Fail::from("memory")),
    }
}

// A source that gives one byte at a time.
#[derive(Drop)]
struct OneByte {
    input: MemInput,
}

impl Source for OneByte {
    ghost left = { λ one. ⟦<MemInput as Source>⟧.left one.input };

    ghost name = { λ one. ⟦<MemInput as Source>⟧.name one.input };

    ghost takes = { λ one. ⟦<MemInput as Source>⟧.takes one.input };

    fn take(&mut self, into: &mut [u8]) -> Result<usize, Failed> {
        if into.is_empty() {
            return self.input.take(into);
        }
        self.input.take(&mut into[..1])
    }
}

// The record of a frame that was sent by port 0.
fn sent(number: u32) -> Record {
    Record {
        frame: FrameId {
            port: PortId(0),
            number,
        },
        outcome: Outcome::Sent(0),
    }
}

// Whether just these bytes were sent, frame by frame.
fn are_sent(frames: &SentFrames, expected: &[&[u8]]) -> bool {
    if frames.len() != expected.len() {
        return false;
    }
    for (frame, bytes) in frames.as_slice().iter().zip(expected) {
        if frame.packet.bytes() != *bytes {
            return false;
        }
    }
    true
}

#[test]
fn frames_that_come_a_byte_at_a_time_have_their_blocks_in_order(
    rt: HostRuntime,
) -> Result<(), Fail> {
    let sizes = Sizes { burst: 2, ..SIZES };
    let plan = plan_of(rt.alloc(), sizes, 2, 1_000_000, 1)?;
    let input = input_of(rt.alloc(), &FIVE, &[])?;
    let received = receive(rt.alloc(), &plan, Feed::Live(OneByte { input }))?;
    let answers = [Pass::Did(2), Pass::Did(2), Pass::Did(1), Pass::Idle];
    assert_eq!(rt; received.answers, answers);
    let records = [sent(1), sent(2), sent(3), sent(4), sent(5)];
    assert_eq!(rt; received.kept.records.as_slice(), records.as_slice());
    let bytes: [&[u8]; 5] = [&[7], &[], &[8, 9], &[6], &[5, 4, 3]];
    assert!(rt; are_sent(&received.kept.sent, &bytes));
    assert_eq!(rt; (received.fault, received.done), (None, true));
    Ok(())
}

#[test]
fn frames_before_a_failed_take_have_their_blocks(rt: HostRuntime) -> Result<(), Fail> {
    let plan = plan(rt.alloc(), 8, 1_000_000, 1)?;
    let feed = Feed::Live(input_of(rt.alloc(), &TORN, &[2])?);
    let received = receive(rt.alloc(), &plan, feed)?;
    assert_eq!(rt;
        received.answers,
        [Pass::Stopped, Pass::Stopped, Pass::Stopped, Pass::Stopped]
    );
    assert_eq!(rt; received.fault, Some(FeedFault::Read));
    assert_eq!(rt; counts(&received.kept), [2, 0, 0, 0]);
    assert!(rt; matches!(received.kept.feed, Some(Feed::Live(_))));
    Ok(())
}

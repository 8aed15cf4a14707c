//! Feeds that are read to where they stop. Expected values were computed apart from this program.
ghost use Rattle.std.specs.Prelude.{◌≡◌, ◌≤◌, ◌∷◌, ◌++◌, [], IfOk, Some, length};
ghost use Rattle.std.specs.Io.{ReadsAtMost};
ghost use Rattle.std.specs.Io.KnownBytes.{ReadConsumes};
ghost use Rattle.std.specs.Result.{result_ok};
ghost use Rattle.rx_feed.specs.Feeds.{IsFreshFeed};

use crate::{Feed, FeedFault, Generator, Intake, IntakeRoom};
use onvm_base::{Failed, ListOf, Stamp, Text};
use onvm_host::{
    Host, HostFault, MemFile, MemFiles, MemHost, MemInput, Source, have_distinct_names,
};
use pcap_in::PcapFault;
use std::alloc::Global;
use std::test::Fail;

/// A header, low byte first and in microseconds, and three records of 1, 0 and 2 bytes.
const CAPTURE: [u8; 75] = [
    0xd4, 0xc3, 0xb2, 0xa1, 2, 0, 4, 0, 0, 0, 0, 0, 0, 0, 0, 0, 0, 0, 4, 0, 1, 0, 0, 0, // header
    1, 0, 0, 0, 2, 0, 0, 0, 1, 0, 0, 0, 1, 0, 0, 0, 7, // from byte 24
    2, 0, 0, 0, 0, 0, 0, 0, 0, 0, 0, 0, 9, 0, 0, 0, // from byte 41
    3, 0, 0, 0, 0, 0, 0, 0, 2, 0, 0, 0, 2, 0, 0, 0, 8, 9, // from byte 57
];

// A source that gives one byte at a time.
#[derive(Drop)]
struct OneByte {
    input: MemInput,
}

impl Source for OneByte {
    ghost left = { λ one. ⟦<MemInput as Source>⟧.left one.input };

    ghost name = { λ one. ⟦<MemInput as Source>⟧.name one.input };

    ghost takes = { λ one. ⟦<MemInput as Source>⟧.takes one.input };

    fn take(&mut self, into: &mut [u8]) -> Result<usize, Failed> {
        if into.is_empty() {
            return self.input.take(into);
        }
        self.input.take(&mut into[..1])
    }
}

// An input of these bytes. Those of its takes fail whose numbers, from 1, are listed.
fn input_of(alloc: Global, bytes: &[u8], fail: &[u64]) -> Result<MemInput, Fail> {
    let mut files = MemFiles::make(alloc);
    files.push(MemFile {
        name: Text::from_slice(alloc, b"k")?,
        bytes: Text::from_slice(alloc, bytes)?,
        fail: ListOf::from_slice(alloc, fail)?,
        piece: 0,
    })?;
    if !have_distinct_names(&files) {
        return Err(Fail::from("two files of one name"));
    }
    let mut host = MemHost::make(alloc, files, ListOf::make(alloc), 0)?;
    match host.open_input("k") {
        Ok(input) => Ok(input),
        Err(HostFault::Failed) => Err(Fail::from("no file")),
        Err(HostFault::Memory) => Err(Fail::from("memory")),
    }
}

fn intake_of<I: Source + Drop>(alloc: Global, feed: Option<Feed<I>>) -> Result<Intake<I>, Fail>
    requires { IsFreshFeed feed }
{
    Ok(IntakeRoom::make(alloc)?.start(feed))
}

// The lengths of up to four frames, until there is none.
fn lengths<I: Source>(alloc: Global, intake: &mut Intake<I>) -> Result<[Option<usize>; 4], Fail> {
    let mut lengths = [None; 4];
    for at in 0..4 {
        lengths[at] = match intake.next(alloc)? {
            Some(frame) => Some(frame.packet.bytes().len()),
            None => None,
        };
    }
    Ok(lengths)
}

fn are_all(bytes: &[u8], byte: u8) -> bool {
    for each in bytes {
        if *each != byte {
            return false;
        }
    }
    true
}

#[test]
fn the_first_frame_of_seed_0_is_the_documented_one(rt: HostRuntime) -> Result<(), Fail> {
    let mut generator = Generator::make(0, 1);
    let Some(frame) = generator.next(rt.alloc())? else {
        return Err(Fail::from("no frame"));
    };
    let stamp = Stamp {
        seconds: 0,
        nanos: 0,
        tail: 0,
    };
    assert_eq!(rt; frame.stamp, stamp);
    let bytes = frame.packet.bytes();
    assert_eq!(rt; bytes.len(), 940);
    let heads = [
        2, 0, 0, 0, 0, 1, 2, 0, 0, 0, 0, 2, 8, 0, // Ethernet II
        0x45, 0, 0x03, 0x9e, 0, 1, 0, 0, 0x40, 0x11, 0x63, 0x3f, 10, 0, 0, 14, 10, 1, 0, 1, // IPv4
        0x27, 0x1e, 0, 9, 0x03, 0x8a, 0, 0, // UDP
    ];
    let (front, payload) = bytes.split_at(42);
    assert_eq!(rt; front, heads.as_slice());
    assert!(rt; are_all(payload, 1));
    assert!(rt; generator.next(rt.alloc())?.is_none());
    Ok(())
}

#[test]
fn a_made_feed_ends_where_one_frame_more_is_asked_for(rt: HostRuntime) -> Result<(), Fail> {
    let feed: Option<Feed<MemInput>> = Some(Feed::Made(Generator::make(7, 3)));
    let mut intake = intake_of(rt.alloc(), feed)?;
    for len in [236, 684, 668] {
        let Some(frame) = intake.next(rt.alloc())? else {
            return Err(Fail::from("no frame"));
        };
        assert_eq!(rt; frame.packet.bytes().len(), len);
    }
    assert!(rt; !intake.done());
    assert!(rt; intake.next(rt.alloc())?.is_none());
    assert!(rt; intake.done());
    assert_eq!(rt; intake.pulled(), 3);
    assert_eq!(rt; intake.fault(), None);
    Ok(())
}

#[test]
fn a_source_of_one_byte_at_a_time_gives_the_same_frames(rt: HostRuntime) -> Result<(), Fail> {
    let whole = input_of(rt.alloc(), &CAPTURE, &[])?;
    let mut intake = intake_of(rt.alloc(), Some(Feed::Live(whole)))?;
    let expected = [Some(1), Some(0), Some(2), None];
    assert_eq!(rt; lengths(rt.alloc(), &mut intake)?, expected);
    let input = input_of(rt.alloc(), &CAPTURE, &[])?;
    let mut slow = intake_of(rt.alloc(), Some(Feed::Live(OneByte { input })))?;
    assert_eq!(rt; lengths(rt.alloc(), &mut slow)?, expected);
    assert!(rt; slow.done());
    Ok(())
}

#[test]
fn a_take_that_fails_behind_two_frames_stops_the_port_there(rt: HostRuntime) -> Result<(), Fail> {
    let input = input_of(rt.alloc(), &CAPTURE, &[60])?;
    let mut intake = intake_of(rt.alloc(), Some(Feed::Live(OneByte { input })))?;
    let expected = [Some(1), Some(0), None, None];
    assert_eq!(rt; lengths(rt.alloc(), &mut intake)?, expected);
    assert_eq!(rt; intake.fault(), Some(FeedFault::Read));
    assert_eq!(rt; (intake.pulled(), intake.done()), (2, false));
    assert!(rt; matches!(intake.into_feed(), Some(Feed::Live(_))));
    Ok(())
}

#[test]
fn a_torn_record_stops_the_port_at_its_offset(rt: HostRuntime) -> Result<(), Fail> {
    let input = input_of(rt.alloc(), &CAPTURE[..74], &[])?;
    let mut intake = intake_of(rt.alloc(), Some(Feed::Live(input)))?;
    intake.drain(rt.alloc())?;
    let torn = FeedFault::Capture(PcapFault::Torn { at: 57 });
    assert_eq!(rt; intake.fault(), Some(torn));
    assert_eq!(rt; intake.pulled(), 2);
    Ok(())
}

#[test]
fn a_port_without_a_feed_is_at_its_end(rt: HostRuntime) -> Result<(), Fail> {
    let none: Option<Feed<MemInput>> = None;
    let mut intake = intake_of(rt.alloc(), none)?;
    assert!(rt; intake.done());
    assert!(rt; intake.next(rt.alloc())?.is_none());
    assert!(rt; intake.into_feed().is_none());
    Ok(())
}

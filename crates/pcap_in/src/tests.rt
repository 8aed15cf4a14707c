//! Captures that were spelled by hand.
ghost use Rattle.std.specs.Prelude.{◌≡◌, ◌+◌, ◌<◌, length, IfOk};

use crate::{PcapFault, Pull, Reader, frame_head, header};
use onvm_base::{NoMemory, Stamp};
use std::alloc::Global;
use std::test::Fail;

/// A header, and one record of 16 bytes.
const CAPTURE: [u8; 56] = [
    0xd4, 0xc3, 0xb2, 0xa1, 2, 0, 4, 0, 0, 0, 0, 0, 0, 0, 0, 0, 0, 0, 4, 0, 1, 0, 0, 0, // header
    1, 0, 0, 0, 2, 0, 0, 0, 16, 0, 0, 0, 16, 0, 0, 0, // head
    2, 0, 0, 0, 0, 1, 2, 0, 0, 0, 0, 2, 0x88, 0xb5, 1, 2, // frame
];

/// The same frame, high byte first and in nanoseconds.
const BIG_NANOS: [u8; 56] = [
    0xa1, 0xb2, 0x3c, 0x4d, 0, 2, 0, 4, 0, 0, 0, 0, 0, 0, 0, 0, 0, 4, 0, 0, 0, 0, 0, 1, // header
    0, 0, 0, 1, 0, 0, 7, 0xd0, 0, 0, 0, 16, 0, 0, 0, 16, // head
    2, 0, 0, 0, 0, 1, 2, 0, 0, 0, 0, 2, 0x88, 0xb5, 1, 2, // frame
];

/// Where the frame of the capture begins.
const FRAME_AT: usize = 40;

// What a reader answers that was fed this text and no more.
fn answer_to(alloc: Global, text: &[u8]) -> Result<Pull, NoMemory>
    requires { length text.now < 1000 }
{
    let mut reader = Reader::make(alloc);
    reader.feed(text)?;
    reader.finish();
    reader.next(alloc)
}

/// A header and one record of two bytes: second 0x01020304, fraction 0x00010203, and three bytes
/// that were not captured.
const SPELLINGS: [([u8; 42], u32); 4] = [
    (
        [
            0xd4, 0xc3, 0xb2, 0xa1, 2, 0, 4, 0, 9, 9, 9, 9, 9, 9, 9, 9, 9, 9, 9, 9, 1, 0, 0, 0, //
            4, 3, 2, 1, 3, 2, 1, 0, 2, 0, 0, 0, 5, 0, 0, 0, 7, 8,
        ],
        66_051_000,
    ),
    (
        [
            0xa1, 0xb2, 0xc3, 0xd4, 0, 2, 0, 4, 9, 9, 9, 9, 9, 9, 9, 9, 9, 9, 9, 9, 0, 0, 0, 1, //
            1, 2, 3, 4, 0, 1, 2, 3, 0, 0, 0, 2, 0, 0, 0, 5, 7, 8,
        ],
        66_051_000,
    ),
    (
        [
            0x4d, 0x3c, 0xb2, 0xa1, 2, 0, 4, 0, 9, 9, 9, 9, 9, 9, 9, 9, 9, 9, 9, 9, 1, 0, 0, 0, //
            4, 3, 2, 1, 3, 2, 1, 0, 2, 0, 0, 0, 5, 0, 0, 0, 7, 8,
        ],
        66_051,
    ),
    (
        [
            0xa1, 0xb2, 0x3c, 0x4d, 0, 2, 0, 4, 9, 9, 9, 9, 9, 9, 9, 9, 9, 9, 9, 9, 0, 0, 0, 1, //
            1, 2, 3, 4, 0, 1, 2, 3, 0, 0, 0, 2, 0, 0, 0, 5, 7, 8,
        ],
        66_051,
    ),
];

#[test]
fn of_the_bytes_fed_those_of_the_header_and_of_given_frames_are_not_kept(
    rt: HostRuntime,
) -> Result<(), Fail> {
    let mut reader = Reader::make(rt.alloc());
    reader.feed(&CAPTURE[..20])?;
    assert_eq!(rt; reader.kept(), 20);
    reader.feed(&CAPTURE[20..50])?;
    assert_eq!(rt; reader.kept(), 26);
    reader.feed(&CAPTURE[50..])?;
    assert!(rt; matches!(reader.next(rt.alloc())?, Pull::Frame(_)));
    assert_eq!(rt; reader.kept(), 0);
    Ok(())
}

#[test]
fn a_frame_is_read_in_each_spelling(rt: HostRuntime) -> Result<(), Fail> {
    for (text, nanos) in SPELLINGS {
        let mut reader = Reader::make(rt.alloc());
        reader.feed(&text)?;
        reader.finish();
        let Pull::Frame(frame) = reader.next(rt.alloc())? else {
            assert!(rt; false, "no frame");
            return Ok(());
        };
        let stamp = Stamp {
            seconds: 0x0102_0304,
            nanos,
            tail: 3,
        };
        assert_eq!(rt; frame.stamp, stamp);
        assert_eq!(rt; frame.packet.bytes(), [7, 8].as_slice());
        assert!(rt; matches!(reader.next(rt.alloc())?, Pull::End));
    }
    Ok(())
}

/// High byte first, in microseconds: frames of two, no and three bytes, and then a head that has a
/// fraction of a whole second.
const FAULTY: [u8; 93] = [
    0xa1, 0xb2, 0xc3, 0xd4, 0, 2, 0, 4, 0, 0, 0, 0, 0, 0, 0, 0, 0, 4, 0, 0, 0, 0, 0, 1, //
    0, 0, 0, 1, 0, 0, 0, 2, 0, 0, 0, 2, 0, 0, 0, 2, 0x11, 0x12, //
    0, 0, 0, 1, 0, 0, 0, 3, 0, 0, 0, 0, 0, 0, 0, 9, //
    0, 0, 0, 2, 0, 0, 0, 4, 0, 0, 0, 3, 0, 0, 0, 0, 0x21, 0x22, 0x23, //
    0, 0, 0, 2, 0, 0x0f, 0x42, 0x40, 0, 0, 0, 0, 0, 0, 0, 0,
];

/// Its frames as they are emitted, and where its fault is.
const FAULTY_FRAMES: [u8; 53] = [
    1, 0, 0, 0, 0xd0, 7, 0, 0, 2, 0, 0, 0, 2, 0, 0, 0, 0x11, 0x12, //
    1, 0, 0, 0, 0xb8, 0x0b, 0, 0, 0, 0, 0, 0, 9, 0, 0, 0, //
    2, 0, 0, 0, 0xa0, 0x0f, 0, 0, 3, 0, 0, 0, 3, 0, 0, 0, 0x21, 0x22, 0x23,
];

const FAULTY_AT: u64 = 77;

/// Where a text is cut.
#[derive(Clone, Copy, Debug, PartialEq, Eq)]
enum Cuts {
    Everywhere,
    AtEvenOffsets,
    AtPrimeOffsets,
    Nowhere,
}

fn is_cut(cuts: Cuts, end: usize) -> bool {
    match cuts {
        Cuts::Everywhere => true,
        Cuts::AtEvenOffsets => end.is_multiple_of(2),
        Cuts::AtPrimeOffsets => matches!(
            end,
            2 | 3
                | 5
                | 7
                | 11
                | 13
                | 17
                | 19
                | 23
                | 29
                | 31
                | 37
                | 41
                | 43
                | 47
                | 53
                | 59
                | 61
                | 67
                | 71
                | 73
                | 79
                | 83
                | 89
        ),
        Cuts::Nowhere => false,
    }
}

// Pulls the frames that are whole, and appends them as they are emitted. It answers the last pull.
#[tactic(auto, using(crate::proofs::Read::bytes_kept))]
fn pull_into(reader: &mut Reader, alloc: Global, emitted: &mut Vec<u8>) -> Result<Pull, Fail>
    ensures kept { IfOk result (λ _. reader.new.finished ≡ reader.old.finished) }
    ensures fed { IfOk result (λ _. reader.new.place + length reader.new.rest
        ≡ reader.old.place + length reader.old.rest) }
{
    for _ in 0..3 {
        match reader.next(alloc)? {
            Pull::Frame(frame) => {
                let bytes = frame.packet.bytes();
                emitted.extend_from_slice(&frame_head(&frame.stamp, bytes.len() as u32))?;
                emitted.extend_from_slice(bytes)?;
            }
            other => return Ok(other),
        }
    }
    Ok(reader.next(alloc)?)
}

#[test]
fn one_text_gives_the_same_pulls_in_whatever_pieces(rt: HostRuntime) -> Result<(), Fail> {
    for cuts in [
        Cuts::Everywhere,
        Cuts::AtEvenOffsets,
        Cuts::AtPrimeOffsets,
        Cuts::Nowhere,
    ] {
        let mut emitted = Vec::new(rt.alloc());
        let mut reader = Reader::make(rt.alloc());
        let mut begin = 0;
        for at in 0..FAULTY.len() - 1 {
            if is_cut(cuts, at + 1) {
                reader.feed(&FAULTY[begin..at + 1])?;
                begin = at + 1;
                let pull = pull_into(&mut reader, rt.alloc(), &mut emitted)?;
                assert!(rt; matches!(pull, Pull::More), "{cuts:?} at {at}");
            }
        }
        reader.feed(&FAULTY[begin..])?;
        for _ in 0..2 {
            let pull = pull_into(&mut reader, rt.alloc(), &mut emitted)?;
            assert!(rt;
                matches!(pull, Pull::Bad(PcapFault::Fraction { at: FAULTY_AT })),
                "{cuts:?}"
            );
            reader.finish();
        }
        assert_eq!(rt; emitted.as_slice(), FAULTY_FRAMES.as_slice(), "{cuts:?}");
    }
    Ok(())
}

// The capture with these four bytes at an offset.
fn altered(mut text: [u8; 56], at: usize, bytes: [u8; 4]) -> [u8; 56] {
    for (old, new) in text.iter_mut().skip(at).zip(bytes) {
        *old = new;
    }
    text
}

#[test]
fn an_altered_capture_has_its_fault(rt: HostRuntime) -> Result<(), Fail> {
    let long = PcapFault::TooLong {
        at: 24,
        len: 262_145,
    };
    let fraction = PcapFault::Fraction { at: 24 };
    let torn = PcapFault::Torn { at: 24 };
    for (text, at, bytes, fault) in [
        (CAPTURE, 0, [0xb2, 0xa1, 0xd4, 0xc3], PcapFault::Magic),
        (CAPTURE, 0, [0x34, 0xcd, 0xb2, 0xa1], PcapFault::Magic),
        (CAPTURE, 4, [3, 0, 4, 0], PcapFault::Version),
        (CAPTURE, 4, [2, 0, 3, 0], PcapFault::Version),
        (CAPTURE, 4, [0, 2, 0, 4], PcapFault::Version),
        (CAPTURE, 20, [101, 0, 0, 0], PcapFault::Link),
        (CAPTURE, 20, [0, 0, 0, 1], PcapFault::Link),
        (CAPTURE, 32, [1, 0, 4, 0], long),
        (CAPTURE, 28, [0x40, 0x42, 0x0f, 0], fraction),
        (CAPTURE, 32, [17, 0, 0, 0], torn),
        (BIG_NANOS, 0, [0xd4, 0xc3, 0xb2, 0xa1], PcapFault::Version),
        (BIG_NANOS, 4, [2, 0, 4, 0], PcapFault::Version),
        (BIG_NANOS, 20, [1, 0, 0, 0], PcapFault::Link),
        (BIG_NANOS, 32, [0, 4, 0, 1], long),
        (BIG_NANOS, 28, [0x3b, 0x9a, 0xca, 0], fraction),
        (BIG_NANOS, 32, [0, 0, 0, 17], torn),
    ] {
        match answer_to(rt.alloc(), &altered(text, at, bytes))? {
            Pull::Bad(told) => assert_eq!(rt; told, fault, "at {at}"),
            _ => assert!(rt; false, "no fault at {at}"),
        }
    }
    Ok(())
}

#[test]
fn the_version_is_judged_before_the_link_and_the_length_before_the_fraction(
    rt: HostRuntime,
) -> Result<(), Fail> {
    let text = altered(altered(CAPTURE, 20, [101, 0, 0, 0]), 4, [3, 0, 4, 0]);
    let pull = answer_to(rt.alloc(), &text)?;
    assert!(rt; matches!(pull, Pull::Bad(PcapFault::Version)));
    let text = altered(altered(CAPTURE, 28, [255; 4]), 32, [1, 0, 4, 0]);
    let pull = answer_to(rt.alloc(), &text)?;
    assert!(rt;
        matches!(
            pull,
            Pull::Bad(PcapFault::TooLong {
                at: 24,
                len: 262_145
            })
        )
    );
    Ok(())
}

#[test]
fn a_fraction_is_less_than_a_second_and_a_tail_not_below_zero(rt: HostRuntime) -> Result<(), Fail> {
    for (text, at, bytes, nanos, tail) in [
        (CAPTURE, 28, [0x3f, 0x42, 0x0f, 0], 999_999_000, 0),
        (BIG_NANOS, 28, [0x3b, 0x9a, 0xc9, 0xff], 999_999_999, 0),
        (CAPTURE, 36, [15, 0, 0, 0], 2000, 0),
        (BIG_NANOS, 36, [0, 0, 0, 0], 2000, 0),
        (CAPTURE, 36, [255; 4], 2000, 4_294_967_279),
        (BIG_NANOS, 36, [1, 0, 0, 16], 2000, 0x0100_0000),
    ] {
        let Pull::Frame(frame) = answer_to(rt.alloc(), &altered(text, at, bytes))? else {
            assert!(rt; false, "no frame at {at}");
            return Ok(());
        };
        let stamp = Stamp {
            seconds: 1,
            nanos,
            tail,
        };
        assert_eq!(rt; frame.stamp, stamp);
        assert_eq!(rt; frame.packet.bytes(), &CAPTURE[FRAME_AT..]);
    }
    Ok(())
}

#[test]
fn a_capture_may_end_behind_its_header_and_not_before(rt: HostRuntime) -> Result<(), Fail> {
    let pull = answer_to(rt.alloc(), &CAPTURE[..24])?;
    assert!(rt; matches!(pull, Pull::End));
    let pull = answer_to(rt.alloc(), &CAPTURE[..23])?;
    assert!(rt; matches!(pull, Pull::Bad(PcapFault::Torn { at: 0 })));
    let pull = answer_to(rt.alloc(), &CAPTURE[..25])?;
    assert!(rt; matches!(pull, Pull::Bad(PcapFault::Torn { at: 24 })));
    Ok(())
}

#[test]
fn the_emitted_spelling_is_that_of_nanoseconds(rt: HostRuntime) -> Result<(), Fail> {
    let wanted = [
        0x4d, 0x3c, 0xb2, 0xa1, 2, 0, 4, 0, 0, 0, 0, 0, 0, 0, 0, 0, 0, 0, 4, 0, 1, 0, 0, 0,
    ];
    assert_eq!(rt; header(), wanted);
    let stamp = Stamp {
        seconds: 1,
        nanos: 2000,
        tail: 0,
    };
    let wanted = [1, 0, 0, 0, 0xd0, 7, 0, 0, 16, 0, 0, 0, 16, 0, 0, 0];
    assert_eq!(rt; frame_head(&stamp, 16), wanted);
    Ok(())
}

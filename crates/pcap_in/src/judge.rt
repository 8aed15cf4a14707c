//! The rules that a header and a record keep, judged on the bytes that are there.
ghost use Rattle.std.specs.Prelude.{◌+◌, ◌≤◌, length};
ghost use Rattle.pcap_in.specs.Judged.{IsJudgedHeader, IsJudgedRecord};

use crate::pull::PcapFault;
use crate::spelling::{Spelling, head_at, spelling_of, u16_at, u32_at};
use onvm_base::{MAX_FRAME_BYTES, Stamp};

/// The bytes before the records.
pub const HEADER_LEN: usize = 24;

/// The bytes before a record's frame.
pub const HEAD_LEN: usize = 16;

/// A header, as far as its bytes go.
pub enum CaptureHeader {
    Part,
    Broken(PcapFault),
    Whole(Spelling),
}

/// A record, as far as its bytes go.
pub enum CaptureRecord {
    Part,
    Broken(PcapFault),
    Whole { stamp: Stamp, len: usize },
}

/// Judges the header that the bytes begin with.
pub fn judge_header(rest: &[u8]) -> CaptureHeader
    ensures { IsJudgedHeader rest.now result }
{
    if rest.len() < HEADER_LEN {
        return CaptureHeader::Part;
    }
    let Some(spelling) = spelling_of(&rest[..4]) else {
        return CaptureHeader::Broken(PcapFault::Magic);
    };
    let major = u16_at(spelling.endian, rest, 4);
    let minor = u16_at(spelling.endian, rest, 6);
    let link = u32_at(spelling.endian, rest, 20);
    if major != 2 || minor != 4 {
        CaptureHeader::Broken(PcapFault::Version)
    } else if link != 1 {
        CaptureHeader::Broken(PcapFault::Link)
    } else {
        CaptureHeader::Whole(spelling)
    }
}

/// Judges the record that the bytes at an offset begin with.
pub fn judge_record(spelling: Spelling, at: u64, rest: &[u8]) -> CaptureRecord
    ensures { IsJudgedRecord spelling at rest.now result }
{
    if rest.len() < HEAD_LEN {
        return CaptureRecord::Part;
    }
    let head = head_at(spelling.endian, rest);
    let len = head.included as usize;
    if len > MAX_FRAME_BYTES {
        return CaptureRecord::Broken(PcapFault::TooLong {
            at,
            len: head.included,
        });
    }
    if head.fraction >= spelling.unit.per_second() {
        return CaptureRecord::Broken(PcapFault::Fraction { at });
    }
    if rest.len() < HEAD_LEN + len {
        return CaptureRecord::Part;
    }
    let stamp = Stamp {
        seconds: head.seconds,
        nanos: spelling.unit.in_nanos(head.fraction),
        tail: head.original.saturating_sub(head.included),
    };
    CaptureRecord::Whole { stamp, len }
}

//! The emitted spelling of a capture.
ghost use Rattle.std.specs.Prelude.{◌≡◌};
ghost use Rattle.pcap_in.specs.Emitted.{emitted_header, emitted_head};

use crate::judge::{HEAD_LEN, HEADER_LEN};
use byteorder::{ByteOrder, LittleEndian};
use onvm_base::{MAX_FRAME_BYTES, Stamp};

/// The header: nanoseconds, low byte first, as snap length the most bytes of a frame.
pub fn header() -> [u8; HEADER_LEN]
    ensures { result ≡ emitted_header }
{
    let mut bytes = [0; HEADER_LEN];
    LittleEndian::write_u32(&mut bytes, 0xa1b2_3c4d);
    LittleEndian::write_u16(&mut bytes[4..], 2);
    LittleEndian::write_u16(&mut bytes[6..], 4);
    LittleEndian::write_u32(&mut bytes[16..], MAX_FRAME_BYTES as u32);
    LittleEndian::write_u32(&mut bytes[20..], 1);
    bytes
}

/// The head of a record of `len` bytes.
pub fn frame_head(stamp: &Stamp, len: u32) -> [u8; HEAD_LEN]
    ensures { result ≡ emitted_head stamp.now len }
{
    let mut bytes = [0; HEAD_LEN];
    LittleEndian::write_u32(&mut bytes, stamp.seconds);
    LittleEndian::write_u32(&mut bytes[4..], stamp.nanos);
    LittleEndian::write_u32(&mut bytes[8..], len);
    LittleEndian::write_u32(&mut bytes[12..], len.saturating_add(stamp.tail));
    bytes
}

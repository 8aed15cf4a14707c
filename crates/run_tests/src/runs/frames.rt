//! Captures, and frames in them.

use std::alloc::Global;
use std::test::Fail;

/// A frame of 16 bytes, of a type that no head stands behind.
pub const FRAME: [u8; 16] = [2, 0, 0, 0, 0, 1, 2, 0, 0, 0, 0, 2, 0x88, 0xb5, 1, 2];

// The header of an emitted capture: in nanoseconds, low byte first.
const NANOS: [u8; 24] = [
    0x4d, 0x3c, 0xb2, 0xa1, 2, 0, 4, 0, 0, 0, 0, 0, 0, 0, 0, 0, 0, 0, 4, 0, 1, 0, 0, 0,
];

/// One frame, at second 1, microsecond 2.
pub const CAPTURE: [u8; 56] = [
    0xd4, 0xc3, 0xb2, 0xa1, 2, 0, 4, 0, 0, 0, 0, 0, 0, 0, 0, 0, 0, 0, 4, 0, 1, 0, 0, 0, //
    1, 0, 0, 0, 2, 0, 0, 0, 16, 0, 0, 0, 16, 0, 0, 0, //
    2, 0, 0, 0, 0, 1, 2, 0, 0, 0, 0, 2, 0x88, 0xb5, 1, 2,
];

/// The same frame as it is emitted.
pub const EMITTED: [u8; 56] = [
    0x4d, 0x3c, 0xb2, 0xa1, 2, 0, 4, 0, 0, 0, 0, 0, 0, 0, 0, 0, 0, 0, 4, 0, 1, 0, 0, 0, //
    1, 0, 0, 0, 0xd0, 7, 0, 0, 16, 0, 0, 0, 16, 0, 0, 0, //
    2, 0, 0, 0, 0, 1, 2, 0, 0, 0, 0, 2, 0x88, 0xb5, 1, 2,
];

/// A capture with these four bytes at an offset.
pub fn altered(mut capture: [u8; 56], at: usize, bytes: [u8; 4]) -> [u8; 56] {
    for (old, new) in capture.iter_mut().skip(at).zip(bytes) {
        *old = new;
    }
    capture
}

/// The frame of a capture, and behind it that of another.
pub fn two_frames(alloc: Global, first: &[u8; 56], second: &[u8; 56]) -> Result<Vec<u8>, Fail> {
    let mut capture = Vec::from_slice(alloc, first)?;
    capture.extend_from_slice(&second[24..])?;
    Ok(capture)
}

// Adds a record, low byte first, of a frame that was captured whole.
fn add_record(
    capture: &mut Vec<u8>,
    seconds: u32,
    fraction: u32,
    frame: &[u8],
) -> Result<(), Fail> {
    let len = u32::try_from(frame.len())?;
    for number in [seconds, fraction, len, len] {
        capture.extend_from_slice(&number.to_le_bytes())?;
    }
    capture.extend_from_slice(frame)?;
    Ok(())
}

/// These frames as they are emitted, all at second 1, microsecond 2.
pub fn emitted(alloc: Global, frames: &[&[u8]]) -> Result<Vec<u8>, Fail> {
    let mut capture = Vec::from_slice(alloc, &NANOS)?;
    for frame in frames {
        add_record(&mut capture, 1, 2000, frame)?;
    }
    Ok(capture)
}

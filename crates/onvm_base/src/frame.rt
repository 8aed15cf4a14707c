//! What a capture holds.

use crate::ids::FrameId;
use crate::list::ListOf;
use crate::packet::Packet;

/// When a frame was captured, and how much of it was not.
#[derive(Clone, Copy, Debug, PartialEq, Eq)]
pub struct Stamp {
    /// Seconds since 1970-01-01 00:00:00 UTC.
    pub seconds: u32,
    /// Nanoseconds of the second.
    pub nanos: u32,
    /// Bytes at the frame's end that were on the wire and not captured.
    pub tail: u32,
}

/// A captured frame.
#[derive(Debug, Drop)]
pub struct Frame {
    pub stamp: Stamp,
    pub packet: Packet,
}

pub type Frames = ListOf<Frame>;

/// A frame that was sent, with the bytes that it was sent with.
#[derive(Debug, Drop)]
pub struct SentFrame {
    pub frame: FrameId,
    pub stamp: Stamp,
    pub packet: Packet,
}

pub type SentFrames = ListOf<SentFrame>;

//! What a reader answers.

use onvm_base::Frame;

/// The first rule that a capture breaks. Offsets are in bytes from the capture's begin.
#[derive(Clone, Copy, Debug, PartialEq, Eq)]
pub enum PcapFault {
    /// It does not begin as a capture does.
    Magic,
    /// Its version is not 2.4.
    Version,
    /// Its link type is not 1, Ethernet.
    Link,
    /// It ends inside the header or the record that begins at this offset.
    Torn { at: u64 },
    /// The record at this offset has more bytes than a frame may have.
    TooLong { at: u64, len: u32 },
    /// The fraction of the record at this offset is a whole second or more.
    Fraction { at: u64 },
}

/// What a reader has for its caller.
#[derive(Debug, Drop)]
pub enum Pull {
    /// The next frame.
    Frame(Frame),
    /// The bytes fed end before the next frame does: feed more, or finish.
    More,
    /// The capture has ended between two records.
    End,
    /// The capture is faulty from here on.
    Bad(PcapFault),
}

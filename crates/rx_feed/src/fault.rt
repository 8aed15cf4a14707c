//! What stops a port.

use pcap_in::PcapFault;

/// Why no more frames of a feed come.
#[derive(Clone, Copy, Debug, PartialEq, Eq)]
pub enum FeedFault {
    /// A take of the source failed.
    Read,
    /// The capture is faulty.
    Capture(PcapFault),
    /// The next frame passes a limit of a port.
    TooMany,
}

//! What a function answers, and what becomes of a frame.

use crate::ids::{FnId, FrameId, RingId};
use crate::list::ListOf;

/// What a function answers for a packet, after OpenNetVM.
#[derive(Clone, Copy, Debug, PartialEq, Eq)]
pub enum Verdict {
    /// The frame ends here.
    Drop,
    /// On to the next step of the frame's chain.
    Next,
    /// On to a service, whatever the chain says.
    ToService(u8),
    /// Out of a port, whatever the chain says.
    Out(u8),
}

/// Why a frame was dropped after a function.
#[derive(Clone, Copy, Debug, PartialEq, Eq)]
pub enum Why {
    /// The function answered Drop.
    Asked,
    /// There was no next step.
    ChainEnd,
    /// No function offers the service.
    NoService,
    /// There is no such port.
    NoPort,
    /// As many functions as may handle one frame had handled it.
    Hops,
}

/// What became of a frame.
#[derive(Clone, Copy, Debug, PartialEq, Eq)]
pub enum Outcome {
    /// It left by this port.
    Sent(u8),
    /// It was dropped after this function.
    Dropped(FnId, Why),
    /// A feeder held it at the entry, because of its post of this number for this function.
    Throttled {
        feeder: u8,
        post: u32,
        function: FnId,
    },
    /// The ring that it was to go on to was full.
    RingFull {
        ring: RingId,
    },
    /// No buffer of its port was free.
    PoolEmpty,
}

/// A frame and what became of it.
#[derive(Clone, Copy, Debug, PartialEq, Eq)]
pub struct Record {
    pub frame: FrameId,
    pub outcome: Outcome,
}

pub type Records = ListOf<Record>;

//! The frames of a run as they enter.
use onvm_base::{ChainId, FrameId, ListOf, Packet, Stamp};

/// A frame with its chain and its flow hash.
#[derive(Debug, Drop)]
pub struct Entry {
    pub frame: FrameId,
    pub stamp: Stamp,
    pub packet: Packet,
    pub chain: ChainId,
    pub hash: u32,
}

/// Frames, those of each port in the order of their numbers.
pub type Entries = ListOf<Entry>;

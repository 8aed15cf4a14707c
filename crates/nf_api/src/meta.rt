//! What a function is told of a frame beside its bytes.

use onvm_base::{ChainId, FrameId, Stamp};

/// A frame at its arrival at a function.
#[derive(Clone, Copy, Debug, PartialEq, Eq)]
pub struct Meta {
    pub frame: FrameId,
    pub stamp: Stamp,
    pub chain: ChainId,
    /// How many functions have handled the frame before.
    pub hops: u8,
    /// The flow hash of the frame as it was captured.
    pub hash: u32,
}

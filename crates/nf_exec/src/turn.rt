//! The turns of a function, and how they ended.

use onvm_base::BufId;

/// How a function's turn ended.
#[derive(Clone, Copy, Debug, PartialEq, Eq)]
pub enum Turn {
    /// The function handled a frame.
    Handled,
    /// Its output ring had no room.
    Barred,
    /// No lane had a frame for it.
    Dry,
    /// It wanted memory for the frame of this buffer.
    Wanting(BufId),
}

/// What a function did in one pass.
#[derive(Clone, Copy, Debug, PartialEq, Eq)]
pub struct Service {
    /// How many frames it handled.
    pub handled: u32,
    /// How its last turn ended. Where it handled a frame, the budget is spent.
    pub last: Turn,
}

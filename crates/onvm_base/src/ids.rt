//! Numbers with names of their own.

/// A port, from 0 in the order of the captures.
#[derive(Clone, Copy, Debug, PartialEq, Eq)]
pub struct PortId(pub u8);

/// A function, from 0 in the order of the chain file.
#[derive(Clone, Copy, Debug, PartialEq, Eq)]
pub struct FnId(pub u8);

/// A chain, from 0 in the order of the chain file.
#[derive(Clone, Copy, Debug, PartialEq, Eq)]
pub struct ChainId(pub u8);

/// A buffer of the pool.
#[derive(Clone, Copy, Debug, PartialEq, Eq)]
pub struct BufId(pub u16);

/// A frame by the port that received it and its number there, from 1.
#[derive(Clone, Copy, Debug, PartialEq, Eq)]
pub struct FrameId {
    pub port: PortId,
    pub number: u32,
}

/// A ring of the board.
#[derive(Clone, Copy, Debug, PartialEq, Eq)]
pub enum RingId {
    /// Descriptors on their way to a function, from the feeder of this number.
    Lane(FnId, u8),
    /// Descriptors that a function has handled.
    Output(FnId),
    /// Samples of a function's work.
    Mail(FnId),
}

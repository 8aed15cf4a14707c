//! Steps, each by one role on one word of the board.
use crate::layout::Word;
use crate::parcel::Parcel;
use onvm_base::{BufId, Outcome, Record, RingId};

/// What stands in a ring.
#[derive(Debug, Drop)]
pub enum Item {
    /// In a lane or an output ring: a buffer with its parcel.
    Buffer(BufId, Parcel),
    /// In a mail ring.
    Number(u64),
}

/// One result of one operation on a word.
#[derive(Debug, Drop)]
pub enum Act {
    /// The first token gives a role away.
    Split(u32),
    /// The first token takes a role back.
    Join(u32),
    /// A buffer leaves the pool.
    Take(BufId),
    /// A buffer goes back to the pool, and what became of its parcel is recorded.
    Give(BufId, Outcome, Parcel),
    /// An item goes on a ring.
    Push(RingId, Item),
    /// A ring had no room.
    Full(RingId),
    /// An item comes off a ring.
    Pop(RingId, Item),
    /// A ring had no item.
    Empty(RingId),
    /// A word had this value, and what became of a frame is recorded, or nothing.
    Look(Word, u64, Option<Record>),
    /// A word has this value from now on.
    Post(Word, u64),
}

/// An act and the number of the role whose act it is.
#[derive(Debug, Drop)]
pub struct Step {
    pub role: u32,
    pub act: Act,
}

//! Where a frame goes.

use crate::ids::FnId;
use crate::outcome::Why;

/// Where a frame goes from the entry, or after a verdict.
#[derive(Clone, Copy, Debug, PartialEq, Eq)]
pub enum Move {
    /// To a function, with this cursor in its chain.
    To(FnId, u8),
    /// Out of a port.
    Leave(u8),
    /// Nowhere.
    End(Why),
}

//! Where a buffer is.
use onvm_base::RingId;

/// Where a buffer is.
#[derive(Clone, Copy, Debug, PartialEq, Eq)]
pub enum Place {
    Pool,
    /// In the content of a ring.
    Ring(RingId),
    /// In the hands of a role.
    Role(u32),
}

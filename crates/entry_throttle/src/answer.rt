//! What an entry check answers.

use onvm_base::FnId;

/// The answer of an entry check.
#[derive(Clone, Copy, Debug, PartialEq, Eq)]
pub enum Admit {
    /// The frame may enter.
    Go,
    /// It is held back by this feeder's post, for this function, the lowest one of its chain that
    /// is throttled.
    Hold {
        feeder: u8,
        post: u32,
        function: FnId,
    },
}

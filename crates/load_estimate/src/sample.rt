//! Samples of a function's work.

use onvm_base::{FnId, ListOf};

/// What a function did in one pass of its core.
#[derive(Clone, Copy, Debug, PartialEq, Eq)]
pub struct Sample {
    pub function: FnId,
    /// When it was logged, in nanoseconds.
    pub moment: u64,
    /// How many frames the function handled.
    pub count: u32,
    /// How long the first of them took, in nanoseconds.
    pub time: u64,
}

/// Samples in the order in which they were logged.
pub type Samples = ListOf<Sample>;

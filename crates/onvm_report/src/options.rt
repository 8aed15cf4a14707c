//! What the words of a command ask for.

/// How a run is made, and which parts its report has beside the summary.
#[derive(Clone, Copy, Debug, PartialEq, Eq)]
pub struct Options {
    /// One role after another, in rounds whose moments are made up.
    pub serial: bool,
    /// A line for each frame.
    pub records: bool,
    /// A line for each post.
    pub throttle_log: bool,
    /// Lines for each tick.
    pub shares: bool,
}

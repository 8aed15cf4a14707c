//! What a pass of a role answers.

/// What came of one pass of a role.
#[derive(Clone, Copy, Debug, PartialEq, Eq)]
pub enum Pass {
    /// So many frames got a block, were handled or were moved, or so many samples were taken and
    /// ticks made together; at least one.
    Did(u32),
    /// There was nothing to do.
    Idle,
    /// Memory was wanting, and the pass was cut short.
    Wanting,
    /// The port's capture can't be read to its end.
    Stopped,
}

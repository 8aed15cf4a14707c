//! What a run leaves to be told.

use load_estimate::Ticks;
use onvm_base::{Posts, Records};

/// What a report tells of. The lists come in whatever order the roles left them.
#[derive(Clone, Copy, Debug)]
pub struct Printed<'a> {
    /// The frames of all captures.
    pub frames: u64,
    /// How often a core found an output ring full and let its function wait.
    pub yields: u64,
    /// Samples that met a full ring.
    pub lost: u64,
    pub records: &'a Records,
    pub posts: &'a Posts,
    /// In the order of their numbers, each with a line for each function of the plan.
    pub ticks: &'a Ticks,
}

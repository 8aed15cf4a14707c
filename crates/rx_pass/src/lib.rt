//! One pass of a receive role: how frames come in.
//!
//! The frames of a port's feed are *pulled* as the pass wants them, a burst at most, and *wait* for
//! their *blocks*: each frame is held back by a post, or finds no buffer, or enters its chain by a
//! lane, or is turned back from a full one, or leaves at once; and each has its record, or its parcel
//! in a lane. Before the blocks stands a marks pass.
#![tactic(auto)]

mod inlet;
mod kept;
mod role;
mod room;
#[cfg(test)]
mod tests;

pub use role::RxRole;
pub use room::{RxKept, RxRoom};

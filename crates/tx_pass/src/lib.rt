//! One pass of a transmit role: a marks pass, and then a burst of frames of each of its output rings.
//!
//! A role *moves* each frame that it pops from an output ring by the verdict of the frame's last
//! function: on to the lane of another function, or out of the board with a record. A *room* is what
//! a role is made of, all its memory but that for records.
#![tactic(auto)]

mod drain;
mod kept;
mod outlet;
mod role;
mod room;
mod slot;
#[cfg(test)]
mod tests;

pub use onvm_promises::Pass;
pub use role::TxRole;
pub use room::{TxKept, TxRoom};

//! One pass of the tick role: it takes the samples that cores mailed, and makes a tick where one is
//! due.
//!
//! A *sample* that is taken gets the pass's moment, is *logged*, and goes in its function's window. A
//! *tick* judges all windows at its moment: it tells each function's share of its core, posts the
//! weights of the shares that are there, and is logged. The *closing* pass makes one whether it is
//! due or not.
#![tactic(auto)]

mod loads;
mod mailbox;
mod role;
mod room;
mod sample;
#[cfg(test)]
mod tests;
mod tick;
mod windows;

pub use role::TickRole;
pub use room::{TickKept, TickRoom};

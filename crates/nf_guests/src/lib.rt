//! Two small functions that a caller of a run can hand in.
//!
//! *Flip* changes the lowest bit of a packet's last byte, and counts the packets that it handled.
//! *Mirror* exchanges the two Ethernet addresses of a packet.
#![tactic(auto)]

mod flip;
mod mirror;
#[cfg(test)]
mod tests;

pub use flip::Flip;
pub use mirror::Mirror;

//! The functions that keep something between packets.
//!
//! A *counter* counts frames and bytes. A *policer* has a bucket of *tokens*, which grow with time,
//! and of which each byte that passes takes some. *NAT* assigns ports of one outside address to
//! senders inside: a *mapping* is an inside address and port with the outside port that stands for
//! them. A *segment* is what NAT reads of a packet: the IPv4 head with TCP's or UDP's ports.
#![tactic(auto)]

mod counter;
mod keeper;
pub mod laws;
mod mappings;
mod nat;
mod policer;
mod rewriting;
mod segment;
#[cfg(test)]
mod tests;

pub use counter::Counter;
pub use keeper::Keeper;
pub use mappings::{Endpoint, Mappings};
pub use nat::Nat;
pub use policer::{Bucket, Policer};
pub use segment::Segment;

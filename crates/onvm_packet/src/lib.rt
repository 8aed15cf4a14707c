//! What the bytes of a frame say, and edits of them.
//!
//! The *heads* of a frame are its type, the VLAN of its outer tag, its *network head* (of IPv4 or
//! IPv6) and the ports behind that. Its *flow* is what tells the packets of one exchange from
//! others: addresses, protocol and ports. An *edit* writes new bytes, with the checksum that covers
//! them, and leaves all others.
#![tactic(auto)]

mod checksum;
mod edits;
mod flow;
mod flow_key;
mod heads;
mod holding;
pub mod laws;
#[cfg(test)]
mod tests;
mod words;

pub use checksum::swap_word;
pub use edits::{pop_tag, push_tag, set_macs, set_ttl};
pub use flow::{FiveTuple, five_tuple, flow_hash};
pub use flow_key::{FlowEnds, FlowKey};
pub use heads::{ETHERNET_LEN, Heads, Net, TAG_LEN, is_tagged, network, parse, ttl};
pub use holding::holds;

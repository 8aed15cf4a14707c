//! Tests on a frame's heads, and rules that pick a chain by them.

use crate::ids::ChainId;
use crate::list::ListOf;

/// The addresses whose first bits are those of `address`. Bits past the length are ignored.
#[derive(Clone, Copy, Debug, PartialEq, Eq)]
pub enum Prefix {
    /// IPv4 addresses, by at most 32 bits.
    V4 { address: u32, length: u8 },
    /// IPv6 addresses, by at most 128 bits.
    V6 { address: u128, length: u8 },
}

/// What a frame is tested for. A test that is not there always holds.
#[derive(Clone, Copy, Debug, PartialEq, Eq)]
pub struct Tests {
    /// The port that received the frame.
    pub port: Option<u8>,
    /// The VLAN identifier of the outer tag (IEEE 802.1Q).
    pub vlan: Option<u16>,
    /// The EtherType, behind the outer tag if there is one.
    pub ethertype: Option<u16>,
    pub src: Option<Prefix>,
    pub dst: Option<Prefix>,
    /// The protocol of an IPv4 head, the next header of an IPv6 head.
    pub protocol: Option<u8>,
    /// The first and the last of the source ports.
    pub src_ports: Option<(u16, u16)>,
    /// The first and the last of the destination ports.
    pub dst_ports: Option<(u16, u16)>,
}

pub type TestsList = ListOf<Tests>;

/// A frame for which the tests hold takes the chain, if no earlier rule's tests hold.
#[derive(Clone, Copy, Debug, PartialEq, Eq)]
pub struct RulePlan {
    pub chain: ChainId,
    pub tests: Tests,
}

/// The rules in file order.
pub type Rules = ListOf<RulePlan>;

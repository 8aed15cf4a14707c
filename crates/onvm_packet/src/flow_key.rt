//! What rules can ask of a frame, as the key of a table.
ghost use Rattle.std.specs.Prelude.{◌≡◌};
ghost use Rattle.onvm_packet.specs.FlowKeys.{flow_ends_of, flow_key_of};

use crate::heads::{Heads, Net};
use onvm_base::PortId;

/// All that the tests of a rule can ask of a frame. What differs within a flow, the TTL or hop limit,
/// is left out. A five-tuple would not do: it takes no ports for ports 0.
#[derive(Clone, Copy, Debug, PartialEq, Eq, Hash)]
pub struct FlowKey {
    /// The number of the port that received the frame.
    pub port: u8,
    /// The VLAN of the outer tag.
    pub vlan: Option<u16>,
    /// The type, behind the outer tag if there is one.
    pub ethertype: Option<u16>,
    pub ends: FlowEnds,
    /// The source and the target port of TCP or UDP.
    pub ports: Option<(u16, u16)>,
}

/// What a network head says of a frame's flow, with its addresses as numbers.
#[derive(Clone, Copy, Debug, PartialEq, Eq, Hash)]
pub enum FlowEnds {
    /// Neither IPv4 nor IPv6.
    None,
    V4 {
        source: u32,
        target: u32,
        protocol: u8,
    },
    V6 {
        source: u128,
        target: u128,
        next: u8,
    },
}

impl FlowKey {
    /// The key of a frame with these heads that a port received.
    pub fn of(port: PortId, heads: &Heads) -> FlowKey
        ensures { result ≡ flow_key_of port heads.now }
    {
        FlowKey {
            port: port.0,
            vlan: heads.vlan,
            ethertype: heads.ethertype,
            ends: ends_of(&heads.net),
            ports: heads.ports,
        }
    }
}

fn ends_of(net: &Net) -> FlowEnds
    ensures { result ≡ flow_ends_of net.now }
{
    match *net {
        Net::None => FlowEnds::None,
        Net::V4 {
            source,
            target,
            protocol,
            ..
        } => FlowEnds::V4 {
            source,
            target,
            protocol,
        },
        Net::V6 {
            source,
            target,
            next,
            ..
        } => FlowEnds::V6 {
            source,
            target,
            next,
        },
    }
}

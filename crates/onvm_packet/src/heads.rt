//! The heads of a frame.
ghost use Rattle.std.specs.Prelude.{◌≡◌, ◌+◌, ◌<◌, ◌≤◌, length, IsTrue};
ghost use Rattle.onvm_packet.specs.Bytes.{number};
ghost use Rattle.onvm_packet.specs.Heads.{heads_of, is_tagged, type_at, net_of, net_at, ports_of, is_ipv4, is_ipv6, ipv4_at, ipv6_at, is_fragment, ports_at, ttl_of};
ghost use Rattle.onvm_packet.specs.HeadPlaces.{IsHeadPlace, IsHeadPlaceAt};

use crate::words::{u8_at, u16_at, u32_at, u128_at};
use onvm_base::MAX_VLAN;

/// The bytes of an Ethernet II head: two addresses and the type.
pub const ETHERNET_LEN: usize = 14;

/// The bytes of a tag of IEEE 802.1Q, its type included.
pub const TAG_LEN: usize = 4;

/// Where the type stands, or that of a tag.
pub(crate) const TYPE_AT: usize = 12;

// Where the tag stands, if there is one.
const TAG_AT: usize = 14;

// Where the type stands behind a tag.
const TAGGED_TYPE_AT: usize = 16;

// Where the network head begins behind a tag.
const TAGGED_LEN: usize = 18;

const TAG_TYPE: u16 = 0x8100;

const IPV4_TYPE: u16 = 0x0800;

const IPV6_TYPE: u16 = 0x86dd;

const TCP: u8 = 6;

const UDP: u8 = 17;

/// What the heads of a frame say.
#[derive(Clone, Copy, Debug, PartialEq, Eq)]
pub struct Heads {
    /// The VLAN of the outer tag.
    pub vlan: Option<u16>,
    /// The type, behind the outer tag if there is one.
    pub ethertype: Option<u16>,
    pub net: Net,
    /// The source and the target port of TCP or UDP.
    pub ports: Option<(u16, u16)>,
}

/// The network head, with its addresses as numbers.
#[derive(Clone, Copy, Debug, PartialEq, Eq)]
pub enum Net {
    /// Neither IPv4 nor IPv6, or not a whole header of it.
    None,
    /// IPv4, whose header begins at byte `at` of the frame.
    V4 {
        at: u32,
        source: u32,
        target: u32,
        protocol: u8,
        ttl: u8,
    },
    /// IPv6, whose header begins at byte `at` of the frame.
    V6 {
        at: u32,
        source: u128,
        target: u128,
        next: u8,
        hops: u8,
    },
}

// The version of a network head, and where it begins.
#[derive(Clone, Copy, Debug, PartialEq, Eq)]
pub(crate) enum HeadPlace {
    None,
    V4(usize),
    V6(usize),
}

/// Reads the heads of a frame.
pub fn parse(bytes: &[u8]) -> Heads
    ensures { result ≡ heads_of bytes.now }
{
    if bytes.len() < ETHERNET_LEN {
        return Heads {
            vlan: None,
            ethertype: None,
            net: Net::None,
            ports: None,
        };
    }
    if is_tagged(bytes) {
        let vlan = u16_at(bytes, TAG_AT) % (MAX_VLAN + 1);
        read_heads(Some(vlan), TAGGED_TYPE_AT, bytes)
    } else {
        read_heads(None, TYPE_AT, bytes)
    }
}

/// Reads the network head alone.
pub fn network(bytes: &[u8]) -> Net
    ensures { result ≡ net_of bytes.now }
{
    match locate(bytes) {
        HeadPlace::None => Net::None,
        HeadPlace::V4(at) => ipv4(at, bytes),
        HeadPlace::V6(at) => ipv6(at, bytes),
    }
}

/// Reads the TTL of an IPv4 head or the hop limit of an IPv6 head.
pub fn ttl(bytes: &[u8]) -> Option<u8>
    ensures { result ≡ ttl_of (net_of bytes.now) }
{
    match locate(bytes) {
        HeadPlace::None => None,
        HeadPlace::V4(at) => Some(u8_at(bytes, at + 8)),
        HeadPlace::V6(at) => Some(u8_at(bytes, at + 7)),
    }
}

// Where the network head begins.
pub(crate) fn locate(bytes: &[u8]) -> HeadPlace
    ensures { IsHeadPlace result bytes.now }
{
    if bytes.len() < ETHERNET_LEN {
        return HeadPlace::None;
    }
    let type_at = if is_tagged(bytes) {
        TAGGED_TYPE_AT
    } else {
        TYPE_AT
    };
    place_behind(u16_at(bytes, type_at), type_at + 2, bytes)
}

// Where the network head begins that stands at an offset, behind this type, if it is a whole one.
fn place_behind(ethertype: u16, at: usize, bytes: &[u8]) -> HeadPlace
    requires { at < 100 }
    ensures { IsHeadPlaceAt result ethertype at bytes.now }
{
    if ethertype == IPV4_TYPE && is_ipv4(at, bytes) {
        HeadPlace::V4(at)
    } else if ethertype == IPV6_TYPE && is_ipv6(at, bytes) {
        HeadPlace::V6(at)
    } else {
        HeadPlace::None
    }
}

/// Whether a tag, and a type behind it, follow the addresses.
pub fn is_tagged(bytes: &[u8]) -> bool
    ensures { result ≡ is_tagged bytes.now }
{
    bytes.len() >= TAGGED_LEN && u16_at(bytes, TYPE_AT) == TAG_TYPE
}

// The heads of a frame whose type stands at an offset.
fn read_heads(vlan: Option<u16>, at: usize, bytes: &[u8]) -> Heads
    requires place { at ≡ type_at bytes.now }
    requires whole { at + 2 ≤ length bytes.now }
    ensures { result ≡ record {
      vlan = vlan;
      ethertype = Some (number 2 (type_at bytes.now) bytes.now);
      net = net_of bytes.now;
      ports = ports_of (net_of bytes.now) bytes.now;
    } }
{
    let ethertype = u16_at(bytes, at);
    let (net, ports) = read_net(ethertype, at + 2, bytes);
    Heads {
        vlan,
        ethertype: Some(ethertype),
        net,
        ports,
    }
}

// The network head that begins at an offset, behind this type, and the ports behind it.
fn read_net(ethertype: u16, at: usize, bytes: &[u8]) -> (Net, Option<(u16, u16)>)
    requires { at < 100 }
    ensures net { result.0 ≡ net_at ethertype at bytes.now }
    ensures ports { result.1 ≡ ports_of (net_at ethertype at bytes.now) bytes.now }
{
    match place_behind(ethertype, at, bytes) {
        HeadPlace::None => (Net::None, None),
        HeadPlace::V4(at) => read_ipv4(at, bytes),
        HeadPlace::V6(at) => read_ipv6(at, bytes),
    }
}

// Whether a whole IPv4 header begins at an offset.
fn is_ipv4(at: usize, bytes: &[u8]) -> bool
    requires { at < 100 }
    ensures { result ≡ is_ipv4 at bytes.now }
{
    if bytes.len() < at + 20 {
        return false;
    }
    let words = bytes[at] % 16;
    bytes[at] / 16 == 4 && words >= 5 && at + 4 * words as usize <= bytes.len()
}

fn read_ipv4(at: usize, bytes: &[u8]) -> (Net, Option<(u16, u16)>)
    requires short { at < 100 }
    requires whole { IsTrue (is_ipv4 at bytes.now) }
    ensures net { result.0 ≡ ipv4_at at bytes.now }
    ensures ports { result.1 ≡ ports_of (ipv4_at at bytes.now) bytes.now }
{
    let words = bytes[at] % 16;
    let ports = if is_fragment(at, bytes) {
        None
    } else {
        read_ports(u8_at(bytes, at + 9), at + 4 * words as usize, bytes)
    };
    (ipv4(at, bytes), ports)
}

fn ipv4(at: usize, bytes: &[u8]) -> Net
    requires short { at < 100 }
    requires whole { at + 20 ≤ length bytes.now }
    ensures { result ≡ ipv4_at at bytes.now }
{
    Net::V4 {
        at: at as u32,
        source: u32_at(bytes, at + 12),
        target: u32_at(bytes, at + 16),
        protocol: u8_at(bytes, at + 9),
        ttl: u8_at(bytes, at + 8),
    }
}

// Whether the IPv4 header that begins at an offset is that of a fragment.
fn is_fragment(at: usize, bytes: &[u8]) -> bool
    requires short { at < 100 }
    requires whole { at + 20 ≤ length bytes.now }
    ensures { result ≡ is_fragment at bytes.now }
{
    u16_at(bytes, at + 6) % 16384 != 0
}

// Whether a whole IPv6 header begins at an offset.
fn is_ipv6(at: usize, bytes: &[u8]) -> bool
    requires { at < 100 }
    ensures { result ≡ is_ipv6 at bytes.now }
{
    bytes.len() >= at + 40 && bytes[at] / 16 == 6
}

fn read_ipv6(at: usize, bytes: &[u8]) -> (Net, Option<(u16, u16)>)
    requires short { at < 100 }
    requires whole { at + 40 ≤ length bytes.now }
    ensures net { result.0 ≡ ipv6_at at bytes.now }
    ensures ports { result.1 ≡ ports_of (ipv6_at at bytes.now) bytes.now }
{
    let ports = read_ports(u8_at(bytes, at + 6), at + 40, bytes);
    (ipv6(at, bytes), ports)
}

fn ipv6(at: usize, bytes: &[u8]) -> Net
    requires short { at < 100 }
    requires whole { at + 40 ≤ length bytes.now }
    ensures { result ≡ ipv6_at at bytes.now }
{
    Net::V6 {
        at: at as u32,
        source: u128_at(bytes, at + 8),
        target: u128_at(bytes, at + 24),
        next: u8_at(bytes, at + 6),
        hops: u8_at(bytes, at + 7),
    }
}

// The ports that stand at an offset behind a head of this protocol.
fn read_ports(protocol: u8, at: usize, bytes: &[u8]) -> Option<(u16, u16)>
    requires { at < 1000 }
    ensures { result ≡ ports_at protocol at bytes.now }
{
    if (protocol == TCP || protocol == UDP) && bytes.len() >= at + 4 {
        Some((u16_at(bytes, at), u16_at(bytes, at + 2)))
    } else {
        None
    }
}

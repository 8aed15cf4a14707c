//! Which frames the tests of a rule hold for.
ghost use Rattle.std.specs.Prelude.{◌≡◌, ◌==◌};
ghost use Rattle.onvm_base.specs.declared.limits.TheConstants.{IPV4_BITS, IPV6_BITS};
ghost use Rattle.onvm_packet.specs.Holding.{holds_if_asked, do_hold, has_source, has_source_port, has_target, has_target_port, is_from, is_part, protocol_of, same_front};

use crate::heads::{Heads, Net};
use onvm_base::{IPV4_BITS, IPV6_BITS, PortId, Prefix, Tests};

/// Whether each test that is there holds for a frame with these heads that a port received. A test
/// of a part that the frame hasn't got fails.
pub fn holds(tests: &Tests, port: PortId, heads: &Heads) -> bool
    ensures { result ≡ do_hold tests.now port heads.now }
{
    is_port(tests.port, port)
        && is_word(tests.vlan, heads.vlan)
        && is_word(tests.ethertype, heads.ethertype)
        && is_source(tests.src, &heads.net)
        && is_target(tests.dst, &heads.net)
        && is_protocol(tests.protocol, &heads.net)
        && is_source_port(tests.src_ports, heads.ports)
        && is_target_port(tests.dst_ports, heads.ports)
}

fn is_port(wanted: Option<u8>, port: PortId) -> bool
    ensures { result ≡ holds_if_asked wanted (λ wanted. port.0 == wanted) }
{
    match wanted {
        Some(wanted) => port.0 == wanted,
        None => true,
    }
}

fn is_word(wanted: Option<u16>, part: Option<u16>) -> bool
    ensures { result ≡ holds_if_asked wanted (is_part part) }
{
    match (wanted, part) {
        (Some(wanted), Some(part)) => part == wanted,
        (Some(_), None) => false,
        (None, _) => true,
    }
}

fn is_protocol(wanted: Option<u8>, net: &Net) -> bool
    ensures { result ≡ holds_if_asked wanted (is_part (protocol_of net.now)) }
{
    match (wanted, *net) {
        (None, _) => true,
        (Some(_), Net::None) => false,
        (Some(wanted), Net::V4 { protocol, .. }) => protocol == wanted,
        (Some(wanted), Net::V6 { next, .. }) => next == wanted,
    }
}

fn is_source(wanted: Option<Prefix>, net: &Net) -> bool
    ensures { result ≡ holds_if_asked wanted (has_source net.now) }
{
    match wanted {
        Some(wanted) => has_source(net, wanted),
        None => true,
    }
}

fn is_target(wanted: Option<Prefix>, net: &Net) -> bool
    ensures { result ≡ holds_if_asked wanted (has_target net.now) }
{
    match wanted {
        Some(wanted) => has_target(net, wanted),
        None => true,
    }
}

fn has_source(net: &Net, wanted: Prefix) -> bool
    ensures { result ≡ has_source net.now wanted }
{
    match (*net, wanted) {
        (Net::V4 { source, .. }, Prefix::V4 { address, length }) => {
            same_front_v4(length, source, address)
        }
        (Net::V6 { source, .. }, Prefix::V6 { address, length }) => {
            same_front_v6(length, source, address)
        }
        _ => false,
    }
}

fn has_target(net: &Net, wanted: Prefix) -> bool
    ensures { result ≡ has_target net.now wanted }
{
    match (*net, wanted) {
        (Net::V4 { target, .. }, Prefix::V4 { address, length }) => {
            same_front_v4(length, target, address)
        }
        (Net::V6 { target, .. }, Prefix::V6 { address, length }) => {
            same_front_v6(length, target, address)
        }
        _ => false,
    }
}

// Whether two addresses have the same first bits.
fn same_front_v4(length: u8, a: u32, b: u32) -> bool
    ensures { result ≡ same_front IPV4_BITS length a b }
{
    let free = IPV4_BITS.saturating_sub(length);
    u64::from(a) >> free == u64::from(b) >> free
}

fn same_front_v6(length: u8, a: u128, b: u128) -> bool
    ensures { result ≡ same_front IPV6_BITS length a b }
{
    let free = IPV6_BITS.saturating_sub(length);
    free == IPV6_BITS || a >> free == b >> free
}

fn is_source_port(wanted: Option<(u16, u16)>, ports: Option<(u16, u16)>) -> bool
    ensures { result ≡ holds_if_asked wanted (has_source_port ports) }
{
    match (wanted, ports) {
        (Some(range), Some((source, _))) => is_from(range, source),
        (Some(_), None) => false,
        (None, _) => true,
    }
}

fn is_target_port(wanted: Option<(u16, u16)>, ports: Option<(u16, u16)>) -> bool
    ensures { result ≡ holds_if_asked wanted (has_target_port ports) }
{
    match (wanted, ports) {
        (Some(range), Some((_, target))) => is_from(range, target),
        (Some(_), None) => false,
        (None, _) => true,
    }
}

// Whether a number is in a range, ends included.
fn is_from(range: (u16, u16), number: u16) -> bool
    ensures { result ≡ is_from range number }
{
    range.0 <= number && number <= range.1
}

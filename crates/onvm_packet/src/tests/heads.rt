//! Each rule on heads, at its edge.

use super::frames::{SHORT, TAGGED, UDP, UDP_V6};
use crate::{Heads, Net, five_tuple, flow_hash, parse};

const NO_HEADS: Heads = Heads {
    vlan: None,
    ethertype: None,
    net: Net::None,
    ports: None,
};

const UDP_NET: Net = Net::V4 {
    at: 14,
    source: 0x0a00_000e,
    target: 0x0a01_0001,
    protocol: 17,
    ttl: 64,
};

const UDP_V6_NET: Net = Net::V6 {
    at: 14,
    source: 0x2001_0db8_0000_0000_0000_0000_0000_0001,
    target: 0x2001_0db8_0000_0000_0000_0000_0000_0002,
    next: 17,
    hops: 64,
};

#[test]
fn heads_begin_with_fourteen_bytes(rt: HostRuntime) {
    assert_eq!(rt; parse(&[]), NO_HEADS);
    assert_eq!(rt; parse(&UDP[..13]), NO_HEADS);
    let typed = Heads {
        ethertype: Some(0x0800),
        ..NO_HEADS
    };
    assert_eq!(rt; parse(&UDP[..14]), typed);
}

#[test]
fn a_tag_is_read_of_eighteen_bytes_and_only_the_outer_one(rt: HostRuntime) {
    let tagged = Heads {
        vlan: Some(5),
        ethertype: Some(0x88b5),
        ..NO_HEADS
    };
    assert_eq!(rt; parse(&TAGGED), tagged);
    assert_eq!(rt; parse(&TAGGED[..18]), tagged);
    let cut = Heads {
        ethertype: Some(0x8100),
        ..NO_HEADS
    };
    assert_eq!(rt; parse(&TAGGED[..17]), cut);
    let mut twice = TAGGED;
    twice[16] = 0x81;
    twice[17] = 0;
    let outer = Heads {
        vlan: Some(5),
        ..cut
    };
    assert_eq!(rt; parse(&twice), outer);
}

#[test]
fn an_ipv4_head_is_whole_and_ports_stand_behind_its_options(rt: HostRuntime) {
    // A byte that is altered, the length to which the frame is cut, and what is read then.
    for (at, byte, len, net, ports) in [
        (14, 0x45, 42, true, Some((10014, 9))),
        (14, 0x65, 42, false, None),
        (14, 0x44, 42, false, None),
        (14, 0x46, 42, true, Some((0x038a, 0))), // options of four bytes
        (14, 0x47, 42, true, None), // options to the frame's end
        (14, 0x48, 42, false, None), // a header cut short
        (20, 0x40, 42, true, Some((10014, 9))), // may not be fragmented
        (20, 0x20, 42, true, None), // more fragments
        (20, 0x10, 42, true, None), // an offset
        (21, 0x01, 42, true, None),
        (14, 0x45, 38, true, Some((10014, 9))),
        (14, 0x45, 37, true, None), // ports cut off
        (14, 0x45, 34, true, None),
        (14, 0x45, 33, false, None),
    ] {
        let mut frame = UDP;
        if let Some(altered) = frame.get_mut(at) {
            *altered = byte;
        }
        let heads = Heads {
            vlan: None,
            ethertype: Some(0x0800),
            net: if net { UDP_NET } else { Net::None },
            ports,
        };
        assert_eq!(rt;
            parse(frame.get(..len).unwrap_or(&[])),
            heads,
            "{at} {byte} {len}"
        );
    }
}

#[test]
fn ports_are_those_of_tcp_and_udp(rt: HostRuntime) {
    for (number, ports) in [(6, true), (17, true), (1, false), (7, false), (132, false)] {
        let mut frame = UDP;
        frame[23] = number;
        assert_eq!(rt; parse(&frame).ports.is_some(), ports, "{number}");
    }
    // A hop by hop, a fragment and no next header.
    for (number, ports) in [(6, true), (17, true), (0, false), (44, false), (59, false)] {
        let mut frame = UDP_V6;
        frame[20] = number;
        assert_eq!(rt; parse(&frame).ports.is_some(), ports, "{number}");
    }
}

#[test]
fn an_ipv6_head_has_forty_bytes(rt: HostRuntime) {
    for (first, len, net, ports) in [
        (0x60, 58, true, Some((8080, 53))),
        (0x60, 57, true, None),
        (0x60, 54, true, None),
        (0x60, 53, false, None),
        (0x45, 58, false, None),
    ] {
        let mut frame = UDP_V6;
        frame[14] = first;
        let heads = Heads {
            vlan: None,
            ethertype: Some(0x86dd),
            net: if net { UDP_V6_NET } else { Net::None },
            ports,
        };
        assert_eq!(rt;
            parse(frame.get(..len).unwrap_or(&[])),
            heads,
            "{first} {len}"
        );
    }
}

// The hashes were computed by another program.
#[test]
fn a_flow_is_hashed_by_its_version_addresses_protocol_and_ports(rt: HostRuntime) {
    assert_eq!(rt; flow_hash(&parse(&SHORT)), 84_696_351);
    assert_eq!(rt; flow_hash(&NO_HEADS), 0x050c_5d1f);
    assert_eq!(rt; flow_hash(&parse(&UDP)), 771_728_794);
    let mut fragment = UDP;
    fragment[20] = 0x20;
    assert_eq!(rt; flow_hash(&parse(&fragment)), 497_727_740);
    assert_eq!(rt; flow_hash(&parse(&UDP_V6)), 3_034_489_075);
    assert!(rt; five_tuple(&NO_HEADS).is_none());
}

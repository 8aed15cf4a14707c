//! Tests of a rule, each alone.

use super::frames::{SHORT, TAGGED, UDP, UDP_V6};
use crate::{holds, parse};
use onvm_base::{PortId, Prefix, Tests};

const NO_TESTS: Tests = Tests {
    port: None,
    vlan: None,
    ethertype: None,
    src: None,
    dst: None,
    protocol: None,
    src_ports: None,
    dst_ports: None,
};

// The frames that a test holds for, of SHORT, TAGGED, UDP and UDP_V6, received by port 1.
fn held(tests: &Tests) -> (bool, bool, bool, bool) {
    (
        holds(tests, PortId(1), &parse(&SHORT)),
        holds(tests, PortId(1), &parse(&TAGGED)),
        holds(tests, PortId(1), &parse(&UDP)),
        holds(tests, PortId(1), &parse(&UDP_V6)),
    )
}

#[test]
fn a_test_of_a_part_that_is_not_there_fails(rt: HostRuntime) {
    assert_eq!(rt; held(&NO_TESTS), (true, true, true, true));
    let port = Tests {
        port: Some(1),
        ..NO_TESTS
    };
    assert_eq!(rt; held(&port), (true, true, true, true));
    let port = Tests {
        port: Some(0),
        ..NO_TESTS
    };
    assert_eq!(rt; held(&port), (false, false, false, false));
    let vlan = Tests {
        vlan: Some(5),
        ..NO_TESTS
    };
    assert_eq!(rt; held(&vlan), (false, true, false, false));
    let vlan = Tests {
        vlan: Some(0),
        ..NO_TESTS
    };
    assert_eq!(rt; held(&vlan), (false, false, false, false));
    let ethertype = Tests {
        ethertype: Some(0x88b5),
        ..NO_TESTS
    };
    assert_eq!(rt; held(&ethertype), (true, true, false, false));
    let protocol = Tests {
        protocol: Some(17),
        ..NO_TESTS
    };
    assert_eq!(rt; held(&protocol), (false, false, true, true));
    let protocol = Tests {
        protocol: Some(0),
        ..NO_TESTS
    };
    assert_eq!(rt; held(&protocol), (false, false, false, false));
    let ports = Tests {
        src_ports: Some((0, 65535)),
        ..NO_TESTS
    };
    assert_eq!(rt; held(&ports), (false, false, true, true));
}

#[test]
fn a_range_has_its_ends(rt: HostRuntime) {
    for (first, last, udp, udp_v6) in [
        (53, 53, false, true),
        (9, 53, true, true),
        (10, 52, false, false),
        (0, 9, true, false),
    ] {
        let ports = Tests {
            dst_ports: Some((first, last)),
            ..NO_TESTS
        };
        assert_eq!(rt; held(&ports), (false, false, udp, udp_v6), "{first} {last}");
    }
}

#[test]
fn a_prefix_has_the_addresses_of_its_version_alone(rt: HostRuntime) {
    for (address, length, udp) in [
        (0, 0, true),
        (0x0a00_000e, 32, true),
        (0x0a00_000f, 32, false),
        (0x0a00_000f, 31, true),
        (0x0aff_ffff, 8, true),
        (0x0b00_0000, 8, false),
        (0x0b00_0000, 7, true),
    ] {
        let src = Tests {
            src: Some(Prefix::V4 { address, length }),
            ..NO_TESTS
        };
        assert_eq!(rt;
            held(&src),
            (false, false, udp, false),
            "{address} {length}"
        );
    }
    let here: u128 = 0x2001_0db8_0000_0000_0000_0000_0000_0002;
    for (address, length, udp_v6) in [
        (0, 0, true),
        (here, 128, true),
        (here + 1, 128, false),
        (here + 1, 127, true),
        (0, 1, true),
        (0, 3, false),
    ] {
        let dst = Tests {
            dst: Some(Prefix::V6 { address, length }),
            ..NO_TESTS
        };
        assert_eq!(rt;
            held(&dst),
            (false, false, false, udp_v6),
            "{address} {length}"
        );
    }
}

//! Rules that were written out.

use crate::{Compiled, first};
use onvm_base::{ChainId, ListOf, NoMemory, PortId, Prefix, RulePlan, Rules, Tests};
use onvm_packet::{Heads, Net};
use std::alloc::Global;
use std::test::Fail;

const NO_TESTS: Tests = Tests {
    port: None,
    vlan: None,
    ethertype: None,
    src: None,
    dst: None,
    protocol: None,
    src_ports: None,
    dst_ports: None,
};

const UDP: Heads = Heads {
    vlan: None,
    ethertype: Some(0x0800),
    net: Net::V4 {
        at: 14,
        source: 0x0a00_000e,
        target: 0x0a01_0001,
        protocol: 17,
        ttl: 64,
    },
    ports: Some((10014, 9)),
};

#[test]
fn the_first_rule_that_holds_picks_the_chain(rt: HostRuntime) -> Result<(), Fail> {
    let mut rules = ListOf::make(rt.alloc());
    assert_eq!(rt; first(&rules, PortId(0), &UDP), None);
    rules.push(RulePlan {
        chain: ChainId(3),
        tests: Tests {
            port: Some(1),
            ..NO_TESTS
        },
    })?;
    assert_eq!(rt; first(&rules, PortId(0), &UDP), None);
    assert_eq!(rt; first(&rules, PortId(1), &UDP), Some(ChainId(3)));
    let dst = Prefix::V4 {
        address: 0x0a01_0000,
        length: 16,
    };
    rules.push(RulePlan {
        chain: ChainId(0),
        tests: Tests {
            dst: Some(dst),
            dst_ports: Some((1, 9)),
            ..NO_TESTS
        },
    })?;
    rules.push(RulePlan {
        chain: ChainId(2),
        tests: NO_TESTS,
    })?;
    assert_eq!(rt; first(&rules, PortId(0), &UDP), Some(ChainId(0)));
    assert_eq!(rt; first(&rules, PortId(1), &UDP), Some(ChainId(3)));
    let other = Heads {
        ports: Some((10014, 10)),
        ..UDP
    };
    assert_eq!(rt; first(&rules, PortId(0), &other), Some(ChainId(2)));
    Ok(())
}

fn frame(vlan: Option<u16>, ethertype: Option<u16>) -> Heads {
    Heads {
        vlan,
        ethertype,
        net: Net::None,
        ports: None,
    }
}

// VLAN 5; IPv4; port 2; IPv6; every frame; and one that no frame is left for.
fn listed_rules(alloc: Global) -> Result<Rules, NoMemory> {
    let vlan = Tests {
        vlan: Some(5),
        ..NO_TESTS
    };
    let port = Tests {
        port: Some(2),
        ..NO_TESTS
    };
    let mut rules = ListOf::make(alloc);
    let all = [
        vlan,
        of_type(0x0800),
        port,
        of_type(0x86dd),
        NO_TESTS,
        of_type(0x88b5),
    ];
    for (chain, tests) in (1..).zip(all) {
        rules.push(RulePlan {
            chain: ChainId(chain),
            tests,
        })?;
    }
    Ok(rules)
}

fn of_type(ethertype: u16) -> Tests {
    Tests {
        ethertype: Some(ethertype),
        ..NO_TESTS
    }
}

#[test]
fn compiled_rules_keep_the_files_order_across_their_lists(rt: HostRuntime) -> Result<(), Fail> {
    let rules = listed_rules(rt.alloc())?;
    let compiled = Compiled::make(rt.alloc(), &rules)?;
    let cases = [
        (0, frame(None, Some(0x0800)), 2),
        (0, frame(Some(5), Some(0x0800)), 1),
        (0, frame(None, Some(0x86dd)), 4),
        (2, frame(None, Some(0x86dd)), 3),
        (2, frame(None, Some(0x0800)), 2),
        (0, frame(None, Some(0x88b5)), 5),
        (3, frame(None, Some(0x0806)), 5),
        (0, frame(None, None), 5),
        (200, frame(None, Some(0x86dd)), 4),
    ];
    for (port, heads, chain) in cases {
        assert_eq!(rt; compiled.first(PortId(port), &heads), Some(ChainId(chain)));
    }
    Ok(())
}

#[test]
fn compiled_rules_pick_nothing_where_none_holds(rt: HostRuntime) -> Result<(), Fail> {
    let mut rules = ListOf::make(rt.alloc());
    let none = Compiled::make(rt.alloc(), &rules)?;
    assert_eq!(rt; none.first(PortId(0), &UDP), None);
    rules.push(RulePlan {
        chain: ChainId(0),
        tests: of_type(0x86dd),
    })?;
    let other = Compiled::make(rt.alloc(), &rules)?;
    assert_eq!(rt; other.first(PortId(0), &UDP), None);
    Ok(())
}

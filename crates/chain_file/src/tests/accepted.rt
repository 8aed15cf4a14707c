//! What a file is read as.

use crate::read;
use onvm_base::{ChainId, ChainStep, Kind, Prefix};
use std::test::Fail;

// One chain of one function, which forwards, and then out of port 0.
const FORWARDING: &[u8] =
    br#"{"version":1,"ports":1,"functions":[{"name":"f","service":1,"core":0,"kind":"forward"}],"chains":[{"name":"a","steps":[{"to":1},{"out":0}]}],"default":"a"}"#;

#[test]
fn keys_that_are_not_there_have_their_defaults(rt: HostRuntime) -> Result<(), Fail> {
    let plan = read(rt.alloc(), FORWARDING, 1, &[])?;
    assert_eq!(rt; (plan.transmit, plan.cores, plan.buffers), (1, 1, 1024));
    assert_eq!(rt; (plan.ring, plan.output, plan.burst), (128, 128, 32));
    assert_eq!(rt; (plan.high, plan.low), (96, 32));
    assert_eq!(rt;
        (plan.age, plan.window, plan.tick),
        (100_000, 100_000_000, 10_000_000)
    );
    let f = &plan.functions.as_slice()[0];
    assert_eq!(rt; (f.priority, f.weight, f.cost), (1, 1024, 100));
    assert!(rt; plan.rules.is_empty());
    Ok(())
}

#[test]
fn the_last_of_a_repeated_key_counts(rt: HostRuntime) -> Result<(), Fail> {
    let text =
        br#"{"ports":9,"version":1,"ring":8,"ports":2,"functions":[{"name":"f","service":1,"core":0,"kind":"forward"}],"chains":[{"name":"a","steps":[{"out":1}]}],"default":"a","ring":16}"#;
    let plan = read(rt.alloc(), text, 2, &[])?;
    assert_eq!(rt; (plan.ports, plan.ring, plan.output), (2, 16, 16));
    assert_eq!(rt;
        plan.chains.as_slice()[0].steps.as_slice(),
        [ChainStep::Out(1)].as_slice()
    );
    Ok(())
}

#[test]
fn prefixes_of_both_versions_and_names_of_chains(rt: HostRuntime) -> Result<(), Fail> {
    let text =
        br#"{"version":1,"ports":1,"functions":[{"name":"f","service":255,"core":0,"kind":"route","table":[{"prefix":"10.0.0.0/8","out":0},{"prefix":"10.1.0.0/16","to":9}]}],"chains":[{"name":"a","steps":[{"to":255}]},{"name":"b-_9","steps":[{"out":0},{"to":255}]}],"rules":[{"chain":"b-_9","match":{"src":"20010db8000000000000000000000001/128","dst_ports":[80,443]}}],"default":"b-_9"}"#;
    let plan = read(rt.alloc(), text, 0, &[])?;
    match &plan.functions.as_slice()[0].kind {
        Kind::Route { table } => {
            let long = table.as_slice().get(1).expect(&rt, "no second entry");
            assert_eq!(rt;
                long.prefix,
                Prefix::V4 {
                    address: 0x0a01_0000,
                    length: 16
                }
            );
            assert_eq!(rt; long.target, ChainStep::To(9));
        }
        _ => assert!(rt; false, "no route"),
    }
    let rule = plan.rules.as_slice().first().expect(&rt, "no rule");
    assert_eq!(rt; (rule.chain, plan.default), (ChainId(1), ChainId(1)));
    assert_eq!(rt;
        rule.tests.src,
        Some(Prefix::V6 {
            address: 0x2001_0db8_0000_0000_0000_0000_0000_0001,
            length: 128
        })
    );
    assert_eq!(rt; rule.tests.dst_ports, Some((80, 443)));
    Ok(())
}

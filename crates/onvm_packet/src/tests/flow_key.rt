//! Keys in a table.

use super::frames::UDP;
use crate::{FlowKey, Heads, parse};
use onvm_base::PortId;
use std::collections::HashMap;
use std::test::Fail;

#[test]
fn another_ttl_has_the_same_key_and_ports_0_another(rt: HostRuntime) -> Result<(), Fail> {
    let mut chains = HashMap::new(rt.alloc());
    let heads = parse(&UDP);
    chains.insert(FlowKey::of(PortId(1), &heads), 7u8)?;
    let mut hopped = UDP;
    hopped[22] = 63;
    let key = FlowKey::of(PortId(1), &parse(&hopped));
    assert_eq!(rt; chains.get(&key).copied(), Some(7));
    let zero = Heads {
        ports: Some((0, 0)),
        ..heads
    };
    let none = Heads {
        ports: None,
        ..heads
    };
    chains.insert(FlowKey::of(PortId(1), &zero), 8)?;
    assert_eq!(rt; chains.get(&FlowKey::of(PortId(1), &none)).copied(), None);
    assert_eq!(rt; chains.get(&FlowKey::of(PortId(2), &heads)).copied(), None);
    Ok(())
}

//! Chains of frames whose rules were written out.
ghost use Rattle.std.specs.Prelude.{◌≡◌, ◌≤◌, ◌<◌, All, IfOk, length};
ghost use Rattle.onvm_base.specs.Plan.{AreTests, IsRule};
ghost use Rattle.flow_table.specs.Examples.{one_function, two_chains};

use crate::{FlowTable, MAX_FLOWS};
use onvm_base::{
    ChainId, ChainList, ChainPlan, ChainStep, FunctionList, FunctionPlan, Kind, ListOf, Name,
    NoMemory, Plan, PortId, RulePlan, Rules, Tests,
};
use onvm_packet::{Heads, Net};
use std::alloc::Global;
use std::process::Abort;
use std::test::Fail;

const NO_TESTS: Tests = Tests {
    port: None,
    vlan: None,
    ethertype: None,
    src: None,
    dst: None,
    protocol: None,
    src_ports: None,
    dst_ports: None,
};

// A rule that picks chain 1.
fn rule(tests: Tests) -> RulePlan
    requires { AreTests tests }
    ensures { IsRule 2 result }
{
    RulePlan {
        chain: ChainId(1),
        tests,
    }
}

// VLAN 5; IPv4 to port 0; at port 1 from ports up to 511.
fn rules(alloc: Global) -> Result<Rules, NoMemory>
    ensures count { IfOk result (λ rules. length rules ≤ 256) }
    ensures are { IfOk result (λ rules. All (IsRule 2) rules) }
{
    let vlan = rule(Tests {
        vlan: Some(5),
        ..NO_TESTS
    });
    let target = rule(Tests {
        ethertype: Some(0x0800),
        dst_ports: Some((0, 0)),
        ..NO_TESTS
    });
    let source = rule(Tests {
        port: Some(1),
        src_ports: Some((0, 511)),
        ..NO_TESTS
    });
    ListOf::from_slice(alloc, &[vlan, target, source])
}

fn functions(alloc: Global) -> Result<FunctionList, NoMemory>
    ensures { IfOk result (λ functions. functions ≡ one_function) }
{
    let mut functions = ListOf::make(alloc);
    functions.push(FunctionPlan {
        name: Name::from_slice(alloc, b"f")?,
        service: 1,
        core: 0,
        kind: Kind::Forward,
        priority: 1,
        weight: 1024,
        cost: 100,
    })?;
    Ok(functions)
}

fn chains(alloc: Global) -> Result<ChainList, NoMemory>
    ensures { IfOk result (λ chains. chains ≡ two_chains) }
{
    let mut chains = ListOf::make(alloc);
    chains.push(ChainPlan {
        name: Name::from_slice(alloc, b"a")?,
        steps: ListOf::from_slice(alloc, &[ChainStep::Out(0)])?,
    })?;
    chains.push(ChainPlan {
        name: Name::from_slice(alloc, b"b")?,
        steps: ListOf::from_slice(alloc, &[ChainStep::Out(0)])?,
    })?;
    Ok(chains)
}

// A plan of chains 0 and 1.
fn plan(alloc: Global, rules: Rules, default: ChainId) -> Result<Plan, NoMemory>
    requires count { length rules ≤ 256 }
    requires are { All (IsRule 2) rules }
    requires default { default.0 < 2 }
{
    let functions = functions(alloc)?;
    let chains = chains(alloc)?;
    Ok(Plan {
        version: 1,
        ports: 2,
        transmit: 1,
        cores: 1,
        buffers: 1024,
        ring: 128,
        output: 128,
        burst: 32,
        high: 96,
        low: 32,
        age: 100_000,
        window: 100_000_000,
        tick: 10_000_000,
        functions,
        chains,
        rules,
        default,
    })
}

fn udp(vlan: Option<u16>, ports: Option<(u16, u16)>) -> Heads {
    Heads {
        vlan,
        ethertype: Some(0x0800),
        net: Net::V4 {
            at: 14,
            source: 0x0a00_000e,
            target: 0x0a01_0001,
            protocol: 17,
            ttl: 64,
        },
        ports,
    }
}

#[test]
fn no_ports_and_ports_0_are_two_flows(rt: HostRuntime) -> Result<(), Fail> {
    let rules = rules(rt.alloc())?;
    let plan = plan(rt.alloc(), rules, ChainId(0))?;
    let mut table = FlowTable::make(rt.alloc(), &plan, PortId(0))?;
    let whole = udp(None, Some((0, 0)));
    let fragment = udp(None, None);
    assert_eq!(rt; table.chain(&plan, &whole), ChainId(1));
    assert_eq!(rt; table.chain(&plan, &fragment), ChainId(0));
    assert_eq!(rt; table.chain(&plan, &whole), ChainId(1));
    assert_eq!(rt; table.chain(&plan, &fragment), ChainId(0));
    Ok(())
}

#[test]
fn a_vlan_tells_flows_apart(rt: HostRuntime) -> Result<(), Fail> {
    let rules = rules(rt.alloc())?;
    let plan = plan(rt.alloc(), rules, ChainId(0))?;
    let mut table = FlowTable::make(rt.alloc(), &plan, PortId(0))?;
    assert_eq!(rt; table.chain(&plan, &udp(Some(6), Some((9, 9)))), ChainId(0));
    assert_eq!(rt; table.chain(&plan, &udp(Some(5), Some((9, 9)))), ChainId(1));
    assert_eq!(rt; table.chain(&plan, &udp(Some(6), Some((9, 9)))), ChainId(0));
    assert_eq!(rt; table.chain(&plan, &udp(None, Some((9, 9)))), ChainId(0));
    Ok(())
}

// Asks for a frame of each of 1,025 flows.
fn ask_for_all(rt: &impl Abort, table: &mut FlowTable, plan: &Plan)
    requires { table.old.rules ≡ plan.now.rules }
    ensures { table.new ≡ table.old }
{
    for source in 0..=MAX_FLOWS as u16 {
        let expected = if source <= 511 {
            ChainId(1)
        } else {
            ChainId(0)
        };
        let found = table.chain(plan, &udp(None, Some((source, 9))));
        assert_eq!(rt; found, expected);
    }
}

#[test]
fn flows_that_were_pushed_out_keep_their_chains(rt: HostRuntime) -> Result<(), Fail> {
    let rules = rules(rt.alloc())?;
    let plan = plan(rt.alloc(), rules, ChainId(0))?;
    let mut table = FlowTable::make(rt.alloc(), &plan, PortId(1))?;
    ask_for_all(&rt, &mut table, &plan);
    ask_for_all(&rt, &mut table, &plan);
    Ok(())
}

fn may_be_handed_over<T: Send>(_value: &T) {}

// A table goes to the thread of its receive role.
fn hand_over(table: &FlowTable) {
    may_be_handed_over(table);
}

#[test]
fn without_rules_each_frame_takes_the_default_chain(rt: HostRuntime) -> Result<(), Fail> {
    let plan = plan(rt.alloc(), ListOf::make(rt.alloc()), ChainId(1))?;
    let mut table = FlowTable::make(rt.alloc(), &plan, PortId(0))?;
    assert_eq!(rt; table.chain(&plan, &udp(Some(5), Some((0, 0)))), ChainId(1));
    hand_over(&table);
    Ok(())
}

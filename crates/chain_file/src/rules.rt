//! The rules, and the default chain.
ghost use Rattle.std.specs.Prelude.{◌≡◌, ◌≤◌, ◌<◌, ℕ, IfOk, IfErr, None, map, length, codes};
ghost use Rattle.serde_json.specs.Find.{get};
ghost use Rattle.onvm_base.specs.declared.limits.TheConstants.{MAX_CHAINS, MAX_RULES};
ghost use Rattle.serde_json.specs.View.{view};
ghost use Rattle.chain_file.specs.Matches.{tests_in};
ghost use Rattle.chain_file.specs.Rules as spec;
ghost use Rattle.chain_file.specs.Values.{must, under};
ghost use Rattle.chain_file.specs.File.{Tells, TellsFirst, rule_place, default_place, rules_of, rule_cause_at};

use crate::chains::place_of;
use crate::fault::{Cause, FileFault, Part, Place};
use crate::judged::{Judged, first_of};
use crate::tests_of::tests_in;
use crate::values::{is_name, items, only, text};
use onvm_base::{ChainId, ChainPlan, RulePlan, Rules, Tests};
use serde_json::Value;
use std::alloc::Global;

/// The rules of a file with these chains, or the first fault of one.
pub fn rules(alloc: Global, tree: &Value, chains: &[ChainPlan]) -> Result<Rules, FileFault>
    requires few { length (under (codes "rules") (view tree.now)) ≤ MAX_RULES }
    requires chains { length chains.now ≤ MAX_CHAINS }
    ensures all { IfOk result (λ list. list ≡ rules_of chains.now (under (codes "rules") (view tree.now))) }
    ensures right { IfOk result (λ _. (k : ℕ)
        → rule_cause_at chains.now (under (codes "rules") (view tree.now)) k ≡ None) }
    ensures err { IfErr result (TellsFirst rule_place
        (rule_cause_at chains.now (under (codes "rules") (view tree.now)))) }
{
    match items(tree, "rules") {
        Some(items) => rules_in(alloc, items.as_slice(), chains),
        None => Ok(Rules::make(alloc)),
    }
}

fn rules_in(alloc: Global, items: &[Value], chains: &[ChainPlan]) -> Result<Rules, FileFault>
    requires few { length items.now ≤ MAX_RULES }
    requires chains { length chains.now ≤ MAX_CHAINS }
    ensures all { IfOk result (λ list. list ≡ rules_of chains.now (map view items.now)) }
    ensures right { IfOk result (λ _. (k : ℕ)
        → rule_cause_at chains.now (map view items.now) k ≡ None) }
    ensures err { IfErr result
        (TellsFirst rule_place (rule_cause_at chains.now (map view items.now))) }
{
    let mut list = Rules::make(alloc);
    for at in 0..items.len() {
        let rule = rule_in(&items[at], chains);
        if let Some(cause) = rule.cause {
            return Err(FileFault::at(
                cause,
                Place {
                    part: Part::Rule,
                    item: at as u16,
                    inner: 0,
                },
            ));
        }
        let Ok(()) = list.push(rule.value) else {
            return Err(FileFault::Memory);
        };
    }
    Ok(list)
}

#[tactic(auto, unfolding(crate::specs::Rules::rule_in))]
fn rule_in(tree: &Value, chains: &[ChainPlan]) -> Judged<RulePlan>
    requires { length chains.now ≤ MAX_CHAINS }
    ensures { result ≡ spec.rule_in chains.now (view tree.now) }
{
    let keys = only(tree, &["chain", "match"], &[]);
    let chain = chain_under(tree, "chain", chains);
    let tests = tests_under(tree, "match");
    Judged {
        cause: first_of(&[keys, chain.cause, tests.cause]),
        value: RulePlan {
            chain: chain.value,
            tests: tests.value,
        },
    }
}

fn tests_under(tree: &Value, key: &str) -> Judged<Tests>
    ensures { result ≡ must tests_in spec.no_tests (get key.now (view tree.now)) }
{
    match tree.get(key) {
        Some(value) => tests_in(value),
        None => Judged {
            cause: Some(Cause::Shape),
            value: no_tests(),
        },
    }
}

fn no_tests() -> Tests
    ensures { result ≡ spec.no_tests }
{
    Tests {
        port: None,
        vlan: None,
        ethertype: None,
        src: None,
        dst: None,
        protocol: None,
        src_ports: None,
        dst_ports: None,
    }
}

fn chain_under(tree: &Value, key: &str, chains: &[ChainPlan]) -> Judged<ChainId>
    requires { length chains.now ≤ MAX_CHAINS }
    ensures { result ≡ spec.chain_at chains.now key.now (view tree.now) }
{
    match text(tree, key) {
        Some(text) => chain_named(text, chains),
        None => Judged {
            cause: Some(Cause::Shape),
            value: ChainId(0),
        },
    }
}

fn chain_named(text: &str, chains: &[ChainPlan]) -> Judged<ChainId>
    requires { length chains.now ≤ MAX_CHAINS }
    ensures { result ≡ spec.chain_of_name chains.now text.now }
{
    if !is_name(text) {
        return Judged {
            cause: Some(Cause::Shape),
            value: ChainId(0),
        };
    }
    match place_of(chains, text.as_bytes()) {
        Some(at) => Judged {
            cause: None,
            value: ChainId(at),
        },
        None => Judged {
            cause: Some(Cause::Unknown),
            value: ChainId(0),
        },
    }
}

/// The default chain.
pub fn default(tree: &Value, chains: &[ChainPlan]) -> Result<ChainId, FileFault>
    requires { length chains.now ≤ MAX_CHAINS }
    ensures value { IfOk result (λ id. id ≡ (spec.chain_at chains.now (codes "default") (view tree.now)).value) }
    ensures right { IfOk result (λ _. (spec.chain_at chains.now (codes "default") (view tree.now)).cause ≡ None) }
    ensures err { IfErr result
        (Tells default_place (spec.chain_at chains.now (codes "default") (view tree.now)).cause) }
{
    let chain = chain_under(tree, "default", chains);
    match chain.cause {
        Some(cause) => Err(FileFault::at(
            cause,
            Place {
                part: Part::Default,
                item: 0,
                inner: 0,
            },
        )),
        None => Ok(chain.value),
    }
}

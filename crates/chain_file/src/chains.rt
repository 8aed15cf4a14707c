//! The chains and their steps.
ghost use Rattle.std.specs.Prelude.{◌≡◌, ◌≤◌, ◌<◌, ℕ, IfOk, IfErr, None, is_some, map, length, codes, bytes_eq};
ghost use Rattle.onvm_base.specs.declared.limits.TheConstants.{MAX_CHAINS, MAX_CHAIN_STEPS};
ghost use Rattle.serde_json.specs.View.{view};
ghost use Rattle.chain_file.specs.Chains as spec;
ghost use Rattle.chain_file.specs.Values.{under};
ghost use Rattle.chain_file.specs.File.{Tells, TellsFirst, TellsFirstChain, chain_place, step_place, chains_of, chain_cause_at, step_cause_at, steps_cause_at};

use crate::fault::{Cause, FileFault, Part, Place};
use crate::judged::{Judged, first_of, unless};
use crate::values::{items, list, name, number_in, only};
use onvm_base::{ChainList, ChainPlan, ChainStep, ChainSteps, FunctionPlan, MAX_CHAIN_STEPS, Name};
use serde_json::Value;
use std::alloc::Global;

/// The chains of a file with so many ports and these functions, or the first fault of one.
pub fn chains(
    alloc: Global,
    tree: &Value,
    ports: u8,
    functions: &[FunctionPlan],
) -> Result<ChainList, FileFault>
    requires few { length (under (codes "chains") (view tree.now)) ≤ MAX_CHAINS }
    requires ports { 1 ≤ ports }
    ensures all { IfOk result (λ list. list
        ≡ chains_of ports functions.now (under (codes "chains") (view tree.now))) }
    ensures right { IfOk result (λ _. (k : ℕ)
        → chain_cause_at ports functions.now (under (codes "chains") (view tree.now)) k ≡ None) }
    ensures steps { IfOk result (λ _. (k j : ℕ)
        → steps_cause_at ports functions.now (under (codes "chains") (view tree.now)) k j ≡ None) }
    ensures err { IfErr result
        (TellsFirstChain ports functions.now (under (codes "chains") (view tree.now))) }
{
    match items(tree, "chains") {
        Some(items) => chains_in(alloc, items.as_slice(), ports, functions),
        None => Ok(ChainList::make(alloc)),
    }
}

fn chains_in(
    alloc: Global,
    items: &[Value],
    ports: u8,
    functions: &[FunctionPlan],
) -> Result<ChainList, FileFault>
    requires few { length items.now ≤ MAX_CHAINS }
    requires ports { 1 ≤ ports }
    ensures all { IfOk result (λ list. list ≡ chains_of ports functions.now (map view items.now)) }
    ensures right { IfOk result (λ _. (k : ℕ)
        → chain_cause_at ports functions.now (map view items.now) k ≡ None) }
    ensures steps { IfOk result (λ _. (k j : ℕ)
        → steps_cause_at ports functions.now (map view items.now) k j ≡ None) }
    ensures err { IfErr result (TellsFirstChain ports functions.now (map view items.now)) }
{
    let mut list = ChainList::make(alloc);
    for at in 0..items.len() {
        let item = &items[at];
        let name = match head(alloc, item, list.as_slice(), at as u16) {
            Ok(name) => name,
            Err(fault) => return Err(fault),
        };
        let steps = match steps(alloc, item, ports, functions, at as u16) {
            Ok(steps) => steps,
            Err(fault) => return Err(fault),
        };
        let Ok(()) = list.push(ChainPlan { name, steps }) else {
            return Err(FileFault::Memory);
        };
    }
    Ok(list)
}

// The name of a chain behind these, where the chain's own object is right.
fn head(alloc: Global, tree: &Value, before: &[ChainPlan], number: u16) -> Result<Name, FileFault>
    requires { length before.now ≤ MAX_CHAINS }
    ensures value { IfOk result (λ name. name ≡ (spec.chain_name (view tree.now)).value) }
    ensures right { IfOk result (λ _. spec.chain_cause before.now (view tree.now) ≡ None) }
    ensures few { IfOk result (λ _. length (under (codes "steps") (view tree.now)) ≤ MAX_CHAIN_STEPS) }
    ensures err { IfErr result (Tells (chain_place number) (spec.chain_cause before.now (view tree.now))) }
{
    let Ok(name) = name(alloc, tree, "name") else {
        return Err(FileFault::Memory);
    };
    match head_cause(tree, before, &name) {
        Some(cause) => Err(FileFault::at(
            cause,
            Place {
                part: Part::Chain,
                item: number,
                inner: 0,
            },
        )),
        None => Ok(name.value),
    }
}

#[tactic(auto, unfolding(crate::specs::Chains::chain_cause))]
fn head_cause(tree: &Value, before: &[ChainPlan], name: &Judged<Name>) -> Option<Cause>
    requires few { length before.now ≤ MAX_CHAINS }
    requires name { name.now ≡ spec.chain_name (view tree.now) }
    ensures { result ≡ spec.chain_cause before.now (view tree.now) }
{
    let keys = only(tree, &["name", "steps"], &[]);
    let steps = list(tree, "steps", 1, MAX_CHAIN_STEPS);
    let place = place_of(before, name.value.as_slice());
    let twice = unless(!place.is_some(), Cause::Twice);
    first_of(&[keys, name.cause, steps, twice])
}

/// The number of the chain of a name.
pub fn place_of(chains: &[ChainPlan], name: &[u8]) -> Option<u8>
    requires { length chains.now ≤ MAX_CHAINS }
    ensures { result ≡ spec.place_of chains.now name.now }
{
    for at in 0..chains.len() {
        if chains[at].name.as_slice() == name {
            return Some(at as u8);
        }
    }
    None
}

// The steps of the chain of this number, or the first fault of one.
fn steps(
    alloc: Global,
    tree: &Value,
    ports: u8,
    functions: &[FunctionPlan],
    number: u16,
) -> Result<ChainSteps, FileFault>
    requires few { length (under (codes "steps") (view tree.now)) ≤ MAX_CHAIN_STEPS }
    requires ports { 1 ≤ ports }
    ensures all { IfOk result (λ list. list ≡ map (λ s. (spec.step_in ports functions.now s).value)
        (under (codes "steps") (view tree.now))) }
    ensures right { IfOk result (λ _. (j : ℕ)
        → step_cause_at ports functions.now (under (codes "steps") (view tree.now)) j ≡ None) }
    ensures err { IfErr result (TellsFirst (step_place number)
        (step_cause_at ports functions.now (under (codes "steps") (view tree.now)))) }
{
    match items(tree, "steps") {
        Some(items) => steps_in(alloc, items.as_slice(), ports, functions, number),
        None => Ok(ChainSteps::make(alloc)),
    }
}

fn steps_in(
    alloc: Global,
    items: &[Value],
    ports: u8,
    functions: &[FunctionPlan],
    number: u16,
) -> Result<ChainSteps, FileFault>
    requires few { length items.now ≤ MAX_CHAIN_STEPS }
    requires ports { 1 ≤ ports }
    ensures all { IfOk result (λ list. list
        ≡ map (λ s. (spec.step_in ports functions.now s).value) (map view items.now)) }
    ensures right { IfOk result (λ _. (j : ℕ)
        → step_cause_at ports functions.now (map view items.now) j ≡ None) }
    ensures err { IfErr result (TellsFirst (step_place number)
        (step_cause_at ports functions.now (map view items.now))) }
{
    let mut list = ChainSteps::make(alloc);
    for at in 0..items.len() {
        let step = step_in(&items[at], ports, functions);
        if let Some(cause) = step.cause {
            return Err(FileFault::at(
                cause,
                Place {
                    part: Part::Step,
                    item: number,
                    inner: at as u16,
                },
            ));
        }
        let Ok(()) = list.push(step.value) else {
            return Err(FileFault::Memory);
        };
    }
    Ok(list)
}

#[tactic(auto, unfolding(crate::specs::Chains::step_in))]
fn step_in(tree: &Value, ports: u8, functions: &[FunctionPlan]) -> Judged<ChainStep>
    requires { 1 ≤ ports }
    ensures { result ≡ spec.step_in ports functions.now (view tree.now) }
{
    let keys = only(tree, &["to", "out"], &[]);
    let target = target_in(tree, ports, functions);
    Judged {
        cause: first_of(&[keys, target.cause]),
        value: target.value,
    }
}

fn target_in(tree: &Value, ports: u8, functions: &[FunctionPlan]) -> Judged<ChainStep>
    requires { 1 ≤ ports }
    ensures { result ≡ spec.step_target ports functions.now (view tree.now) }
{
    match (tree.get("to"), tree.get("out")) {
        (Some(to), None) => to_in(to, functions),
        (None, Some(out)) => out_in(out, ports),
        _ => Judged {
            cause: Some(Cause::Shape),
            value: ChainStep::To(0),
        },
    }
}

// To a service that a function has.
fn to_in(value: &Value, functions: &[FunctionPlan]) -> Judged<ChainStep>
    ensures { result ≡ spec.step_to functions.now (view value.now) }
{
    match value.as_u64() {
        Some(service) => to_service(service, functions),
        None => Judged {
            cause: Some(if value.is_i64() {
                Cause::Unknown
            } else {
                Cause::Shape
            }),
            value: ChainStep::To(0),
        },
    }
}

fn to_service(service: u64, functions: &[FunctionPlan]) -> Judged<ChainStep>
    ensures { result ≡ spec.to_number functions.now service }
{
    match u8::try_from(service) {
        Ok(number) if has_service(functions, number) => Judged {
            cause: None,
            value: ChainStep::To(number),
        },
        _ => Judged {
            cause: Some(Cause::Unknown),
            value: ChainStep::To(0),
        },
    }
}

fn has_service(functions: &[FunctionPlan], service: u8) -> bool
    ensures { result ≡ spec.has_service functions.now service }
{
    for function in functions {
        if function.service == service {
            return true;
        }
    }
    false
}

fn out_in(value: &Value, ports: u8) -> Judged<ChainStep>
    requires { 1 ≤ ports }
    ensures { result ≡ spec.step_out ports (view value.now) }
{
    let port = number_in(value, 0, ports as u64 - 1);
    Judged {
        cause: port.cause,
        value: ChainStep::Out(port.value as u8),
    }
}

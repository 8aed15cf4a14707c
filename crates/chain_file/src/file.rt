//! A whole file.
ghost use Rattle.std.specs.Prelude.{◌≡◌, IfOk, IfErr};
ghost use Rattle.onvm_base.specs.Plan.{IsPlan};
ghost use Rattle.serde_json.specs.View.{view};
ghost use Rattle.chain_file.specs.File.{IsFaultOf, IsPlanOf, IsRead, IsRefused, is_opening, is_within, numbers_of, openings, plan_sizes};
ghost use Rattle.chain_file.specs.Guests.{names_of};

use crate::chains::chains;
use crate::fault::{FileFault, Part, Place};
use crate::functions::functions;
use crate::rules::{default, rules};
use crate::top::{Sizes, top};
use nf_api::Guest;
use onvm_base::{ChainId, ChainList, FunctionList, MAX_CHAIN_FILE_BYTES, Plan, Rules};
use serde_json::Value;
use std::alloc::Global;

/// The most brackets that open a list or an object in a chain file, those in texts among them. A plan
/// needs at most 10,436; a tree of as many objects as this takes some 28 MiB.
pub const MAX_CHAIN_FILE_BRACKETS: usize = 32_768;

/// The plan of a chain file, for so many captures and with these guests.
///
/// A file is judged in this order: its size and its brackets, its JSON, the top object, each function,
/// each chain with its steps, each rule, and the default. The first fault is told.
pub fn read(alloc: Global, bytes: &[u8], captures: u8, guests: &[Guest]) -> Result<Plan, FileFault>
    ensures plan { IfOk result (IsRead bytes.now captures (names_of guests.now)) }
    ensures fault { IfErr result (IsRefused bytes.now captures (names_of guests.now)) }
{
    if !is_within(bytes) {
        return Err(FileFault::Limit {
            place: Place::of(Part::File),
        });
    }
    let tree = match Value::from_slice(alloc, bytes) {
        Ok(tree) => tree,
        Err(error) if error.is_memory() => return Err(FileFault::Memory),
        Err(_) => return Err(FileFault::Json),
    };
    plan(alloc, &tree, captures, guests)
}

// Judged before the tree is made, which is many times as large as its text.
fn is_within(bytes: &[u8]) -> bool
    ensures { result ≡ is_within bytes.now }
{
    bytes.len() <= MAX_CHAIN_FILE_BYTES && openings(bytes) <= MAX_CHAIN_FILE_BRACKETS
}

fn openings(bytes: &[u8]) -> usize
    ensures { result ≡ openings bytes.now }
{
    bytes.iter().filter(|byte| is_opening(**byte)).count()
}

fn is_opening(byte: u8) -> bool
    ensures { result ≡ is_opening byte }
{
    byte == b'[' || byte == b'{'
}

fn plan(alloc: Global, tree: &Value, captures: u8, guests: &[Guest]) -> Result<Plan, FileFault>
    ensures plan { IfOk result (IsPlanOf captures (names_of guests.now) (view tree.now)) }
    ensures fault { IfErr result (IsFaultOf captures (names_of guests.now) (view tree.now)) }
{
    let top = top(tree, captures);
    if let Some(cause) = top.cause {
        return Err(FileFault::at(cause, Place::of(Part::Top)));
    }
    let sizes = top.value;
    let functions = match functions(alloc, tree, sizes.cores, guests) {
        Ok(functions) => functions,
        Err(fault) => return Err(fault),
    };
    let chains = match chains(alloc, tree, sizes.ports, functions.as_slice()) {
        Ok(chains) => chains,
        Err(fault) => return Err(fault),
    };
    let rules = match rules(alloc, tree, chains.as_slice()) {
        Ok(rules) => rules,
        Err(fault) => return Err(fault),
    };
    let default = match default(tree, chains.as_slice()) {
        Ok(default) => default,
        Err(fault) => return Err(fault),
    };
    Ok(plan_of(sizes, functions, chains, rules, default))
}

// The plan of these numbers and parts.
fn plan_of(
    sizes: Sizes,
    functions: FunctionList,
    chains: ChainList,
    rules: Rules,
    default: ChainId,
) -> Plan
    requires { IsPlan (plan_sizes sizes) functions chains rules default }
    ensures numbers { numbers_of result ≡ sizes }
    ensures functions { result.functions ≡ functions }
    ensures chains { result.chains ≡ chains }
    ensures rules { result.rules ≡ rules }
    ensures default { result.default ≡ default }
{
    Plan {
        version: sizes.version,
        ports: sizes.ports,
        transmit: sizes.transmit,
        cores: sizes.cores,
        buffers: sizes.buffers,
        ring: sizes.ring,
        output: sizes.output,
        burst: sizes.burst,
        high: sizes.high,
        low: sizes.low,
        age: sizes.age,
        window: sizes.window,
        tick: sizes.tick,
        functions,
        chains,
        rules,
        default,
    }
}

//! The functions.
ghost use Rattle.std.specs.Prelude.{◌≡◌, ◌≤◌, ◌<◌, ℕ, IfOk, IfErr, None, map, length, codes, bytes_eq};
ghost use Rattle.onvm_base.specs.declared.limits.TheConstants.{MAX_FUNCTIONS};
ghost use Rattle.chain_file.specs.Guests.{names_of};
ghost use Rattle.serde_json.specs.View.{view};
ghost use Rattle.chain_file.specs.Functions as spec;
ghost use Rattle.chain_file.specs.Values.{under};
ghost use Rattle.chain_file.specs.File.{Tells, TellsFirst, function_place, functions_of, function_cause_at};

use crate::fault::{Cause, FileFault, Part, Place};
use crate::judged::{Judged, earlier, first_of, unless};
use crate::kinds::{Word, keys_of, kind};
use crate::values::{items, name, number, number_or, text};
use nf_api::Guest;
use onvm_base::{
    FunctionList, FunctionPlan, Kind, MAX_COST, MAX_PRIORITY, MAX_WEIGHT, NoMemory, WEIGHT_ONE,
};
use serde_json::Value;
use std::alloc::Global;

// What stands for a key that is not there.
const PRIORITY: u64 = 1;

const COST: u64 = 100;

/// The functions of a file with so many cores, or the first fault of one.
pub fn functions(
    alloc: Global,
    tree: &Value,
    cores: u8,
    guests: &[Guest],
) -> Result<FunctionList, FileFault>
    requires few { length (under (codes "functions") (view tree.now)) ≤ MAX_FUNCTIONS }
    requires core { 1 ≤ cores }
    ensures all { IfOk result (λ list. list
        ≡ functions_of cores (names_of guests.now) (under (codes "functions") (view tree.now))) }
    ensures right { IfOk result (λ _. (k : ℕ)
        → function_cause_at cores (names_of guests.now) (under (codes "functions") (view tree.now)) k ≡ None) }
    ensures err { IfErr result (TellsFirst function_place
        (function_cause_at cores (names_of guests.now) (under (codes "functions") (view tree.now)))) }
{
    match items(tree, "functions") {
        Some(items) => functions_in(alloc, items.as_slice(), cores, guests),
        None => Ok(FunctionList::make(alloc)),
    }
}

fn functions_in(
    alloc: Global,
    items: &[Value],
    cores: u8,
    guests: &[Guest],
) -> Result<FunctionList, FileFault>
    requires few { length items.now ≤ MAX_FUNCTIONS }
    requires core { 1 ≤ cores }
    ensures all { IfOk result (λ list. list ≡ functions_of cores (names_of guests.now) (map view items.now)) }
    ensures right { IfOk result (λ _. (k : ℕ)
        → function_cause_at cores (names_of guests.now) (map view items.now) k ≡ None) }
    ensures err { IfErr result
        (TellsFirst function_place (function_cause_at cores (names_of guests.now) (map view items.now))) }
{
    let mut list = FunctionList::make(alloc);
    for at in 0..items.len() {
        match next(alloc, &items[at], cores, guests, list.as_slice(), at as u16) {
            Ok(one) => {
                let Ok(()) = list.push(one) else {
                    return Err(FileFault::Memory);
                };
            }
            Err(fault) => return Err(fault),
        }
    }
    Ok(list)
}

// The function of this number, behind these.
fn next(
    alloc: Global,
    tree: &Value,
    cores: u8,
    guests: &[Guest],
    before: &[FunctionPlan],
    number: u16,
) -> Result<FunctionPlan, FileFault>
    requires core { 1 ≤ cores }
    ensures value { IfOk result (λ f. f ≡ (spec.function_in cores (names_of guests.now) (view tree.now)).value) }
    ensures right { IfOk result (λ _.
        spec.function_cause before.now (spec.function_in cores (names_of guests.now) (view tree.now)) ≡ None) }
    ensures err { IfErr result (Tells (function_place number)
        (spec.function_cause before.now (spec.function_in cores (names_of guests.now) (view tree.now)))) }
{
    let Ok(one) = function(alloc, tree, cores, guests) else {
        return Err(FileFault::Memory);
    };
    match cause_behind(before, &one) {
        Some(cause) => Err(FileFault::at(
            cause,
            Place {
                part: Part::Function,
                item: number,
                inner: 0,
            },
        )),
        None => Ok(one.value),
    }
}

fn cause_behind(before: &[FunctionPlan], one: &Judged<FunctionPlan>) -> Option<Cause>
    ensures { result ≡ spec.function_cause before.now one.now }
{
    earlier(
        one.cause,
        unless(!is_twice(before, &one.value), Cause::Twice),
    )
}

/// A function, judged by itself.
#[tactic(auto, unfolding(crate::specs::Functions::function_in))]
fn function(
    alloc: Global,
    tree: &Value,
    cores: u8,
    guests: &[Guest],
) -> Result<Judged<FunctionPlan>, NoMemory>
    requires { 1 ≤ cores }
    ensures { IfOk result (λ judged. judged ≡ spec.function_in cores (names_of guests.now) (view tree.now)) }
{
    let word = word_in(tree);
    let keys = keys_of(tree, word);
    let name = name(alloc, tree, "name")?;
    let service = number(tree, "service", 1, 255);
    let core = number(tree, "core", 0, cores as u64 - 1);
    let kind = kind(alloc, tree, word, guests)?;
    let priority = number_or(tree, "priority", 1, MAX_PRIORITY as u64, PRIORITY);
    let weight = number_or(tree, "weight", 1, MAX_WEIGHT as u64, WEIGHT_ONE as u64);
    let cost = number_or(tree, "cost", 0, MAX_COST as u64, COST);
    Ok(Judged {
        cause: first_of(&[
            keys,
            name.cause,
            service.cause,
            core.cause,
            kind.cause,
            priority.cause,
            weight.cause,
            cost.cause,
        ]),
        value: FunctionPlan {
            name: name.value,
            service: service.value as u8,
            core: core.value as u8,
            kind: kind.value,
            priority: priority.value as u16,
            weight: weight.value as u32,
            cost: cost.value as u32,
        },
    })
}

fn word_in(tree: &Value) -> Option<Word>
    ensures { result ≡ spec.word_in (view tree.now) }
{
    match text(tree, "kind") {
        Some(text) => Word::of(text),
        None => None,
    }
}

// Whether an earlier function has the name, the service or the guest.
fn is_twice(before: &[FunctionPlan], function: &FunctionPlan) -> bool
    ensures { result ≡ spec.is_twice before.now function.now }
{
    for earlier in before {
        if is_like(earlier, function) {
            return true;
        }
    }
    false
}

fn is_like(f: &FunctionPlan, g: &FunctionPlan) -> bool
    ensures { result ≡ spec.is_like f.now g.now }
{
    f.name.as_slice() == g.name.as_slice()
        || f.service == g.service
        || has_guest_of(&f.kind, &g.kind)
}

fn has_guest_of(f: &Kind, g: &Kind) -> bool
    ensures { result ≡ spec.has_guest_of f.now g.now }
{
    match f {
        Kind::Guest { guest } => is_guest(g, guest.as_slice()),
        _ => false,
    }
}

fn is_guest(kind: &Kind, name: &[u8]) -> bool
    ensures { result ≡ spec.is_guest kind.now name.now }
{
    match kind {
        Kind::Guest { guest } => guest.as_slice() == name,
        _ => false,
    }
}

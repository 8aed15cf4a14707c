//! The kinds whose parameters are lists.
ghost use Rattle.std.specs.Prelude.{◌≡◌, IfOk, map};
ghost use Rattle.serde_json.specs.View.{view};
ghost use Rattle.chain_file.specs.Kinds as spec;
ghost use Rattle.chain_file.specs.Matches.{tests_in};
ghost use Rattle.chain_file.specs.Values.{number_in, each, kept, under};

use crate::fault::Cause;
use crate::judged::{Judged, earlier, first_of};
use crate::kinds::short_prefix_under;
use crate::tests_of::tests_in;
use crate::values::{items, list, number_in, only};
use onvm_base::{
    ChainStep, Kind, MAX_ROUTES, MAX_SERVICES, MAX_TESTS, NoMemory, RouteEntry, RouteList,
    ServiceList, TestsList,
};
use serde_json::Value;
use std::alloc::Global;

/// A filter, with its match objects.
pub fn filter(alloc: Global, tree: &Value) -> Result<Judged<Kind>, NoMemory>
    ensures { IfOk result (λ judged. judged ≡ spec.filter_in (view tree.now)) }
{
    let length = list(tree, "match", 1, MAX_TESTS);
    let tests = tests_kept(alloc, tree, "match", length)?;
    Ok(Judged {
        cause: earlier(length, tests.cause),
        value: Kind::Filter { tests: tests.value },
    })
}

fn tests_kept(
    alloc: Global,
    tree: &Value,
    key: &str,
    length: Option<Cause>,
) -> Result<Judged<TestsList>, NoMemory>
    ensures { IfOk result (λ judged. judged ≡ kept length (each tests_in (under key.now (view tree.now)))) }
{
    match length {
        None => tests_under(alloc, tree, key),
        Some(_) => Ok(Judged {
            cause: tests_cause(tree, key),
            value: TestsList::make(alloc),
        }),
    }
}

fn tests_cause(tree: &Value, key: &str) -> Option<Cause>
    ensures { result ≡ (each tests_in (under key.now (view tree.now))).cause }
{
    match items(tree, key) {
        Some(items) => each_tests_cause(items.as_slice()),
        None => None,
    }
}

fn each_tests_cause(items: &[Value]) -> Option<Cause>
    ensures { result ≡ (each tests_in (map view items.now)).cause }
{
    let mut cause = None;
    for item in items {
        let one = tests_in(item);
        cause = earlier(cause, one.cause);
    }
    cause
}

fn tests_under(alloc: Global, tree: &Value, key: &str) -> Result<Judged<TestsList>, NoMemory>
    ensures { IfOk result (λ judged. judged ≡ each tests_in (under key.now (view tree.now))) }
{
    match items(tree, key) {
        Some(items) => each_tests(alloc, items.as_slice()),
        None => Ok(Judged {
            cause: None,
            value: TestsList::make(alloc),
        }),
    }
}

fn each_tests(alloc: Global, items: &[Value]) -> Result<Judged<TestsList>, NoMemory>
    ensures { IfOk result (λ judged. judged ≡ each tests_in (map view items.now)) }
{
    let mut list = TestsList::make(alloc);
    let mut cause = None;
    for item in items {
        let one = tests_in(item);
        cause = earlier(cause, one.cause);
        list.push(one.value)?;
    }
    Ok(Judged { cause, value: list })
}

/// A balance, with its services.
pub fn balance(alloc: Global, tree: &Value) -> Result<Judged<Kind>, NoMemory>
    ensures { IfOk result (λ judged. judged ≡ spec.balance_in (view tree.now)) }
{
    let length = list(tree, "services", 1, MAX_SERVICES);
    let services = services_kept(alloc, tree, "services", length)?;
    Ok(Judged {
        cause: earlier(length, services.cause),
        value: Kind::Balance {
            services: services.value,
        },
    })
}

fn services_kept(
    alloc: Global,
    tree: &Value,
    key: &str,
    length: Option<Cause>,
) -> Result<Judged<ServiceList>, NoMemory>
    ensures { IfOk result (λ judged. judged ≡ kept length (each (number_in 0 255) (under key.now (view tree.now)))) }
{
    match length {
        None => services_under(alloc, tree, key),
        Some(_) => Ok(Judged {
            cause: services_cause(tree, key),
            value: ServiceList::make(alloc),
        }),
    }
}

fn services_cause(tree: &Value, key: &str) -> Option<Cause>
    ensures { result ≡ (each (number_in 0 255) (under key.now (view tree.now))).cause }
{
    match items(tree, key) {
        Some(items) => each_service_cause(items.as_slice()),
        None => None,
    }
}

fn each_service_cause(items: &[Value]) -> Option<Cause>
    ensures { result ≡ (each (number_in 0 255) (map view items.now)).cause }
{
    let mut cause = None;
    for item in items {
        let one = number_in(item, 0, u8::MAX as u64);
        cause = earlier(cause, one.cause);
    }
    cause
}

fn services_under(alloc: Global, tree: &Value, key: &str) -> Result<Judged<ServiceList>, NoMemory>
    ensures { IfOk result (λ judged. judged ≡ each (number_in 0 255) (under key.now (view tree.now))) }
{
    match items(tree, key) {
        Some(items) => each_service(alloc, items.as_slice()),
        None => Ok(Judged {
            cause: None,
            value: ServiceList::make(alloc),
        }),
    }
}

fn each_service(alloc: Global, items: &[Value]) -> Result<Judged<ServiceList>, NoMemory>
    ensures { IfOk result (λ judged. judged ≡ each (number_in 0 255) (map view items.now)) }
{
    let mut list = ServiceList::make(alloc);
    let mut cause = None;
    for item in items {
        let one = number_in(item, 0, u8::MAX as u64);
        cause = earlier(cause, one.cause);
        list.push(one.value as u8)?;
    }
    Ok(Judged { cause, value: list })
}

/// A route, with its table.
pub fn route(alloc: Global, tree: &Value) -> Result<Judged<Kind>, NoMemory>
    ensures { IfOk result (λ judged. judged ≡ spec.route_in (view tree.now)) }
{
    let length = list(tree, "table", 1, MAX_ROUTES);
    let table = table_kept(alloc, tree, "table", length)?;
    Ok(Judged {
        cause: earlier(length, table.cause),
        value: Kind::Route { table: table.value },
    })
}

fn table_kept(
    alloc: Global,
    tree: &Value,
    key: &str,
    length: Option<Cause>,
) -> Result<Judged<RouteList>, NoMemory>
    ensures { IfOk result (λ judged. judged ≡ kept length (each spec.entry_in (under key.now (view tree.now)))) }
{
    match length {
        None => table_under(alloc, tree, key),
        Some(_) => Ok(Judged {
            cause: table_cause(tree, key),
            value: RouteList::make(alloc),
        }),
    }
}

fn table_cause(tree: &Value, key: &str) -> Option<Cause>
    ensures { result ≡ (each spec.entry_in (under key.now (view tree.now))).cause }
{
    match items(tree, key) {
        Some(items) => each_entry_cause(items.as_slice()),
        None => None,
    }
}

fn each_entry_cause(items: &[Value]) -> Option<Cause>
    ensures { result ≡ (each spec.entry_in (map view items.now)).cause }
{
    let mut cause = None;
    for item in items {
        let one = entry_in(item);
        cause = earlier(cause, one.cause);
    }
    cause
}

fn table_under(alloc: Global, tree: &Value, key: &str) -> Result<Judged<RouteList>, NoMemory>
    ensures { IfOk result (λ judged. judged ≡ each spec.entry_in (under key.now (view tree.now))) }
{
    match items(tree, key) {
        Some(items) => each_entry(alloc, items.as_slice()),
        None => Ok(Judged {
            cause: None,
            value: RouteList::make(alloc),
        }),
    }
}

fn each_entry(alloc: Global, items: &[Value]) -> Result<Judged<RouteList>, NoMemory>
    ensures { IfOk result (λ judged. judged ≡ each spec.entry_in (map view items.now)) }
{
    let mut list = RouteList::make(alloc);
    let mut cause = None;
    for item in items {
        let one = entry_in(item);
        cause = earlier(cause, one.cause);
        list.push(one.value)?;
    }
    Ok(Judged { cause, value: list })
}

#[tactic(auto, unfolding(crate::specs::Kinds::entry_in))]
fn entry_in(tree: &Value) -> Judged<RouteEntry>
    ensures { result ≡ spec.entry_in (view tree.now) }
{
    let keys = only(tree, &["prefix", "to", "out"], &[]);
    let prefix = short_prefix_under(tree, "prefix");
    let target = target_of(tree);
    Judged {
        cause: first_of(&[keys, prefix.cause, target.cause]),
        value: RouteEntry {
            prefix: prefix.value,
            target: target.value,
        },
    }
}

fn target_of(tree: &Value) -> Judged<ChainStep>
    ensures { result ≡ spec.entry_target (view tree.now) }
{
    match (tree.get("to"), tree.get("out")) {
        (Some(to), None) => entry_to(to),
        (None, Some(out)) => entry_out(out),
        _ => Judged {
            cause: Some(Cause::Shape),
            value: ChainStep::To(0),
        },
    }
}

fn entry_to(value: &Value) -> Judged<ChainStep>
    ensures { result ≡ spec.entry_to (view value.now) }
{
    let service = number_in(value, 0, u8::MAX as u64);
    Judged {
        cause: service.cause,
        value: ChainStep::To(service.value as u8),
    }
}

fn entry_out(value: &Value) -> Judged<ChainStep>
    ensures { result ≡ spec.entry_out (view value.now) }
{
    let port = number_in(value, 0, u8::MAX as u64);
    Judged {
        cause: port.cause,
        value: ChainStep::Out(port.value as u8),
    }
}

//! Match objects.
ghost use Rattle.std.specs.Prelude.{◌≡◌, ◌≤◌, ◌<◌, ◌^◌, ℕ, [], Some, map, option_and_then};
ghost use Rattle.serde_json.specs.Find.{get, as_str};
ghost use Rattle.serde_json.specs.View.{view};
ghost use Rattle.chain_file.specs.Matches as spec;
ghost use Rattle.chain_file.specs.Spelling.{prefix_of};
ghost use Rattle.chain_file.specs.Values.{number_in, only};

use crate::fault::Cause;
use crate::judged::{Judged, first_of, unless};
use crate::spelling::prefix;
use crate::values::{number_in, only};
use onvm_base::{MAX_PORTS, MAX_VLAN, Prefix, Tests};
use serde_json::Value;

// The last of the ports that any plan may have.
const LAST_PORT: u64 = MAX_PORTS as u64 - 1;

/// A match object.
#[tactic(auto, unfolding(crate::specs::Matches::tests_in))]
pub fn tests_in(tree: &Value) -> Judged<Tests>
    ensures { result ≡ spec.tests_in (view tree.now) }
{
    let port = byte_test(tree, "port", LAST_PORT);
    let vlan = word_test(tree, "vlan", MAX_VLAN as u64);
    let ethertype = word_test(tree, "type", 65_535);
    let protocol = byte_test(tree, "protocol", 255);
    let src = prefix_under(tree, "src");
    let dst = prefix_under(tree, "dst");
    let src_ports = ports_under(tree, "src_ports");
    let dst_ports = ports_under(tree, "dst_ports");
    Judged {
        cause: first_of(&[
            keys_cause(tree),
            port.cause,
            vlan.cause,
            ethertype.cause,
            src.cause,
            dst.cause,
            protocol.cause,
            src_ports.cause,
            dst_ports.cause,
        ]),
        value: Tests {
            port: port.value,
            vlan: vlan.value,
            ethertype: ethertype.value,
            src: src.value,
            dst: dst.value,
            protocol: protocol.value,
            src_ports: src_ports.value,
            dst_ports: dst_ports.value,
        },
    }
}

// What is wrong with the keys of a match object.
fn keys_cause(tree: &Value) -> Option<Cause>
    ensures { result ≡ only spec.test_keys [] (view tree.now) }
{
    only(
        tree,
        &[
            "port",
            "vlan",
            "type",
            "src",
            "dst",
            "protocol",
            "src_ports",
            "dst_ports",
        ],
        &[],
    )
}

fn byte_test(tree: &Value, key: &str, last: u64) -> Judged<Option<u8>>
    requires { last ≤ 255 }
    ensures { result ≡ spec.test key.now last (view tree.now) }
{
    match tree.get(key) {
        Some(value) => {
            let number = number_in(value, 0, last);
            Judged {
                cause: number.cause,
                value: Some(number.value as u8),
            }
        }
        None => Judged {
            cause: None,
            value: None,
        },
    }
}

fn word_test(tree: &Value, key: &str, last: u64) -> Judged<Option<u16>>
    requires { last ≤ 65535 }
    ensures { result ≡ spec.test key.now last (view tree.now) }
{
    match tree.get(key) {
        Some(value) => {
            let number = number_in(value, 0, last);
            Judged {
                cause: number.cause,
                value: Some(number.value as u16),
            }
        }
        None => Judged {
            cause: None,
            value: None,
        },
    }
}

fn prefix_under(tree: &Value, key: &str) -> Judged<Option<Prefix>>
    ensures { result ≡ spec.prefix_at (get key.now (view tree.now)) }
{
    match tree.get(key) {
        Some(value) => {
            let value = prefix_in(value);
            Judged {
                cause: unless(value.is_some(), Cause::Shape),
                value,
            }
        }
        None => Judged {
            cause: None,
            value: None,
        },
    }
}

fn prefix_in(value: &Value) -> Option<Prefix>
    ensures { result ≡ option_and_then prefix_of (as_str (view value.now)) }
{
    match value.as_str() {
        Some(text) => prefix(text.as_bytes()),
        None => None,
    }
}

fn ports_under(tree: &Value, key: &str) -> Judged<Option<(u16, u16)>>
    ensures { result ≡ spec.port_test key.now (view tree.now) }
{
    match tree.get(key) {
        Some(value) => {
            let range = range_in(value, 0, 65_535);
            Judged {
                cause: range.cause,
                value: Some(range.value),
            }
        }
        None => Judged {
            cause: None,
            value: None,
        },
    }
}

/// A list of two numbers, the first not above the second.
pub fn range_in(value: &Value, first: u16, last: u16) -> Judged<(u16, u16)>
    requires { first ≤ last }
    ensures { result ≡ spec.range_in first last (view value.now) }
{
    match value.as_array() {
        Some(items) => range_of(items.as_slice(), first, last),
        None => Judged {
            cause: Some(Cause::Shape),
            value: (first, last),
        },
    }
}

fn range_of(items: &[Value], first: u16, last: u16) -> Judged<(u16, u16)>
    requires { first ≤ last }
    ensures { result ≡ spec.range_from first last (map view items.now) }
{
    match items {
        [low, high] => pair_in(low, high, first, last),
        _ => Judged {
            cause: Some(Cause::Shape),
            value: (first, last),
        },
    }
}

fn pair_in(low: &Value, high: &Value, first: u16, last: u16) -> Judged<(u16, u16)>
    requires { first ≤ last }
    ensures { result ≡ spec.pair_in first last (view low.now) (view high.now) }
{
    let from = number_in(low, first as u64, last as u64);
    let to = number_in(high, first as u64, last as u64);
    let order = unless(are_in_order(integer(low), integer(high)), Cause::Shape);
    Judged {
        cause: first_of(&[from.cause, to.cause, order]),
        value: (from.value as u16, to.value as u16),
    }
}

// Whether a whole number is not above another. Of what is not whole it is not asked.
fn are_in_order(low: Option<i128>, high: Option<i128>) -> bool
    ensures { result ≡ spec.are_in_order low high }
{
    match (low, high) {
        (Some(low), Some(high)) => low <= high,
        _ => true,
    }
}

fn integer(value: &Value) -> Option<i128>
    ensures { result ≡ spec.integer_of (view value.now) }
{
    match value.as_u64() {
        Some(number) => Some(number as i128),
        None => match value.as_i64() {
            Some(number) => Some(number as i128),
            None => None,
        },
    }
}

//! Values of an object by their keys.
ghost use Rattle.std.specs.Prelude.{◌≡◌, ◌≤◌, ◌&&◌, ℕ, IfOk, map, length, option_map, option_and_then, bytes_eq};
ghost use Rattle.std.specs.List.{list_any, list_all};
ghost use Rattle.serde_json.specs.Find.{get, as_array, as_str};
ghost use Rattle.serde_json.specs.View.{view, items_view, members_view};
ghost use Rattle.onvm_base.specs.Plan.{is_name_character};
ghost use Rattle.chain_file.specs.Values as spec;

use crate::fault::Cause;
use crate::judged::{Judged, unless};
use onvm_base::{MAX_NAME_BYTES, Name, NoMemory};
use serde_json::{Map, Value};
use std::alloc::Global;

/// A whole number within a range.
pub fn number_in(value: &Value, first: u64, last: u64) -> Judged<u64>
    requires { first ≤ last }
    ensures judged { result ≡ spec.number_in first last (view value.now) }
    ensures from { first ≤ result.value }
    ensures to { result.value ≤ last }
{
    match value.as_u64() {
        Some(number) => number_from(number, first, last),
        None => Judged {
            cause: Some(if value.is_i64() {
                Cause::Limit
            } else {
                Cause::Shape
            }),
            value: first,
        },
    }
}

fn number_from(number: u64, first: u64, last: u64) -> Judged<u64>
    requires { first ≤ last }
    ensures judged { result ≡ spec.number_from first last number }
    ensures from { first ≤ result.value }
    ensures to { result.value ≤ last }
{
    if first <= number && number <= last {
        Judged {
            cause: None,
            value: number,
        }
    } else {
        Judged {
            cause: Some(Cause::Limit),
            value: first,
        }
    }
}

/// The number under a key, which must be there.
pub fn number(tree: &Value, key: &str, first: u64, last: u64) -> Judged<u64>
    requires { first ≤ last }
    ensures judged { result ≡ spec.must (spec.number_in first last) first (get key.now (view tree.now)) }
    ensures from { first ≤ result.value }
    ensures to { result.value ≤ last }
{
    match tree.get(key) {
        Some(value) => number_in(value, first, last),
        None => Judged {
            cause: Some(Cause::Shape),
            value: first,
        },
    }
}

/// The number under a key, or its default.
pub fn number_or(tree: &Value, key: &str, first: u64, last: u64, default: u64) -> Judged<u64>
    requires above { first ≤ default }
    requires below { default ≤ last }
    ensures judged { result ≡ spec.may (spec.number_in first last) default (get key.now (view tree.now)) }
    ensures from { first ≤ result.value }
    ensures to { result.value ≤ last }
{
    match tree.get(key) {
        Some(value) => number_in(value, first, last),
        None => Judged {
            cause: None,
            value: default,
        },
    }
}

/// What is wrong with a list under a key, its items aside.
pub fn list(tree: &Value, key: &str, first: usize, last: usize) -> Option<Cause>
    ensures { result ≡ spec.list_at first last (get key.now (view tree.now)) }
{
    match tree.get(key) {
        Some(value) => list_in(value, first, last),
        None => Some(Cause::Shape),
    }
}

/// What is wrong with a list, its items aside.
pub fn list_in(value: &Value, first: usize, last: usize) -> Option<Cause>
    ensures { result ≡ spec.list_in first last (view value.now) }
{
    match value.as_array() {
        Some(items) => length_from(items.as_slice().len(), first, last),
        None => Some(Cause::Shape),
    }
}

fn length_from(length: usize, first: usize, last: usize) -> Option<Cause>
    ensures { result ≡ spec.length_from first last length }
{
    if first <= length && length <= last {
        None
    } else {
        Some(Cause::Limit)
    }
}

/// The items under a key, or none where no list is there.
pub fn items<'t>(tree: &'t Value, key: &str) -> Option<&'t Vec<Value>>
    ensures { spec.given (option_map (λ v. map view v.now.items) result)
        ≡ spec.under key.now (view tree.now) }
{
    match tree.get(key) {
        Some(value) => value.as_array(),
        None => None,
    }
}

/// The text under a key.
pub fn text<'t>(tree: &'t Value, key: &str) -> Option<&'t str>
    ensures { option_map (λ s. s.now) result
        ≡ option_and_then as_str (get key.now (view tree.now)) }
{
    tree.get(key).and_then(Value::as_str)
}

/// Whether a text is spelled as a name.
pub fn is_name(text: &str) -> bool
    ensures { result ≡ spec.is_name text.now }
{
    let bytes = text.as_bytes();
    1 <= bytes.len() && bytes.len() <= MAX_NAME_BYTES && are_name_characters(bytes)
}

fn are_name_characters(bytes: &[u8]) -> bool
    ensures { result ≡ list_all is_name_character bytes.now }
{
    for c in bytes {
        if !is_name_character(*c) {
            return false;
        }
    }
    true
}

fn is_name_character(c: u8) -> bool
    ensures { result ≡ is_name_character c }
{
    (97 <= c && c <= 122) || (48 <= c && c <= 57) || c == 45 || c == 95
}

/// The name under a key, which must be there.
pub fn name(alloc: Global, tree: &Value, key: &str) -> Result<Judged<Name>, NoMemory>
    ensures { IfOk result (λ judged. judged ≡ spec.name_at (get key.now (view tree.now))) }
{
    match text(tree, key) {
        Some(text) => name_of(alloc, text),
        None => Ok(Judged {
            cause: Some(Cause::Shape),
            value: Name::make(alloc),
        }),
    }
}

// A text as a name.
fn name_of(alloc: Global, text: &str) -> Result<Judged<Name>, NoMemory>
    ensures { IfOk result (λ judged. judged ≡ spec.name_of text.now) }
{
    if is_name(text) {
        let value = Name::from_slice(alloc, text.as_bytes())?;
        Ok(Judged { cause: None, value })
    } else {
        Ok(Judged {
            cause: Some(Cause::Shape),
            value: Name::make(alloc),
        })
    }
}

/// Unknown where the object has a key that is neither one of these nor one of its own, Shape where
/// it is no object.
pub fn only(tree: &Value, keys: &[&str], own: &[&str]) -> Option<Cause>
    ensures { result ≡ spec.only (map (λ k. k.now) keys.now) (map (λ k. k.now) own.now) (view tree.now) }
{
    match tree.as_object() {
        Some(object) => unless(are_among(object, keys, own), Cause::Unknown),
        None => Some(Cause::Shape),
    }
}

fn are_among(object: &Map<String, Value>, keys: &[&str], own: &[&str]) -> bool
    ensures { result ≡ spec.are_among (map (λ k. k.now) keys.now) (map (λ k. k.now) own.now)
        (members_view object.now.entries) }
{
    for (key, _) in object.iter() {
        if !is_among(key.as_str(), keys) && !is_among(key.as_str(), own) {
            return false;
        }
    }
    true
}

fn is_among(key: &str, keys: &[&str]) -> bool
    ensures { result ≡ list_any (bytes_eq key.now) (map (λ k. k.now) keys.now) }
{
    for known in keys {
        if key == *known {
            return true;
        }
    }
    false
}

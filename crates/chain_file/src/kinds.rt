//! The kinds of functions.
ghost use Rattle.std.specs.Prelude.{◌≡◌, ◌≤◌, ◌<◌, ◌++◌, ℕ, IfOk, Some, map, option_map, option_and_then, bytes_eq};
ghost use Rattle.std.specs.List.{list_any};
ghost use Rattle.serde_json.specs.Find.{get, as_str};
ghost use Rattle.serde_json.specs.View.{view};
ghost use Rattle.chain_file.specs.Guests.{names_of};
ghost use Rattle.chain_file.specs.Kinds as spec;
ghost use Rattle.chain_file.specs.Matches.{range_in};
ghost use Rattle.chain_file.specs.Values.{right, must};
ghost use Rattle.chain_file.specs.Words.{word_of, own_keys, function_keys};
ghost use Rattle.chain_file.specs.Values.{only};

use crate::fault::Cause;
use crate::judged::{Judged, earlier, first_of, unless};
use crate::kind_lists::{balance, filter, route};
use crate::spelling::{mac, short_prefix, v4};
use crate::tests_of::range_in;
use crate::values::{name, number, only, text};
use nf_api::Guest;
use onvm_base::{Kind, MAX_DEPTH, MAX_RATE, MAX_TAG_PRIORITY, MAX_VLAN, NoMemory, Prefix};
use serde_json::Value;
use std::alloc::Global;

/// The word of a kind.
#[derive(Clone, Copy, Debug, PartialEq, Eq)]
pub enum Word {
    Forward,
    Drop,
    Out,
    To,
    Filter,
    Ttl,
    Tag,
    Untag,
    Macs,
    Route,
    Balance,
    Count,
    Police,
    Nat,
    Guest,
}

impl Word {
    /// The word that a text is.
    pub fn of(text: &str) -> Option<Word>
        ensures { result ≡ word_of text.now }
    {
        match text {
            "forward" => Some(Word::Forward),
            "drop" => Some(Word::Drop),
            "out" => Some(Word::Out),
            "to" => Some(Word::To),
            "filter" => Some(Word::Filter),
            "ttl" => Some(Word::Ttl),
            "tag" => Some(Word::Tag),
            "untag" => Some(Word::Untag),
            "macs" => Some(Word::Macs),
            "route" => Some(Word::Route),
            "balance" => Some(Word::Balance),
            "count" => Some(Word::Count),
            "police" => Some(Word::Police),
            "nat" => Some(Word::Nat),
            "guest" => Some(Word::Guest),
            _ => None,
        }
    }
}

/// What is wrong with the keys of a function.
pub fn keys_of(tree: &Value, word: Option<Word>) -> Option<Cause>
    ensures { result ≡ spec.keys_cause word (view tree.now) }
{
    match word {
        Some(word) => keys_with(tree, word),
        None => keys(tree, &[]),
    }
}

fn keys_with(tree: &Value, word: Word) -> Option<Cause>
    ensures { result ≡ spec.keys_cause (Some word) (view tree.now) }
{
    match word {
        Word::Forward | Word::Drop | Word::Ttl | Word::Untag | Word::Count => keys(tree, &[]),
        Word::Out => keys(tree, &["port"]),
        Word::To => keys(tree, &["to_service"]),
        Word::Filter => keys(tree, &["match"]),
        Word::Tag => keys(tree, &["vlan", "tag_priority"]),
        Word::Macs => keys(tree, &["target", "source"]),
        Word::Route => keys(tree, &["table"]),
        Word::Balance => keys(tree, &["services"]),
        Word::Police => keys(tree, &["rate", "depth"]),
        Word::Nat => keys(tree, &["inside", "outside", "ports"]),
        Word::Guest => keys(tree, &["guest"]),
    }
}

fn keys(tree: &Value, own: &[&str]) -> Option<Cause>
    ensures { result ≡ only function_keys (map (λ k. k.now) own.now) (view tree.now) }
{
    only(
        tree,
        &[
            "name", "service", "core", "kind", "priority", "weight", "cost",
        ],
        own,
    )
}

/// The kind of a function, by its word, with its own keys.
pub fn kind(
    alloc: Global,
    tree: &Value,
    word: Option<Word>,
    guests: &[Guest],
) -> Result<Judged<Kind>, NoMemory>
    ensures { IfOk result (λ judged. judged ≡ spec.kind_in (names_of guests.now) word (view tree.now)) }
{
    match word {
        Some(word) => kind_of(alloc, tree, word, guests),
        None => Ok(no_kind(tree)),
    }
}

fn kind_of(
    alloc: Global,
    tree: &Value,
    word: Word,
    guests: &[Guest],
) -> Result<Judged<Kind>, NoMemory>
    ensures { IfOk result (λ judged. judged ≡ spec.kind_in (names_of guests.now) (Some word) (view tree.now)) }
{
    match word {
        Word::Forward => Ok(plain(Kind::Forward)),
        Word::Drop => Ok(plain(Kind::Drop)),
        Word::Ttl => Ok(plain(Kind::Ttl)),
        Word::Untag => Ok(plain(Kind::Untag)),
        Word::Count => Ok(plain(Kind::Count)),
        Word::Out => Ok(out(tree)),
        Word::To => Ok(to(tree)),
        Word::Filter => filter(alloc, tree),
        Word::Tag => Ok(tag(tree)),
        Word::Macs => Ok(macs(tree)),
        Word::Route => route(alloc, tree),
        Word::Balance => balance(alloc, tree),
        Word::Police => Ok(police(tree)),
        Word::Nat => Ok(nat(tree)),
        Word::Guest => guest(alloc, tree, guests),
    }
}

fn no_kind(tree: &Value) -> Judged<Kind>
    ensures { result ≡ spec.no_kind (view tree.now) }
{
    let cause = match text(tree, "kind") {
        Some(_) => Cause::Unknown,
        None => Cause::Shape,
    };
    Judged {
        cause: Some(cause),
        value: Kind::Forward,
    }
}

fn plain(kind: Kind) -> Judged<Kind>
    ensures { result ≡ right kind }
{
    Judged {
        cause: None,
        value: kind,
    }
}

fn out(tree: &Value) -> Judged<Kind>
    ensures { result ≡ spec.out_in (view tree.now) }
{
    let port = number(tree, "port", 0, u8::MAX as u64);
    Judged {
        cause: port.cause,
        value: Kind::Out {
            port: port.value as u8,
        },
    }
}

fn to(tree: &Value) -> Judged<Kind>
    ensures { result ≡ spec.to_in (view tree.now) }
{
    let service = number(tree, "to_service", 0, u8::MAX as u64);
    Judged {
        cause: service.cause,
        value: Kind::To {
            to_service: service.value as u8,
        },
    }
}

fn tag(tree: &Value) -> Judged<Kind>
    ensures { result ≡ spec.tag_in (view tree.now) }
{
    let vlan = number(tree, "vlan", 0, MAX_VLAN as u64);
    let priority = number(tree, "tag_priority", 0, MAX_TAG_PRIORITY as u64);
    Judged {
        cause: earlier(vlan.cause, priority.cause),
        value: Kind::Tag {
            vlan: vlan.value as u16,
            tag_priority: priority.value as u8,
        },
    }
}

fn police(tree: &Value) -> Judged<Kind>
    ensures { result ≡ spec.police_in (view tree.now) }
{
    let rate = number(tree, "rate", 1, MAX_RATE);
    let depth = number(tree, "depth", 1, MAX_DEPTH);
    Judged {
        cause: earlier(rate.cause, depth.cause),
        value: Kind::Police {
            rate: rate.value,
            depth: depth.value,
        },
    }
}

fn macs(tree: &Value) -> Judged<Kind>
    ensures { result ≡ spec.macs_in (view tree.now) }
{
    let target = mac_under(tree, "target");
    let source = mac_under(tree, "source");
    let cause = earlier(target.cause, source.cause);
    let (target, source) = (target.value, source.value);
    Judged {
        cause,
        value: Kind::Macs { target, source },
    }
}

fn mac_under(tree: &Value, key: &str) -> Judged<[u8; 6]>
    ensures { result ≡ spec.mac_at key.now (view tree.now) }
{
    let address = match text(tree, key) {
        Some(text) => mac(text.as_bytes()),
        None => None,
    };
    match address {
        Some(value) => Judged { cause: None, value },
        None => Judged {
            cause: Some(Cause::Shape),
            value: [0; 6],
        },
    }
}

/// The IPv4 prefix under a key.
pub fn short_prefix_under(tree: &Value, key: &str) -> Judged<Prefix>
    ensures { result ≡ spec.short_prefix_at key.now (view tree.now) }
{
    let prefix = match text(tree, key) {
        Some(text) => short_prefix(text.as_bytes()),
        None => None,
    };
    match prefix {
        Some(value) => Judged { cause: None, value },
        None => Judged {
            cause: Some(Cause::Shape),
            value: Prefix::V4 {
                address: 0,
                length: 0,
            },
        },
    }
}

fn address_under(tree: &Value, key: &str) -> Judged<u32>
    ensures { result ≡ spec.address_at key.now (view tree.now) }
{
    let address = match text(tree, key) {
        Some(text) => v4(text.as_bytes()),
        None => None,
    };
    match address {
        Some(value) => Judged { cause: None, value },
        None => Judged {
            cause: Some(Cause::Shape),
            value: 0,
        },
    }
}

fn nat(tree: &Value) -> Judged<Kind>
    ensures { result ≡ spec.nat_in (view tree.now) }
{
    let inside = short_prefix_under(tree, "inside");
    let outside = address_under(tree, "outside");
    let ports = range_under(tree, "ports");
    Judged {
        cause: first_of(&[inside.cause, outside.cause, ports.cause]),
        value: Kind::Nat {
            inside: inside.value,
            outside: outside.value,
            ports: ports.value,
        },
    }
}

fn range_under(tree: &Value, key: &str) -> Judged<(u16, u16)>
    ensures { result ≡ must (range_in 1 65535) (1, 65535) (get key.now (view tree.now)) }
{
    match tree.get(key) {
        Some(value) => range_in(value, 1, u16::MAX),
        None => Judged {
            cause: Some(Cause::Shape),
            value: (1, u16::MAX),
        },
    }
}

fn guest(alloc: Global, tree: &Value, guests: &[Guest]) -> Result<Judged<Kind>, NoMemory>
    ensures { IfOk result (λ judged. judged ≡ spec.guest_in (names_of guests.now) (view tree.now)) }
{
    let guest = name(alloc, tree, "guest")?;
    let known = is_guest(guest.value.as_slice(), guests);
    Ok(Judged {
        cause: earlier(guest.cause, unless(known, Cause::Unknown)),
        value: Kind::Guest { guest: guest.value },
    })
}

fn is_guest(name: &[u8], guests: &[Guest]) -> bool
    ensures { result ≡ list_any (bytes_eq name.now) (names_of guests.now) }
{
    for guest in guests {
        if name == guest.name.as_slice() {
            return true;
        }
    }
    false
}

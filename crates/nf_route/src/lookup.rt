//! The entry that wins, by a look at each.
ghost use Rattle.std.specs.Prelude.{◌≡◌, ◌<◌, ◌↔◌, true, Some, IsTrue, MatchOption};
ghost use Rattle.onvm_base.specs.declared.function.RouteEntry.{RouteEntry};
ghost use Rattle.nf_api.specs.Routing.{IsFound, NoneMatches, Wins, length_of, verdict_towards};
ghost use Rattle.onvm_packet.specs.Holding.{covers_ipv4};

use crate::span::Span;
use onvm_base::{ChainStep, IPV4_BITS, IPV6_BITS, Prefix, RouteEntry, Verdict};

/// The verdict for an address (RFC 1812, 5.2.4.3).
pub fn find(entries: &[RouteEntry], target: u32) -> Verdict
    ensures { IsFound entries.now target result }
{
    match winner(entries, target) {
        Some(entry) => verdict_towards(entry.target),
        None => Verdict::Drop,
    }
}

// The entry that wins for an address.
fn winner(entries: &[RouteEntry], target: u32) -> Option<RouteEntry>
    ensures { MatchOption result (NoneMatches entries.now target) (Wins entries.now target) }
{
    let mut best = None;
    for entry in entries {
        if takes_lead(entry, best, target) {
            best = Some(*entry);
        }
    }
    best
}

// Whether an entry has the address, by a longer prefix than the best entry before it.
fn takes_lead(entry: &RouteEntry, best: Option<RouteEntry>, target: u32) -> bool
    ensures { IsTrue result ↔ ((covers_ipv4 entry.now.prefix target ≡ true)
        × ((other : RouteEntry) → best ≡ Some other
        → length_of other.prefix < length_of entry.now.prefix)) }
{
    Span::of(entry.prefix).has(target) && is_longer(entry.prefix, best)
}

// Whether a prefix is longer than the one of the best entry, if there is one.
fn is_longer(prefix: Prefix, best: Option<RouteEntry>) -> bool
    ensures { IsTrue result ↔ ((other : RouteEntry) → best ≡ Some other
        → length_of other.prefix < length_of prefix) }
{
    match best {
        Some(other) => length_of(other.prefix) < length_of(prefix),
        None => true,
    }
}

// How many bits of an address a prefix fixes.
fn length_of(prefix: Prefix) -> u8
    ensures { result ≡ length_of prefix }
{
    match prefix {
        Prefix::V4 { length, .. } => length.min(IPV4_BITS),
        Prefix::V6 { length, .. } => length.min(IPV6_BITS),
    }
}

// The verdict that sends a frame to a target.
fn verdict_towards(target: ChainStep) -> Verdict
    ensures { result ≡ verdict_towards target }
{
    match target {
        ChainStep::To(service) => Verdict::ToService(service),
        ChainStep::Out(port) => Verdict::Out(port),
    }
}

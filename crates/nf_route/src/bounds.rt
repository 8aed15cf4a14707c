//! The addresses at which the verdict of a table may change.
ghost use Rattle.std.specs.Prelude.{◌<◌, ◌^◌, ℕ, IfOk};
ghost use Rattle.std.specs.List.{Contains};
ghost use Rattle.std.specs.List.Sorted.{IsStrictlyIncreasing};
ghost use Rattle.nf_route.specs.Ranges.{AreBounds, Parts};

use crate::span::Span;
use onvm_base::{NoMemory, Prefix, RouteEntry};
use std::alloc::Global;

/// The bounds of a table, each once, from the lowest on: 0, and the addresses at which a prefix
/// begins or has just ended.
pub fn bounds_of(alloc: Global, entries: &[RouteEntry]) -> Result<Vec<u32>, NoMemory>
    ensures rise { IfOk result (λ bounds. IsStrictlyIncreasing bounds.items) }
    ensures part { IfOk result (λ bounds. AreBounds entries.now bounds.items) }
{
    let mut bounds = unsorted_bounds(alloc, entries)?;
    bounds.sort_unstable();
    bounds.dedup();
    Ok(bounds)
}

// The bounds as they are come upon.
fn unsorted_bounds(alloc: Global, entries: &[RouteEntry]) -> Result<Vec<u32>, NoMemory>
    ensures { IfOk result (λ bounds. AreBounds entries.now bounds.items) }
{
    let mut bounds = Vec::new(alloc);
    bounds.push(0)?;
    for entry in entries {
        push_ends(&mut bounds, entry.prefix)?;
    }
    Ok(bounds)
}

// Appends the first address of a prefix, and the one behind its last.
fn push_ends(bounds: &mut Vec<u32>, prefix: Prefix) -> Result<(), NoMemory>
    ensures part { IfOk result (λ _. Parts bounds.new.items prefix) }
    ensures kept { IfOk result (λ _. (bound : ℕ) → Contains bounds.old.items bound
        → Contains bounds.new.items bound) }
{
    let span = Span::of(prefix);
    push_address(bounds, span.first)?;
    push_address(bounds, span.end)?;
    Ok(())
}

// Appends an address, unless it is 2^32.
fn push_address(bounds: &mut Vec<u32>, address: u64) -> Result<(), NoMemory>
    ensures there { IfOk result (λ _. address < 2 ^ 32 → Contains bounds.new.items address) }
    ensures kept { IfOk result (λ _. (bound : ℕ) → Contains bounds.old.items bound
        → Contains bounds.new.items bound) }
{
    if let Ok(address) = u32::try_from(address) {
        bounds.push(address)?;
    }
    Ok(())
}

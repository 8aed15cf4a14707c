//! Ranges of addresses that have one verdict each.
ghost use Rattle.std.specs.Prelude.{◌≡◌, ◌<◌, ◌≤◌, ℕ, length, IfOk};
ghost use Rattle.std.specs.List.Sorted.{IsNonDecreasingBy, IsPartitionPoint};
ghost use Rattle.nf_route.specs.Ranges.{AreOrdered, AreRanges, IsIn};
ghost use Rattle.nf_route.specs.declared.ranges.Range.{Range};

use crate::bounds::bounds_of;
use crate::lookup::find;
use onvm_base::{NoMemory, RouteEntry, Verdict};
use std::alloc::Global;

/// The addresses from `first` up to the next range, and their verdict.
#[derive(Clone, Copy, Debug)]
pub struct Range {
    pub first: u32,
    pub verdict: Verdict,
}

/// The ranges of a table, from the lowest on: one from each bound.
pub fn ranges_of(alloc: Global, entries: &[RouteEntry]) -> Result<Vec<Range>, NoMemory>
    ensures { IfOk result (λ ranges. AreRanges entries.now ranges.items) }
{
    let bounds = bounds_of(alloc, entries)?;
    let mut ranges = Vec::with_capacity(alloc, bounds.len())?;
    for bound in &bounds {
        let first = *bound;
        let verdict = find(entries, first);
        ranges.push(Range { first, verdict })?;
    }
    Ok(ranges)
}

/// The verdict of the range that an address is in.
pub fn verdict_at(ranges: &[Range], target: u32) -> Verdict
    requires { AreOrdered ranges.now }
    ensures { (at : ℕ) × (range : Range) × IsIn ranges.now target at range
        × (result ≡ range.verdict) }
{
    ranges[count_up_to(ranges, target) - 1].verdict
}

// How many ranges begin at an address or below it, by binary search.
fn count_up_to(ranges: &[Range], target: u32) -> usize
    requires { IsNonDecreasingBy (λ (range : Range). range.first) ranges.now }
    ensures bound { result ≤ length ranges.now }
    ensures point { IsPartitionPoint (λ range. range.first ≤ target) (λ range. target < range.first)
        ranges.now result }
{
    ranges.partition_point(|range| range.first <= target)
}

//! A table of prefixes.
ghost use Rattle.std.specs.Prelude.{◌≡◌, IfOk};
ghost use Rattle.nf_api.specs.Routing.{IsFound};

use crate::ranges::{Range, ranges_of, verdict_at};
use onvm_base::{NoMemory, RouteList, Verdict};
use std::alloc::Global;
use std::fmt;
use std::marker::Model;
use std::snapshot::Snapshot;

/// The entries of a table, in file order. What it holds is the ranges that they part all addresses
/// into.
#[derive(Drop)]
pub struct Table {
    ranges: Vec<Range>,
    made_of: Snapshot<RouteList>,
}

impl Model for Table {
    ghost use Rattle.std.specs.Prelude.{List};
    ghost use Rattle.onvm_base.specs.declared.function.RouteEntry.{RouteEntry};
    ghost use Rattle.nf_route.specs.Ranges.{AreRanges};

    ghost Value = { List RouteEntry };

    ghost view = { λ table. table.made_of.value };

    ghost invariant = { λ table. AreRanges table.made_of.value table.ranges.items };
}

impl Table {
    /// A table of these entries.
    pub fn make(alloc: Global, entries: &RouteList) -> Result<Table, NoMemory>
        ensures { IfOk result (λ table. table ≡ entries.now) }
    {
        let ranges = ranges_of(alloc, entries.as_slice())?;
        Ok(Table {
            ranges,
            made_of: Snapshot::of(entries),
        })
    }

    /// The verdict for an address (RFC 1812, 5.2.4.3). It takes no memory.
    pub fn find(&self, target: u32) -> Verdict
        ensures { IsFound self.now target result }
    {
        verdict_at(&self.ranges, target)
    }
}

// By hand, since a snapshot has nothing to print.
impl fmt::Debug for Table {
    fn fmt<W: fmt::Write>(&self, f: &mut fmt::Formatter<W>) -> fmt::Result {
        f.debug_struct("Table")
            .field("ranges", &self.ranges)
            .finish_non_exhaustive()
    }
}

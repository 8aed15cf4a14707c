//! The counts of a run.
ghost use Rattle.std.specs.Prelude.{◌≡◌, ◌++◌, OnOk};
ghost use Rattle.onvm_report.specs.Report.{counter_lines, drop_lines, outcome_lines, summary, tally_of};

use crate::lines::Lines;
use crate::printed::Printed;
use crate::tally::Tally;
use onvm_base::{NoMemory, Records};

#[tactic(auto, unfolding(crate::specs::Report::summary))]
pub fn add_summary(lines: &mut Lines, printed: &Printed) -> Result<(), NoMemory>
    ensures { OnOk result (lines.new ≡ lines.old ++ summary printed.now) }
{
    lines.count("frames", printed.frames)?;
    add_outcomes(lines, printed.records)?;
    add_counters(lines, printed)
}

fn add_outcomes(lines: &mut Lines, records: &Records) -> Result<(), NoMemory>
    ensures { OnOk result (lines.new ≡ lines.old ++ outcome_lines (tally_of records.now)) }
{
    let tally = Tally::of(records.as_slice());
    add_tally(lines, &tally)
}

#[tactic(auto, unfolding(crate::specs::Report::outcome_lines))]
fn add_tally(lines: &mut Lines, tally: &Tally) -> Result<(), NoMemory>
    ensures { OnOk result (lines.new ≡ lines.old ++ outcome_lines tally.now) }
{
    lines.count("sent", tally.sent)?;
    add_drops(lines, tally)?;
    lines.count("throttled", tally.throttled)?;
    lines.count("ring-full", tally.ring_full)?;
    lines.count("pool-empty", tally.pool_empty)
}

#[tactic(auto, unfolding(crate::specs::Report::drop_lines))]
fn add_drops(lines: &mut Lines, tally: &Tally) -> Result<(), NoMemory>
    ensures { OnOk result (lines.new ≡ lines.old ++ drop_lines tally.now) }
{
    lines.count("asked", tally.asked)?;
    lines.count("chain-end", tally.chain_end)?;
    lines.count("no-service", tally.no_service)?;
    lines.count("no-port", tally.no_port)?;
    lines.count("hops", tally.hops)
}

#[tactic(auto, unfolding(crate::specs::Report::counter_lines))]
fn add_counters(lines: &mut Lines, printed: &Printed) -> Result<(), NoMemory>
    ensures { OnOk result (lines.new ≡ lines.old ++ counter_lines printed.now) }
{
    lines.count("posts", printed.posts.len() as u64)?;
    lines.count("ticks", printed.ticks.len() as u64)?;
    lines.count("lost", printed.lost)?;
    lines.count("yields", printed.yields)
}

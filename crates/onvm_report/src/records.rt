//! What became of each frame.
ghost use Rattle.std.specs.Prelude.{◌≡◌, ◌++◌, codes, OnOk};
ghost use Rattle.onvm_report.specs.Report.{AreLines, IsLongerBy, cause_of, name_of, outcome_words, record_key, record_line, ring_words, spaced};

use crate::lines::Lines;
use crate::order::key;
use onvm_base::{FnId, FunctionPlan, NoMemory, Outcome, Record, Records, RingId, Why};
use std::alloc::Global;

// Records come in the order in which the roles ended their frames.
pub fn add_records(
    alloc: Global,
    lines: &mut Lines,
    functions: &[FunctionPlan],
    records: &Records,
) -> Result<(), NoMemory>
    ensures { OnOk result (IsLongerBy (AreLines record_key (record_line functions.now) records.now) lines.old lines.new) }
{
    let mut ordered = Records::from_slice(alloc, records.as_slice())?;
    ordered.sort_by_key(record_key)?;
    for item in ordered.as_slice() {
        add_record(lines, functions, item)?;
    }
    Ok(())
}

// By port, then by number.
fn record_key(item: &Record) -> u64
    ensures { result ≡ record_key item.now }
{
    key(item.frame.port.0, item.frame.number)
}

#[tactic(auto, unfolding(crate::specs::Report::record_line))]
fn add_record(lines: &mut Lines, functions: &[FunctionPlan], item: &Record) -> Result<(), NoMemory>
    ensures { OnOk result (lines.new ≡ lines.old ++ record_line functions.now item.now) }
{
    lines.begin("record", item.frame.port.0, item.frame.number)?;
    add_outcome(lines, functions, &item.outcome)?;
    lines.words("\n")
}

fn add_outcome(
    lines: &mut Lines,
    functions: &[FunctionPlan],
    outcome: &Outcome,
) -> Result<(), NoMemory>
    ensures { OnOk result (lines.new ≡ lines.old ++ spaced (outcome_words functions.now outcome.now)) }
{
    match outcome {
        Outcome::Sent(port) => {
            lines.words(" sent")?;
            lines.number(*port)
        }
        Outcome::Dropped(function, why) => {
            lines.words(" dropped")?;
            add_name(lines, functions, *function)?;
            lines.word(cause_of(*why))
        }
        Outcome::Throttled {
            feeder,
            post,
            function,
        } => {
            lines.words(" throttled")?;
            lines.number(*feeder)?;
            lines.number(*post)?;
            add_name(lines, functions, *function)
        }
        Outcome::RingFull { ring } => {
            lines.words(" ring-full")?;
            add_ring(lines, functions, *ring)
        }
        Outcome::PoolEmpty => lines.words(" pool-empty"),
    }
}

fn cause_of(why: Why) -> &'static str
    ensures { result.now ≡ cause_of why }
{
    match why {
        Why::Asked => "asked",
        Why::ChainEnd => "chain-end",
        Why::NoService => "no-service",
        Why::NoPort => "no-port",
        Why::Hops => "hops",
    }
}

fn add_ring(lines: &mut Lines, functions: &[FunctionPlan], ring: RingId) -> Result<(), NoMemory>
    ensures { OnOk result (lines.new ≡ lines.old ++ spaced (ring_words functions.now ring)) }
{
    match ring {
        RingId::Lane(function, feeder) => {
            add_name(lines, functions, function)?;
            lines.number(feeder)
        }
        RingId::Output(function) | RingId::Mail(function) => add_name(lines, functions, function),
    }
}

fn add_name(lines: &mut Lines, functions: &[FunctionPlan], function: FnId) -> Result<(), NoMemory>
    ensures { OnOk result (lines.new ≡ lines.old ++ codes " " ++ name_of functions.now function.0) }
{
    lines.words(" ")?;
    match functions.get(usize::from(function.0)) {
        Some(plan) => lines.bytes(plan.name.as_slice()),
        None => Ok(()),
    }
}

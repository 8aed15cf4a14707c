//! The text of a report.
ghost use Rattle.std.specs.Prelude.{IfOk};
ghost use Rattle.onvm_report.specs.Report.{IsReport};

use crate::lines::Lines;
use crate::options::Options;
use crate::posts::add_posts;
use crate::printed::Printed;
use crate::records::add_records;
use crate::summary::add_summary;
use crate::ticks::add_ticks;
use onvm_base::{FunctionPlan, NoMemory, Plan, Text};
use std::alloc::Global;

/// The report of what a run of this plan left: the summary, and the other parts where the options
/// ask for them.
pub fn report(
    alloc: Global,
    plan: &Plan,
    printed: &Printed,
    options: &Options,
) -> Result<Text, NoMemory>
    ensures { IfOk result (λ text. IsReport plan.now.functions printed.now options.now text) }
{
    text_of(alloc, plan.functions.as_slice(), printed, options)
}

/// The same of a plan with these functions.
pub fn text_of(
    alloc: Global,
    functions: &[FunctionPlan],
    printed: &Printed,
    options: &Options,
) -> Result<Text, NoMemory>
    ensures { IfOk result (λ text. IsReport functions.now printed.now options.now text) }
{
    let mut lines = Lines::none(alloc);
    add_summary(&mut lines, printed)?;
    if options.records {
        add_records(alloc, &mut lines, functions, printed.records)?;
    }
    if options.throttle_log {
        add_posts(alloc, &mut lines, functions, printed.posts)?;
    }
    if options.shares {
        add_ticks(&mut lines, functions, printed.ticks.as_slice())?;
    }
    Ok(lines.into_text())
}

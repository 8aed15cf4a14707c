//! How cores shared their time.
ghost use Rattle.std.specs.Prelude.{◌≡◌, ◌++◌, ◌∷◌, [], decimal, flat_map, zip, OnOk};
ghost use Rattle.onvm_report.specs.Report.{median_word, share_line, share_word, spaced, tick_lines};

use crate::lines::Lines;
use load_estimate::{Tick, TickLine};
use onvm_base::{FunctionPlan, NoMemory};

pub fn add_ticks(
    lines: &mut Lines,
    functions: &[FunctionPlan],
    ticks: &[Tick],
) -> Result<(), NoMemory>
    ensures { OnOk result (lines.new ≡ lines.old ++ flat_map (tick_lines functions.now) ticks.now) }
{
    for tick in ticks {
        lines.begin("tick", tick.number, tick.moment)?;
        lines.words("\n")?;
        add_shares(lines, functions, tick.lines.as_slice())?;
    }
    Ok(())
}

fn add_shares(
    lines: &mut Lines,
    functions: &[FunctionPlan],
    shares: &[TickLine],
) -> Result<(), NoMemory>
    ensures { OnOk result (lines.new ≡ lines.old ++ flat_map share_line (zip functions.now shares.now)) }
{
    for at in 0..functions.len().min(shares.len()) {
        add_share(lines, &functions[at], &shares[at])?;
    }
    Ok(())
}

#[tactic(auto, unfolding(crate::specs::Report::share_line))]
fn add_share(lines: &mut Lines, function: &FunctionPlan, line: &TickLine) -> Result<(), NoMemory>
    ensures { OnOk result (lines.new ≡ lines.old ++ share_line (function.now, line.now)) }
{
    lines.words("share ")?;
    lines.bytes(function.name.as_slice())?;
    add_load(lines, line)?;
    lines.number(function.priority)?;
    add_weight(lines, line)?;
    lines.words("\n")
}

fn add_load(lines: &mut Lines, line: &TickLine) -> Result<(), NoMemory>
    ensures { OnOk result (lines.new ≡ lines.old ++ spaced (decimal line.now.arrivals ∷ median_word line.now.median ∷ [])) }
{
    lines.number(line.arrivals)?;
    match line.median {
        Some(median) => lines.number(median),
        None => lines.words(" -"),
    }
}

fn add_weight(lines: &mut Lines, line: &TickLine) -> Result<(), NoMemory>
    ensures { OnOk result (lines.new ≡ lines.old ++ spaced (share_word line.now.share ∷ decimal line.now.weight ∷ [])) }
{
    match line.share {
        Some(share) => {
            lines.number(share.num)?;
            lines.words("/")?;
            lines.digits(share.den)?;
        }
        None => lines.words(" -")?,
    }
    lines.number(line.weight)
}

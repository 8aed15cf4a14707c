//! How many frames a function may handle in one pass.
ghost use Rattle.std.specs.Prelude.{◌≡◌, ◌<◌, ◌≤◌, length};
ghost use Rattle.onvm_base.specs.declared.limits.TheConstants.{MAX_BUDGET};
ghost use Rattle.onvm_core.specs.Handling.{budget};

use onvm_base::{FnId, MAX_BUDGET, Plan, WEIGHT_ONE};

/// The budget of a function whose weight word was seen with this value: its part of a burst, at least
/// one and at most [`MAX_BUDGET`] frames. A value of 0 stands for the plan's weight.
pub fn budget_of(plan: &Plan, function: FnId, seen: u64) -> u32
    requires known { function.0 < length plan.now.functions }
    ensures budget { result ≡ budget plan.now function seen }
    ensures some { 0 < result }
    ensures most { result ≤ MAX_BUDGET }
{
    let weight = if seen == 0 {
        u64::from(plan.functions.as_slice()[function.0 as usize].weight)
    } else {
        seen
    };
    // A weight word has 64 bits, so the product may have more.
    let part = u128::from(plan.burst) * u128::from(weight) / u128::from(WEIGHT_ONE);
    part.max(1).min(u128::from(MAX_BUDGET)) as u32
}

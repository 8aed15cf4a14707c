//! The functions of a chain, as bits.
ghost use Rattle.std.specs.Prelude.{◌≡◌, ◌≤◌, ℕ, length, map, IfOk};
ghost use Rattle.onvm_base.specs.declared.limits.TheConstants.{MAX_FUNCTIONS};
ghost use Rattle.nf_registry.specs.Masks.{AreMasks, HasBits, names};

use onvm_base::{ChainStep, FunctionPlan, NoMemory, Plan};
use std::alloc::Global;

/// By chain, its mask.
pub fn masks_of(alloc: Global, plan: &Plan) -> Result<Vec<u32>, NoMemory>
    ensures { IfOk result (λ masks. AreMasks plan.now masks.items) }
{
    let functions = plan.functions.as_slice();
    let mut masks = Vec::new(alloc);
    for chain in plan.chains.as_slice() {
        masks.push(mask_of(chain.steps.as_slice(), functions))?;
    }
    Ok(masks)
}

fn mask_of(steps: &[ChainStep], functions: &[FunctionPlan]) -> u32
    requires { length functions.now ≤ MAX_FUNCTIONS }
    ensures { HasBits steps.now functions.now result }
{
    let mut mask: u32 = 0;
    for at in 0..functions.len() {
        if is_named(steps, functions[at].service) {
            mask |= 1 << at;
        }
    }
    mask
}

fn is_named(steps: &[ChainStep], service: u8) -> bool
    ensures { result ≡ names steps.now service }
{
    for step in steps {
        if *step == ChainStep::To(service) {
            return true;
        }
    }
    false
}

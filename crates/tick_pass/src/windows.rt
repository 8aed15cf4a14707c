//! The windows of all functions.
ghost use Rattle.std.specs.Prelude.{◌≡◌, ◌≤◌, [], All, IfOk, map, replicate, length};
ghost use Rattle.load_estimate.specs.Windows.{empty_window, without_old};

use load_estimate::Window;
use onvm_base::{NoMemory, Plan};
use std::alloc::Global;

/// A window for each function, by function.
pub(crate) fn windows_of(alloc: Global, plan: &Plan) -> Result<Vec<Window>, NoMemory>
    ensures { IfOk result (λ windows.
        windows.items ≡ replicate (length plan.now.functions) (empty_window plan.now.window)) }
{
    let mut windows = Vec::new(alloc);
    for _ in 0..plan.functions.len() {
        windows.push(Window::make(alloc, plan.window)?)?;
    }
    Ok(windows)
}

/// Lets old samples go from all windows. It takes no memory.
pub(crate) fn age_out(windows: &mut [Window], now: u64)
    requires { All (λ window. window.latest ≤ now) windows.old }
    ensures { windows.new ≡ map (without_old now) windows.old }
{
    for window in windows.iter_mut() {
        window.age_out(now);
    }
}

//! The loads of the functions of one core.
ghost use Rattle.std.specs.Prelude.{◌≡◌, ◌<◌, ◌++◌, ◌∷◌, [], ℕ, List, Some, length, map, slice_get, IfOk, IfSome};
ghost use Rattle.onvm_base.specs.declared.function.FunctionPlan.{FunctionPlan};
ghost use Rattle.onvm_base.specs.declared.limits.TheConstants.{MAX_FUNCTIONS};
ghost use Rattle.load_estimate.specs.declared.sample.Sample.{Sample};
ghost use Rattle.cpu_shares.specs.Shares.{IsWeight, load_in};
ghost use Rattle.nf_registry.specs.Places.{residents};
ghost use Rattle.onvm_promises.specs.Lines.{function_share};
ghost use Rattle.tick_pass.specs.Telling.{AreCurrent, AreLoaded, load_at, priority_at};

use crate::room::append;
use cpu_shares::{Load, share};
use load_estimate::{Share, Window};
use onvm_base::{FunctionPlan, MAX_FUNCTIONS, NoMemory, Plan};
use std::alloc::Global;

/// Room for the loads and the priorities of the functions of one core.
#[derive(Drop)]
pub struct CoreLoads {
    pub loads: Vec<Load>,
    pub priorities: Vec<u16>,
}

/// What a window says.
pub(crate) fn load_of(window: &Window) -> Load
    ensures { result ≡ load_in window.now.samples }
{
    Load {
        arrivals: window.arrivals(),
        median: window.median(),
    }
}

// The place of a function among those of its core.
fn place_of(functions: &[FunctionPlan], f: usize) -> usize
    requires { f < length functions.now }
    ensures { (function : FunctionPlan) → slice_get functions.now f ≡ Some function
        → slice_get (residents function.core functions.now) result ≡ Some (record { 0 = f }) }
{
    let core = functions[f].core;
    let mut place = 0;
    for other in 0..f {
        if functions[other].core == core {
            place += 1;
        }
    }
    place
}

impl CoreLoads {
    ghost use Rattle.tick_pass.specs.Roles.{HasCoreRoom};

    /// All room is taken here.
    pub fn make(alloc: Global) -> Result<CoreLoads, NoMemory>
        ensures { IfOk result HasCoreRoom }
    {
        let loads = Vec::with_capacity(alloc, MAX_FUNCTIONS)?;
        let priorities = Vec::with_capacity(alloc, MAX_FUNCTIONS)?;
        Ok(CoreLoads { loads, priorities })
    }

    // Takes the load and the priority of one function more.
    fn add(&mut self, load: Load, priority: u16)
        requires room { HasCoreRoom self.old }
        requires loads { length self.old.loads.items < MAX_FUNCTIONS }
        requires priorities { length self.old.priorities.items < MAX_FUNCTIONS }
        ensures loads { self.new.loads.items ≡ self.old.loads.items ++ load ∷ [] }
        ensures priorities { self.new.priorities.items ≡ self.old.priorities.items ++ priority ∷ [] }
        ensures room { HasCoreRoom self.new }
    {
        append(&mut self.loads, load);
        append(&mut self.priorities, priority);
    }

    // Reads the windows of the functions of a core.
    fn gather(&mut self, plan: &Plan, windows: &[Window], core: u8)
        requires room { HasCoreRoom self.old }
        requires windows { AreLoaded plan.now windows.now }
        ensures loads { self.new.loads.items ≡ map (load_at windows.now) (residents core plan.now.functions) }
        ensures priorities { self.new.priorities.items
            ≡ map (priority_at plan.now.functions) (residents core plan.now.functions) }
        ensures room { HasCoreRoom self.new }
    {
        self.loads.clear();
        self.priorities.clear();
        let functions = plan.functions.as_slice();
        for f in 0..functions.len() {
            if functions[f].core == core {
                self.add(load_of(&windows[f]), functions[f].priority);
            }
        }
    }

    /// A function's share of its core. It takes no memory.
    pub fn share(&mut self, plan: &Plan, windows: &[Window], f: usize) -> Option<Share>
        requires room { HasCoreRoom self.old }
        requires windows { AreLoaded plan.now windows.now }
        requires known { f < length plan.now.functions }
        ensures share { (samples : List Sample) (now : ℕ) (function : FunctionPlan)
            → AreCurrent plan.now samples now windows.now → slice_get plan.now.functions f ≡ Some function
            → result ≡ function_share plan.now samples now f function }
        ensures weight { IfSome result (λ share. IsWeight share.weight) }
        ensures room { HasCoreRoom self.new }
    {
        let functions = plan.functions.as_slice();
        self.gather(plan, windows, functions[f].core);
        share(&self.loads, &self.priorities, place_of(functions, f))
    }
}

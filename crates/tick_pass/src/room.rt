//! The memory of a tick role, and what the role leaves.
ghost use Rattle.std.specs.Prelude.{◌≡◌, ◌+◌, ◌<◌, ◌≤◌, ◌++◌, ◌∷◌, [], IfOk, vec_len, vec_capacity};

use crate::loads::CoreLoads;
use crate::windows::windows_of;
use desc_ring::Mail;
use load_estimate::{Sample, Samples, Tick, Ticks, Window};
use onvm_base::{NoMemory, Plan};
use std::alloc::Global;

/// What a tick role needs of memory, but for the samples and ticks of its passes.
#[derive(Drop)]
pub struct TickRoom {
    // By function. Empty until the first pass, since an end is one of a board.
    pub(crate) mails: Vec<Mail>,
    // By function.
    pub(crate) windows: Vec<Window>,
    pub(crate) core: CoreLoads,
    pub(crate) samples: Vec<Sample>,
    pub(crate) ticks: Vec<Tick>,
}

/// What a tick role leaves: all samples that it took and all ticks that it made, in order.
#[derive(Debug, Drop)]
pub struct TickKept {
    pub samples: Samples,
    pub ticks: Ticks,
}

/// Appends an item to a list that has room for it.
pub(crate) fn append<T: Drop>(list: &mut Vec<T>, item: T)
    requires { vec_len list.old < vec_capacity list.old }
    ensures items { list.new.items ≡ list.old.items ++ item ∷ [] }
    ensures len { vec_len list.new ≡ vec_len list.old + 1 }
    ensures capacity { vec_capacity list.old ≤ vec_capacity list.new }
{
    let _ = list.push(item);
}

impl TickRoom {
    ghost use Rattle.tick_pass.specs.Roles.{IsNewRoom};

    /// The room of a plan's tick role. All memory but that of samples and ticks is taken here.
    pub fn make(alloc: Global, plan: &Plan) -> Result<TickRoom, NoMemory>
        ensures { IfOk result (IsNewRoom plan.now) }
    {
        let mails = Vec::with_capacity(alloc, plan.functions.len())?;
        let windows = windows_of(alloc, plan)?;
        let core = CoreLoads::make(alloc)?;
        Ok(TickRoom {
            mails,
            windows,
            core,
            samples: Vec::new(alloc),
            ticks: Vec::new(alloc),
        })
    }
}

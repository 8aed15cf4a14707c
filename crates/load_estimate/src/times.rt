//! Times in order.
ghost use Rattle.std.specs.Prelude.{◌≡◌, ◌<◌, ℕ, List, [], length, IfOk};
ghost use Rattle.std.specs.List.Sorted.{IsNonDecreasing};
ghost use Rattle.onvm_base.specs.declared.limits.TheConstants.{WINDOW_SAMPLES};
ghost use Rattle.load_estimate.specs.Order.{insertion, lower_middle, upper_bound};

use onvm_base::{NoMemory, WINDOW_SAMPLES};
use std::alloc::Global;
use std::marker::Model;

/// The times of a window's samples, from the least on. It has room for [`WINDOW_SAMPLES`].
#[derive(Debug, Drop)]
pub struct Times {
    items: Vec<u64>,
}

impl Model for Times {
    ghost use Rattle.std.specs.Prelude.{List, ℕ, vec_capacity};
    ghost use Rattle.load_estimate.specs.Fields.{AreTimes};

    ghost Value = { List ℕ };

    ghost view = { λ times. times.items.items };

    ghost invariant = { λ times. AreTimes times.items.items (vec_capacity times.items) };
}

impl Times {
    /// No times. All room is taken here.
    pub fn make(alloc: Global) -> Result<Times, NoMemory>
        ensures { IfOk result (λ times. times ≡ []) }
    {
        let items = Vec::with_capacity(alloc, WINDOW_SAMPLES)?;
        Ok(Times { items })
    }

    /// Puts a time in its place. It takes no memory.
    pub fn add(&mut self, time: u64)
        requires { length self.old < WINDOW_SAMPLES }
        ensures { self.new ≡ insertion time self.old }
    {
        let at = upper_bound(&self.items, time);
        let _ = self.items.insert(at, time);
    }

    /// Takes a time out that was added, of equal ones the last.
    pub fn remove(&mut self, time: u64)
        ensures { (rest : List ℕ) → self.old ≡ insertion time rest → self.new ≡ rest }
    {
        let behind = upper_bound(&self.items, time);
        if behind > 0 {
            self.items.remove(behind - 1);
        }
    }

    /// The middle one, of an even number of times the lower of two. None where there is no time.
    pub fn median(&self) -> Option<u64>
        ensures { result ≡ lower_middle self.now }
    {
        let middle = self.items.len().saturating_sub(1) / 2;
        self.items.get(middle).copied()
    }
}

// How many times are not above this one, by binary search.
fn upper_bound(items: &[u64], time: u64) -> usize
    requires { IsNonDecreasing items.now }
    ensures { result ≡ upper_bound time items.now }
{
    items.partition_point(|item| *item <= time)
}

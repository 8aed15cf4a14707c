//! The locked operations of a hop with nothing around them: what no board can go below.
ghost use Rattle.std.specs.Prelude.{◌≡◌, IfOk, length};
ghost use Rattle.board_bench.specs.declared.boards.TheConstants.{RING};

use crate::boards::RING;
use crate::cost::{BURST, Cost};
use onvm_base::NoMemory;
use onvm_host::Clock;
use std::alloc::Global;
use std::sync::atomic::{AtomicU64, Ordering};

// An item goes back on the lane so many cells ahead.
const IN_FLIGHT: u16 = 64;

/// What a swap and a compare-exchange at each of two rings cost, over bursts.
pub fn cost_of_locked<C: Clock>(alloc: Global, clock: &C, rounds: u32) -> Result<Cost, NoMemory> {
    let lane = cells(alloc, IN_FLIGHT)?;
    let output = cells(alloc, 0)?;
    let mut cost = Cost::new();
    for _ in 0..rounds {
        let start = clock.now();
        let sum = locked_burst(lane.as_slice(), output.as_slice());
        cost.add(clock.now().saturating_sub(start), sum);
    }
    Ok(cost)
}

// The cells of a ring that has so many items.
fn cells(alloc: Global, items: u16) -> Result<Vec<AtomicU64>, NoMemory>
    ensures { IfOk result (λ cells. length cells.items ≡ RING) }
{
    let mut cells = Vec::with_capacity(alloc, RING as usize)?;
    for number in 0..RING {
        let item = if number < items { number + 1 } else { 0 };
        cells.push(AtomicU64::new(u64::from(item)))?;
    }
    Ok(cells)
}

fn locked_burst(lane: &[AtomicU64], output: &[AtomicU64]) -> u64
    requires lane { length lane.now ≡ RING }
    requires output { length output.now ≡ RING }
{
    let mut sum = 0u64;
    for turn in 0..BURST as usize {
        let at = turn % RING as usize;
        let ahead = (at + IN_FLIGHT as usize) % RING as usize;
        let popped = lane[at].swap(0, Ordering::SeqCst);
        let pushed = output[at].compare_exchange(0, popped, Ordering::SeqCst, Ordering::SeqCst);
        let popped = output[at].swap(0, Ordering::SeqCst);
        let again = lane[ahead].compare_exchange(0, popped, Ordering::SeqCst, Ordering::SeqCst);
        sum = sum
            .wrapping_add(popped)
            .wrapping_add(pushed.unwrap_or(1))
            .wrapping_add(again.unwrap_or(1));
    }
    sum
}

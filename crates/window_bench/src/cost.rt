//! The time that a full window takes for a sample.
ghost use Rattle.std.specs.Prelude.{◌≡◌};

use crate::course::{Course, Times};
use load_estimate::{Sample, Window};
use onvm_base::{FnId, NoMemory, WINDOW_SAMPLES};
use onvm_host::Clock;
use std::alloc::Global;

// Samples between two looks at the clock: as many as renew the window.
const BATCH: usize = WINDOW_SAMPLES;

/// What batches of samples cost.
#[derive(Clone, Copy, Debug)]
pub struct Cost {
    // The least times in nanoseconds that one batch took, without and with a look at the window
    // behind each sample.
    add: u64,
    add_and_median: u64,
    /// A sum over all medians and arrivals. Since it is printed, the compiler can leave out no work
    /// that it depends on.
    pub sum: u64,
}

impl Cost {
    /// Of one sample that is added, in tenths of a nanosecond.
    pub fn per_add(&self) -> u64 {
        self.add.saturating_mul(10) / BATCH as u64
    }

    /// Of one sample that is added, and the arrivals and the median behind it.
    pub fn per_add_and_median(&self) -> u64 {
        self.add_and_median.saturating_mul(10) / BATCH as u64
    }
}

/// What a full window costs for so many batches of samples.
pub fn cost_of<C: Clock>(
    alloc: Global,
    clock: &C,
    course: Course,
    rounds: u32,
) -> Result<Cost, NoMemory> {
    let mut cost = Cost {
        add: u64::MAX,
        add_and_median: u64::MAX,
        sum: 0,
    };
    let mut times = Times::make(course);
    let mut window = Window::make(alloc, u64::MAX)?;
    let full = batch(alloc, &mut times)?;
    add_all(&mut window, &full);
    for _ in 0..rounds {
        let first = batch(alloc, &mut times)?;
        let start = clock.now();
        add_all(&mut window, &first);
        cost.add = cost.add.min(clock.now().saturating_sub(start));

        let second = batch(alloc, &mut times)?;
        let start = clock.now();
        let sum = add_all_and_ask(&mut window, &second);
        cost.add_and_median = cost.add_and_median.min(clock.now().saturating_sub(start));
        cost.sum = cost.sum.wrapping_add(sum);
    }
    Ok(cost)
}

// Samples that come at one moment. They are made anew for each batch, which isn't timed.
fn batch(alloc: Global, times: &mut Times) -> Result<Vec<u64>, NoMemory> {
    let mut batch = Vec::with_capacity(alloc, BATCH)?;
    for _ in 0..BATCH {
        batch.push(times.next())?;
    }
    Ok(batch)
}

fn sample(time: u64) -> Sample
    ensures { result.moment ≡ 0 }
{
    Sample {
        function: FnId(0),
        moment: 0,
        count: 1,
        time,
    }
}

fn add_all(window: &mut Window, times: &[u64])
    requires { window.old.latest ≡ 0 }
    ensures { window.new.latest ≡ 0 }
{
    for time in times {
        window.add(sample(*time));
    }
}

fn add_all_and_ask(window: &mut Window, times: &[u64]) -> u64
    requires { window.old.latest ≡ 0 }
    ensures { window.new.latest ≡ 0 }
{
    let mut sum = 0u64;
    for time in times {
        window.add(sample(*time));
        sum = sum
            .wrapping_add(window.median().unwrap_or(0))
            .wrapping_add(window.arrivals());
    }
    sum
}

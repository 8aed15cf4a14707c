//! Bursts of calls, and the time that one call takes.

/// Calls between two looks at the clock.
pub const BURST: u32 = 4096;

/// What bursts of calls cost.
#[derive(Clone, Copy, Debug)]
pub struct Cost {
    // The least time in nanoseconds that one burst took.
    least: u64,
    // A sum over what the calls answered. Since it is printed, the compiler can leave out none.
    sum: u64,
}

impl Cost {
    /// Of no burst yet.
    pub fn new() -> Cost {
        Cost {
            least: u64::MAX,
            sum: 0,
        }
    }

    /// One more burst, with its time in nanoseconds and the sum of what its calls answered.
    pub fn add(&mut self, nanoseconds: u64, sum: u64) {
        self.least = self.least.min(nanoseconds);
        self.sum = self.sum.wrapping_add(sum);
    }

    /// The least time of a burst.
    pub fn least(&self) -> u64 {
        self.least
    }

    /// Prints the time of one call in the fastest burst.
    pub fn print(&self, rt: &HostRuntime, name: &str) {
        let tenths = self.least.saturating_mul(10) / u64::from(BURST);
        let _ = println!(rt;
            "{name}: {}.{} ns, sum {}",
            tenths / 10,
            tenths % 10,
            self.sum
        );
    }
}

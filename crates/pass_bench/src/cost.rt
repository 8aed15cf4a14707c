//! Bursts of frames, and the time that one frame takes.
ghost use Rattle.std.specs.Prelude.{◌<◌};

/// Frames between two looks at the clock.
pub const BURST: u32 = 64;

/// What bursts of frames cost.
#[derive(Clone, Copy, Debug)]
pub struct Cost {
    // The least time in nanoseconds that one burst took.
    least: u64,
    // A sum over what came of the frames. Since it is printed, the compiler can leave out none.
    sum: u64,
}

/// What frames cost that go on to a lane, and ones that are sent.
#[derive(Clone, Copy, Debug)]
pub struct Costs {
    pub moved: Cost,
    pub sent: Cost,
}

impl Cost {
    /// Of no burst yet.
    pub fn new() -> Cost {
        Cost {
            least: u64::MAX,
            sum: 0,
        }
    }

    /// One more burst, with its time in nanoseconds and what came of it.
    pub fn add(&mut self, nanoseconds: u64, sum: u64) {
        self.least = self.least.min(nanoseconds);
        self.sum = self.sum.wrapping_add(sum);
    }

    /// Prints the time of one frame in the fastest burst.
    pub fn print(&self, rt: &HostRuntime, name: &str) {
        self.print_of(rt, name, BURST);
    }

    /// The same of bursts of so many frames.
    pub fn print_of(&self, rt: &HostRuntime, name: &str, frames: u32)
        requires { 0 < frames }
    {
        let tenths = self.least.saturating_mul(10) / u64::from(frames);
        let _ = println!(rt;
            "{name}: {}.{} ns, sum {}",
            tenths / 10,
            tenths % 10,
            self.sum
        );
    }
}

impl Costs {
    /// Of no burst yet.
    pub fn new() -> Costs {
        Costs {
            moved: Cost::new(),
            sent: Cost::new(),
        }
    }
}

//! The least time that one of several sessions took.
ghost use Rattle.std.specs.Prelude.{◌<◌};

/// What sessions cost.
#[derive(Clone, Copy, Debug)]
pub struct Cost {
    // The least time that one took, in nanoseconds.
    least: u64,
    // How many frames were sent in all. Since it is printed, the compiler can leave out no session.
    sent: u64,
}

impl Cost {
    /// Of none yet.
    pub fn new() -> Cost {
        Cost {
            least: u64::MAX,
            sent: 0,
        }
    }

    /// One more, with its nanoseconds and the frames that were sent.
    pub fn add(&mut self, nanoseconds: u64, sent: u64) {
        self.least = self.least.min(nanoseconds);
        self.sent = self.sent.wrapping_add(sent);
    }

    /// Prints the time of one of so many frames, and how many went by in a second.
    pub fn print(&self, rt: &HostRuntime, name: &str, frames: u32)
        requires { 0 < frames }
    {
        let tenths = self.least.saturating_mul(10) / u64::from(frames);
        let thousands = u64::from(frames).saturating_mul(1_000_000) / self.least.max(1);
        let _ = println!(rt;
            "{name}: {}.{} ns a frame, {thousands} thousand frames a second, sent {}",
            tenths / 10,
            tenths % 10,
            self.sent
        );
    }
}

//! How old the queue of a lane is.
ghost use Rattle.std.specs.Prelude.{◌≡◌, ◌≤◌, length, IfOk};
ghost use Rattle.watermark.specs.Moments.{age_of, no_moments, pushed_at};

use circular_buffer::HeapCircularBuffer;
use onvm_base::NoMemory;
use std::alloc::Global;
use std::marker::Model;

/// The moments of a lane's last pushes, as many as its high mark.
#[derive(Drop)]
pub struct Ages {
    high: u16,
    // The oldest first.
    moments: HeapCircularBuffer<u64>,
}

impl Model for Ages {
    ghost use Rattle.watermark.specs.Moments.{AreMoments, PushMoments};

    ghost Value = { PushMoments };

    ghost view = { λ ages. record { high = ages.high; moments = ages.moments.items } };

    ghost invariant = { λ ages. AreMoments ages.high ages.moments };
}

impl Ages {
    /// No push yet, and this high mark. All room is taken here.
    pub fn make(alloc: Global, high: u16) -> Result<Ages, NoMemory>
        requires { 1 ≤ high }
        ensures { IfOk result (λ ages. ages ≡ no_moments high) }
    {
        let moments = HeapCircularBuffer::with_capacity(alloc, usize::from(high))?;
        Ok(Ages { high, moments })
    }

    /// Takes note of a push at this moment, in nanoseconds. It takes no memory.
    pub fn pushed(&mut self, now: u64)
        ensures { self.new ≡ pushed_at now self.old }
    {
        self.moments.push_back(now);
    }

    /// The queuing time in nanoseconds: how long ago the push was made that stands at the high
    /// mark's place from the back. Before as many pushes there is none.
    pub fn age(&self, now: u64) -> u64
        requires { length self.now.moments ≡ self.now.high }
        ensures { result ≡ age_of now self.now }
    {
        match self.moments.front() {
            Some(oldest) => now.saturating_sub(*oldest),
            None => now,
        }
    }
}

//! A clock that reads the time.
ghost use Rattle.std.specs.Prelude.{⊤};

use onvm_host::Clock;
use std::time;
use std::time::Instant;

/// The monotonic clock of a runtime, in nanoseconds since this one was made. Where the clock can't
/// be read, the moment is 0.
#[derive(Drop)]
pub struct SysClock<R> {
    rt: R,
    start: Option<Instant>,
}

impl<R: time::Clock> SysClock<R> {
    pub fn make(rt: R) -> SysClock<R> {
        let start = Instant::now(&rt).ok();
        SysClock { rt, start }
    }

    fn nanoseconds(&self) -> Option<u64> {
        let since = Instant::now(&self.rt).ok()?.duration_since(self.start?);
        Some(u64::try_from(since.as_nanos()).unwrap_or(u64::MAX))
    }
}

impl<R: time::Clock + Sync> Clock for SysClock<R> {
    ghost may_be_now = { λ _ _. ⊤ };

    ghost may_span = { λ _ _ _. ⊤ };

    fn now(&self) -> u64 {
        self.nanoseconds().unwrap_or(0)
    }

    fn span(&self, start: u64, _cost: u64) -> u64 {
        self.now().saturating_sub(start)
    }
}

//! Calls, counted.
ghost use Rattle.std.specs.Prelude.{◌≡◌, is_err};
ghost use Rattle.onvm_host.specs.Tally.{counted, fails_next, fresh};

use crate::memory::file::Calls;
use onvm_base::Failed;

/// Counts calls. Those of the listed numbers fail.
#[derive(Drop)]
pub(super) struct Tally {
    pub(super) fail: Calls,
    pub(super) calls: u64,
}

impl Tally {
    pub(super) fn make(fail: Calls) -> Tally
        ensures { result ≡ fresh fail }
    {
        Tally { fail, calls: 0 }
    }

    /// Counts a call, and fails where it is one of those that do.
    pub(super) fn call(&mut self) -> Result<(), Failed>
        ensures counted { self.new ≡ counted self.old }
        ensures listed { is_err result ≡ fails_next self.old }
    {
        self.calls = self.calls.saturating_add(1);
        if self.fail.as_slice().contains(&self.calls) {
            return Err(Failed);
        }
        Ok(())
    }
}

//! Moments, and a gate before each pass.
ghost use Rattle.std.specs.Prelude.{◌≡◌, ℕ, ⊤};

/// Moments and spans in nanoseconds.
pub trait Clock: Sync {
    /// Which moments it may answer.
    ghost may_be_now: { Self → ℕ → Type 0 };

    /// Which spans it may answer for a cost.
    ghost may_span: { Self → ℕ → ℕ → Type 0 };

    /// The moment.
    fn now(&self) -> u64
        ensures { may_be_now self.now result };

    /// The time since `start`, for work of this cost.
    fn span(&self, start: u64, cost: u64) -> u64
        ensures { may_span self.now cost result };
}

/// A clock that stands at one moment, and for which work takes its cost.
#[derive(Clone, Copy, Debug, PartialEq, Eq)]
pub struct StepClock {
    pub at: u64,
}

impl Clock for StepClock {
    ghost may_be_now = { λ clock moment. moment ≡ clock.at };

    ghost may_span = { λ _ cost span. span ≡ cost };

    fn now(&self) -> u64 {
        self.at
    }

    fn span(&self, _start: u64, cost: u64) -> u64 {
        cost
    }
}

/// What a role is to pass before each of its passes, where roles run beside each other. Where they take
/// turns it isn't called.
pub trait Gate: Sync {
    /// The role with this number is about to make the pass with this one. The numbers of a role's
    /// passes begin with 0, and rise.
    fn turn(&self, role: u32, pass: u64);
}

/// A gate that holds nobody up.
#[derive(Clone, Copy, Debug, PartialEq, Eq)]
pub struct OpenGate;

impl Gate for OpenGate {
    fn turn(&self, _role: u32, _pass: u64) {}
}

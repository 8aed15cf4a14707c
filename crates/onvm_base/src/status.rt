//! How a run ended.
ghost use Rattle.std.specs.Prelude.{◌≡◌};

/// How a run ended.
#[derive(Clone, Copy, Debug, PartialEq, Eq)]
pub enum Status {
    /// All output was written whole.
    Done,
    /// The command line is not in form.
    Words,
    /// The chain file is no plan.
    Plan,
    /// A capture is faulty or over a limit.
    Capture,
    /// An input could not be opened or read.
    Read,
    /// An output could not be created, written or said.
    Write,
    /// Want of memory.
    Memory,
}

impl Status {
    ghost use Rattle.onvm_base.specs.Status.{code_of};

    /// The exit status of a process: 1 is left to the runtime.
    pub fn code(&self) -> u8
        ensures { result ≡ code_of self.now }
    {
        match self {
            Status::Done => 0,
            Status::Words => 2,
            Status::Plan => 3,
            Status::Capture => 4,
            Status::Read => 5,
            Status::Write => 6,
            Status::Memory => 7,
        }
    }
}

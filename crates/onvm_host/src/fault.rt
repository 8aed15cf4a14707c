//! Why a host did not open or create.

use onvm_base::{Failed, NoMemory};
use std::alloc::{AllocError, AllocFailed};
use thiserror::Error;

/// Why an input or an output was not made.
#[derive(Clone, Copy, Debug, PartialEq, Eq, Error)]
pub enum HostFault {
    #[error("the outside failed")]
    Failed,
    #[error("want of memory")]
    Memory,
}

impl From<Failed> for HostFault {
    ghost use Rattle.std.specs.Prelude.{◌≡◌};
    ghost use Rattle.onvm_host.specs.declared.fault.HostFault.TheVariants as variant;

    ghost from_gives = { λ _ fault. fault ≡ variant.Failed };

    fn from(_failed: Failed) -> HostFault {
        HostFault::Failed
    }
}

impl From<NoMemory> for HostFault {
    ghost use Rattle.std.specs.Prelude.{◌≡◌};
    ghost use Rattle.onvm_host.specs.declared.fault.HostFault.TheVariants as variant;

    ghost from_gives = { λ _ fault. fault ≡ variant.Memory };

    fn from(_refused: NoMemory) -> HostFault {
        HostFault::Memory
    }
}

impl From<AllocError> for HostFault {
    ghost use Rattle.std.specs.Prelude.{◌≡◌};
    ghost use Rattle.onvm_host.specs.declared.fault.HostFault.TheVariants as variant;

    ghost from_gives = { λ _ fault. fault ≡ variant.Memory };

    fn from(_refused: AllocError) -> HostFault {
        HostFault::Memory
    }
}

impl<T: Drop> From<AllocFailed<T>> for HostFault {
    ghost use Rattle.std.specs.Prelude.{◌≡◌};
    ghost use Rattle.onvm_host.specs.declared.fault.HostFault.TheVariants as variant;

    ghost from_gives = { λ _ fault. fault ≡ variant.Memory };

    fn from(_refused: AllocFailed<T>) -> HostFault {
        HostFault::Memory
    }
}

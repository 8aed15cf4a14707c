//! Names that outlive their caller's.
ghost use Rattle.std.specs.Prelude.{◌≡◌, IfOk};

use onvm_base::{ListOf, Name, NoMemory};
use std::alloc::Global;

/// A copy of a name.
pub fn copy_of(alloc: Global, name: &str) -> Result<Name, NoMemory>
    ensures { IfOk result (λ copy. copy ≡ name.now) }
{
    ListOf::from_slice(alloc, name.as_bytes())
}

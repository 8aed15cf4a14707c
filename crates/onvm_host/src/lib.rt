//! What onvm asks of the outside.
//!
//! A *source* gives bytes, a *sink* takes them, and a *host* has files and a place to say things.
//! A host's *deeds* are its calls with what came of each, and some of them are *faults*; a *story*
//! is how a host remembers them, and *amounts* are how an input or an output does. Each may
//! *tell* its content, and where it does, contracts say which bytes came and went. A *clock*
//! answers moments and spans in nanoseconds. A *gate* is for a role to pass before each of its passes.
#![tactic(auto)]

mod clock;
mod fault;
mod memory;
mod name;
mod story;
#[cfg(test)]
mod tests;
mod traits;

pub use clock::{Clock, Gate, OpenGate, StepClock};
pub use fault::HostFault;
pub use memory::{Calls, MemFile, MemFiles, MemHost, MemInput, MemOutput, have_distinct_names};
pub use name::copy_of;
pub use story::{Amounts, Story};
pub use traits::{Host, Sink, Source};

//! A host in memory, which tells everything.
//!
//! Its files are the *given* ones and those that were *written*. A *tally* counts calls, of which
//! those of the listed numbers fail. A *room* has bytes, up to the space that was taken for them.

mod file;
mod host;
mod input;
mod output;
mod room;
mod tally;
mod written;

pub use file::{Calls, MemFile, MemFiles, have_distinct_names};
pub use host::MemHost;
pub use input::MemInput;
pub use output::MemOutput;

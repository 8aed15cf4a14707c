//! A whole run of onvm: words in, a capture and a report out.
//!
//! A *command* names a chain file, an output and the captures of ports. A run *replays* the captures
//! through the functions of the chain file in a session, writes the frames that were sent and says a
//! report. What stops it is a *fault*, which has a status and a line.
#![tactic(auto)]

mod chain;
mod fault;
mod inputs;
pub mod laws;
mod manager;
mod output;
mod replay;
#[cfg(test)]
mod tests;

pub use manager::{Finish, run};

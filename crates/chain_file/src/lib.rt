//! Chain files: what a run is made of, read from JSON.
//!
//! A *place* of the file is the file itself, its top object, a function, a chain, a step of a chain,
//! a rule or the default. At a place there may be a *cause*. The *fault* of a file is the first
//! cause at the first place that has one. A *judged* value is one with its cause, if there is one.
#![tactic(auto)]

mod chains;
mod fault;
mod file;
mod functions;
mod judged;
mod kind_lists;
mod kinds;
pub mod laws;
mod rules;
mod spelling;
#[cfg(test)]
mod tests;
mod tests_of;
mod top;
mod values;

pub use fault::{Cause, FileFault, Part, Place};
pub use file::{MAX_CHAIN_FILE_BRACKETS, read};

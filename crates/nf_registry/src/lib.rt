//! Where a plan's functions are found: by service, by chain, by core.
//!
//! An *instance* of a service is a function that offers it. The *mask* of a chain has a bit for each
//! function that its steps name. A function's *sender* is the transmit role that moves what it has
//! handled.
#![tactic(auto)]

mod masks;
mod registry;
mod tables;
#[cfg(test)]
mod tests;

pub use registry::Registry;
pub use tables::FnList;

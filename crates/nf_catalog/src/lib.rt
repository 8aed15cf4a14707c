//! The functions of a plan, each as a unit that handles packets.
//!
//! A *unit* is one function of a plan, whatever its kind: one that keeps nothing, one that keeps
//! something, or a *guest*, which the caller hands in and the plan names. Unit f is that of the
//! plan's function f.
#![tactic(auto)]

mod assembly;
mod guests;
#[cfg(test)]
mod tests;
mod unit;

pub use assembly::{Units, units};
pub use unit::{Unit, UnitOf};

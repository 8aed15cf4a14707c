//! Where a frame goes as it enters its chain, and after each verdict.
//!
//! A frame has a chain, a *cursor*, which is the place of a step in it, and *hops*, which are how many
//! functions have handled it. Its flow hash is that of its heads as it entered.
#![tactic(auto)]

mod moves;
#[cfg(test)]
mod tests;

pub use moves::{enter, step};
pub use onvm_base::Move;

//! The chain of each frame that a port receives.
//!
//! Frames of one *flow* agree in all that rules can ask of them: they have one *key*. What the rules
//! pick for a flow is *remembered*, for the flows seen last, so that most frames are tested for no
//! rule.
#![tactic(auto)]

mod table;
#[cfg(test)]
mod tests;

pub use table::{FlowTable, MAX_FLOWS};

//! The chain that the rules of a chain file pick for a frame.
//!
//! A *rule* has tests and a chain. Rules are judged in file order, and the first whose tests hold
//! for a frame picks its chain. For many frames rules are *compiled*: parted into lists by the
//! receive port and the type that they ask for, so that a frame is tested only for rules that can
//! hold for it.
#![tactic(auto)]

mod compiled;
pub mod laws;
mod matching;
#[cfg(test)]
mod tests;
mod typed;

pub use compiled::Compiled;
pub use matching::first;

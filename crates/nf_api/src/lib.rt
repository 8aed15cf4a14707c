//! What a network function is, and what the kinds of a chain file answer.
//!
//! A *function* handles one packet after the other. For each it gives a *verdict*, and may leave
//! other bytes in the packet. What it keeps between packets is its *state*. A *guest* is a function
//! that the caller hands in. A *kind* is one that a chain file can ask for; the table of what each
//! kind without state answers is `specs/Answers.antt`.
#![tactic(auto)]

mod function;
mod guest;
pub mod laws;
mod meta;
#[cfg(test)]
mod tests;

pub use function::NetFunction;
pub use guest::Guest;
pub use meta::Meta;

//! Nine of the eleven kinds of function that keep nothing between packets.
//!
//! What a *steady* function answers follows from its kind, the frame's bytes and the port that
//! received them. It may drop a frame or change its bytes. The other two stateless kinds, which
//! pick where a frame goes by its heads, are those of `nf_route`.
#![tactic(auto)]

mod filters;
mod macs;
mod steady;
mod tags;
#[cfg(test)]
mod tests;
mod ttl;

pub use steady::Steady;

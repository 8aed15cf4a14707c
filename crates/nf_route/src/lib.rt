//! The functions that pick where a frame goes by its heads.
//!
//! A *table* has entries in the order of the chain file, each a *prefix* and a step to a service or
//! out of a port. The entry that wins for an address is the one with the longest prefix of those
//! that have the address, and the first of equal ones. A frame whose target no entry has is
//! dropped. A table holds *ranges* of addresses, each with its verdict; where one ends and the next
//! begins is a *bound*. *Balancing* sends all frames of a flow to one service of a list.
#![tactic(auto)]

mod bounds;
mod kinds;
mod lookup;
mod ranges;
mod services;
mod span;
mod table;
#[cfg(test)]
mod tests;

pub use kinds::Route;
pub use services::Services;
pub use table::Table;

//! One pass of a core: its functions handle packets by their budgets, and each burst is sampled.
//!
//! A *unit* is what a function does. The *station* of a function has its core's ends of the function's
//! rings. A *service* is what a function gets in one pass: up to its *budget* of *turns*, in each of
//! which it may handle one frame. The *budget* follows the function's weight. A *sample* tells how many
//! frames a function handled in a pass, and how long the first of them took.
#![tactic(auto)]

mod budget;
mod role;
mod room;
mod slot;
mod station;
#[cfg(test)]
mod tests;
mod turn;

pub use budget::budget_of;
pub use role::{CoreRole, Kept};
pub use room::{CoreKept, CoreRoom};
pub use station::Station;
pub use turn::{Service, Turn};

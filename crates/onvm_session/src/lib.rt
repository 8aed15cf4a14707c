//! What a session is: its roles take turns, or work side by side in phases, until each frame has its
//! record.
//!
//! A *turn* is one role's: the first token splits it, the role makes a pass, and the first token
//! joins it and looks. A *round* has a turn of each role. A *phase* is all roles' at once. The *view*
//! of a session is what the first token knows: its own log, the logs of the roles that it joined, and
//! of each join how many steps the role had made. A session is *accounted for* where the headline
//! holds of what it hands back.
#![tactic(auto)]

mod ending;
pub mod laws;
mod leaving;
mod lists;
mod manager;
mod new_roles;
mod pace;
mod phases;
mod role;
mod rooms;
mod run;
mod seat;
mod surroundings;

pub use lists::{Gathered, RunLists};
pub use run::{Counters, Ended, Feeds, Run, Stop, session};
pub use surroundings::Surroundings;

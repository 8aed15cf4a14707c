//! What is said of a run that is done.
//!
//! The report is lines of words, a space between each. The *summary* counts the frames by what
//! became of them, and tells how many posts, ticks, lost samples and yields there were. Behind it
//! stand, where they are asked for, a line for each frame's record, for each post and for each tick
//! with the shares of the functions.
#![tactic(auto)]

mod lines;
mod options;
mod order;
mod posts;
mod printed;
mod records;
mod summary;
mod tally;
#[cfg(test)]
mod tests;
mod text;
mod ticks;

pub use options::Options;
pub use printed::Printed;
pub use text::report;

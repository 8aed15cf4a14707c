//! The entry check: a frame is held back where a feeder's post has a bit of its chain.
//!
//! A *feeder* is a role that pushes on lanes. A *marks pass* looks at each of its lanes for the high
//! mark and the low one, in order of functions, and posts which functions are throttled where that
//! changed. A *post* is a word: its number in the upper 32 bits, and a bit for each throttled
//! function. A *mask* has a bit for each function of a frame's chain; [`admit`] holds the frame back
//! at the first post that has a bit of it.
#![tactic(auto)]

mod admission;
mod answer;
mod feeder;
mod post_word;
mod reading;
#[cfg(test)]
mod tests;
mod throttles;

pub use admission::admit;
pub use answer::Admit;
pub use feeder::{Feeder, marks_pass};

//! How busy a function was: the samples of its work, and the window of the last ones.
//!
//! A *sample* says how many frames a function handled in one pass of its core, and what time a frame
//! took. The *window* of a function is its last samples that aren't old. Of these the *arrivals* are
//! the frames together, and the *median* is the middle one of the times in order. A *tick* is a
//! moment at which weights are judged anew; it has a line for each function, with the function's
//! *share* of its core.
#![tactic(auto)]

pub mod laws;
mod sample;
#[cfg(test)]
mod tests;
mod tick;
mod times;
mod window;

pub use sample::{Sample, Samples};
pub use tick::{Share, Tick, TickLine, TickLines, Ticks};
pub use window::Window;

//! Whole runs: words and files in, a capture and a report out. Here is what the stored examples can't
//! show, since they go over real files: calls that fail, that nothing was opened, and how often a guest
//! was called.
//!
//! A run is *expected* to leave a status, what is said, and an output. What is expected is worked by
//! hand.

mod expected;
mod failing;
mod faulty;
mod frames;
mod guests;
mod hosts;
mod pieces;
mod refused;
mod scarce;
mod several;
mod side_by_side;
mod texts;

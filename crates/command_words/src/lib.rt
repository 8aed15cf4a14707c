//! The words of the program, read as a command.
//!
//! A *flag* is a word that begins with `-` and is longer than one character, before a word `--`. The
//! *other words* are the names of a chain file, of an output and of one to four captures. A capture
//! is a file, or it is *generated* of a seed.
#![tactic(auto)]

mod capture;
mod command;
pub mod laws;
mod parser;
#[cfg(test)]
mod tests;

pub use capture::CaptureWord;
pub use command::{Command, read};

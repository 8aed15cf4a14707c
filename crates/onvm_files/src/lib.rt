//! A host over real files and standard output, and a clock that reads the time.
#![tactic(auto)]

mod file_host;
mod part;
mod place;
mod sys_clock;
#[cfg(test)]
mod tests;

pub use file_host::{FileHost, FileInput, FileOutput};
pub use sys_clock::SysClock;

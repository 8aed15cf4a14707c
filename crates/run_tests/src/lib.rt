//! Tests of whole runs and of sessions, over the crates that they go through.
//!
//! A *session* is called as any caller calls it: *plans* are read from chain files that are written
//! here, and *captures* lie in memory. A *run* begins with words and files, and ends with a capture
//! and a report.
#![tactic(auto)]

#[cfg(test)]
mod runs;
#[cfg(test)]
mod sessions;
#[cfg(test)]
mod two_roles;

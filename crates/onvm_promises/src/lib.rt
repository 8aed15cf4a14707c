//! What a pass of a role promises, and what the role's log alone tells.
//!
//! A *pass* is what a role does in one go: it adds acts to the role's log. A pass is *whole* where it
//! did all that its kind of pass does. Between passes a role *rests*. What a role *keeps*, its
//! records, sent frames, posts and samples, is what its log tells, each with the *moment* of its act.
#![tactic(auto)]

pub mod laws;
mod pass;

pub use pass::Pass;

//! What feeders post.

use crate::list::ListOf;

/// A feeder's post: the functions whose chains it holds back from this moment on.
#[derive(Clone, Copy, Debug, PartialEq, Eq)]
pub struct Post {
    pub feeder: u8,
    /// Of the feeder's posts, from 1.
    pub number: u32,
    /// Nanoseconds.
    pub moment: u64,
    /// Bit f is set where function f is throttled.
    pub bits: u32,
}

pub type Posts = ListOf<Post>;

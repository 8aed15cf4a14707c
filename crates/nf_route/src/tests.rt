//! Tables and services that were written out, and two frames.

mod balancing;
mod frames;
mod routing;

//! Files that are read, and files that are refused.

mod accepted;
mod guests;
mod printed;
mod refused;

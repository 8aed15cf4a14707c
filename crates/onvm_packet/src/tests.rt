//! Frames that were spelled by hand or by another program.

mod edits;
mod flow_key;
mod frames;
mod heads;
mod holding;

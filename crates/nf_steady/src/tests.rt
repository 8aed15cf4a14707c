//! Frames that were spelled by hand or by another program.

mod frames;
mod handling;
mod kinds;

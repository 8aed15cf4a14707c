//! Captures in the classic pcap format: read in any pieces, and spelled out.
//!
//! A *capture* is a header of 24 bytes and then records to its end. A *record* is a head of 16
//! bytes and a frame's bytes. A *spelling* is in which order the bytes of a number stand, and whether
//! fractions of a second are microseconds or nanoseconds; there are four. A *reader* is fed the
//! bytes of a capture piece by piece, and *pulls* frames from it. The *emitted spelling* is the one
//! that onvm writes.
//!
//! The format is that of libpcap's savefiles (pcap-savefile(5)), version 2.4, link type 1.
#![tactic(auto)]

mod emit;
mod judge;
pub mod laws;
mod pull;
mod reader;
mod spelling;
#[cfg(test)]
mod tests;

pub use emit::{frame_head, header};
pub use pull::{PcapFault, Pull};
pub use reader::Reader;

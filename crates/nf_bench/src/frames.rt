//! The frames that are handled.
ghost use Rattle.std.specs.Prelude.{◌≤◌, length};
ghost use Rattle.nf_bench.specs.declared.frames.TheConstants.{FRAME_BYTES, TARGET_BEFORE_END};

use onvm_base::{NoMemory, Packet};
use std::alloc::Global;

pub const FRAME_BYTES: usize = 512;

/// UDP over IPv4.
pub const UDP: [u8; 42] = [
    2, 0, 0, 0, 0, 1, 2, 0, 0, 0, 0, 2, 0x08, 0x00, 0x45, 0x00, 0x03, 0x9e, 0x00, 0x01, 0x00, 0x00,
    0x40, 0x11, 0x63, 0x3f, 10, 0, 0, 14, 10, 1, 0, 1, 0x27, 0x1e, 0x00, 0x09, 0x03, 0x8a, 0x00,
    0x00,
];

/// The same behind a tag.
pub const TAGGED: [u8; 46] = [
    2, 0, 0, 0, 0, 1, 2, 0, 0, 0, 0, 2, 0x81, 0x00, 0x60, 0x05, 0x08, 0x00, 0x45, 0x00, 0x03, 0x9e,
    0x00, 0x01, 0x00, 0x00, 0x40, 0x11, 0x63, 0x3f, 10, 0, 0, 14, 10, 1, 0, 1, 0x27, 0x1e, 0x00,
    0x09, 0x03, 0x8a, 0x00, 0x00,
];

/// How far before the end of a head the third byte of the IPv4 target stands.
pub const TARGET_BEFORE_END: usize = 10;

/// A frame with this head, to the address 10.1.`net`.1.
pub fn frame(alloc: Global, head: &[u8], net: u8) -> Result<Packet, NoMemory>
    requires least { TARGET_BEFORE_END ≤ length head.now }
    requires most { length head.now ≤ FRAME_BYTES }
{
    let mut bytes = [0; FRAME_BYTES];
    bytes[..head.len()].copy_from_slice(head);
    bytes[head.len() - TARGET_BEFORE_END] = net;
    Packet::from_slice(alloc, &bytes)
}

/// A frame of UDP over IPv4 from the address 10.0.0.0 + `sender`.
pub fn frame_from(alloc: Global, sender: u16) -> Result<Packet, NoMemory> {
    let mut bytes = [0; FRAME_BYTES];
    bytes[..UDP.len()].copy_from_slice(&UDP);
    bytes[28..30].copy_from_slice(&sender.to_be_bytes());
    Packet::from_slice(alloc, &bytes)
}

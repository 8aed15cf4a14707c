//! Heads of frames.
ghost use Rattle.std.specs.Prelude.{◌<◌};

use onvm_base::NoMemory;
use onvm_packet::{Heads, Net};
use std::alloc::Global;

/// Frames of one batch.
pub const FRAMES: u16 = 4_000;

/// Heads of a batch of UDP frames over IPv4, of so many flows in turn. They differ in their sources.
pub fn heads_of(alloc: Global, flows: u16) -> Result<Vec<Heads>, NoMemory>
    requires { 0 < flows }
{
    let mut heads = Vec::with_capacity(alloc, usize::from(FRAMES))?;
    for frame in 0..FRAMES {
        heads.push(Heads {
            vlan: None,
            ethertype: Some(0x0800),
            net: Net::V4 {
                at: 14,
                source: 0x0a00_0000 + u32::from(frame % flows),
                target: 0x0a01_0001,
                protocol: 17,
                ttl: 64,
            },
            ports: Some((10_014, 9)),
        })?;
    }
    Ok(heads)
}

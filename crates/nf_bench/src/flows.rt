//! NAT with many flows.

use crate::burst::{handle_all, sum_of};
use crate::frames::frame_from;
use nf_state::Keeper;
use onvm_base::{Kind, NoMemory, Packet, Prefix};
use onvm_host::Clock;
use std::alloc::Global;

// Frames between two looks at the clock.
const BURST: u16 = 256;

// Flows in whole bursts, fewer than NAT has ports.
const FLOWS: u16 = 65_280;

/// What one frame costs NAT, in tenths of a nanosecond, as a mean over all flows.
#[derive(Clone, Copy, Debug)]
pub struct FlowCosts {
    /// Its flow gets a port.
    pub new_flow: u64,
    /// Its flow has a port, beside 65,279 others.
    pub known_flow: u64,
    /// As [`crate::burst::Cost`] has one.
    pub sum: u64,
}

/// What NAT costs for the first frames of all flows, and for their second ones.
pub fn flow_costs<C: Clock>(alloc: Global, clock: &C) -> Result<FlowCosts, NoMemory> {
    let kind = Kind::Nat {
        inside: Prefix::V4 {
            address: 0x0a00_0000,
            length: 8,
        },
        outside: 0xc000_0201,
        ports: (1, 65_535),
    };
    let mut nat = Keeper::make(alloc, &kind)?;
    let (new_flow, first) = one_frame_of_each(alloc, clock, &mut nat)?;
    let (known_flow, second) = one_frame_of_each(alloc, clock, &mut nat)?;
    Ok(FlowCosts {
        new_flow,
        known_flow,
        sum: first.wrapping_add(second),
    })
}

// The mean cost of a frame of each flow, and a sum over what was done.
fn one_frame_of_each<C: Clock>(
    alloc: Global,
    clock: &C,
    nat: &mut Keeper,
) -> Result<(u64, u64), NoMemory> {
    let mut taken = 0u64;
    let mut sum = 0u64;
    for burst in 0..FLOWS / BURST {
        let mut packets = packets_of(alloc, burst)?;
        let start = clock.now();
        let verdicts = handle_all(nat, &mut packets)?;
        taken = taken.saturating_add(clock.now().saturating_sub(start));
        sum = sum.wrapping_add(verdicts).wrapping_add(sum_of(&packets));
    }
    Ok((taken.saturating_mul(10) / u64::from(FLOWS), sum))
}

// Frames of the flows of one burst, whose senders are scattered over all.
fn packets_of(alloc: Global, burst: u16) -> Result<Vec<Packet>, NoMemory> {
    let mut packets = Vec::with_capacity(alloc, usize::from(BURST))?;
    for place in 0..BURST {
        // An odd factor gives each flow a sender of its own.
        let sender = burst
            .wrapping_mul(BURST)
            .wrapping_add(place)
            .wrapping_mul(40_503);
        packets.push(frame_from(alloc, sender)?)?;
    }
    Ok(packets)
}

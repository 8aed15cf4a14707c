//! Bursts of frames, and the time that a function takes for one.
ghost use Rattle.std.specs.Prelude.{◌≤◌, length};
ghost use Rattle.nf_bench.specs.declared.frames.TheConstants.{FRAME_BYTES, TARGET_BEFORE_END};

use crate::frames::frame;
use nf_api::{Meta, NetFunction};
use onvm_base::{ChainId, FrameId, NoMemory, Packet, PortId, Stamp, Verdict};
use onvm_host::Clock;
use std::alloc::Global;

// Frames between two looks at the clock, one for each value of a byte. They stay in a processor's
// second cache.
const BURST: usize = 256;

// The bytes of a frame that some function of this program changes.
const HEAD_BYTES: usize = 64;

const META: Meta = Meta {
    frame: FrameId {
        port: PortId(0),
        number: 1,
    },
    stamp: Stamp {
        seconds: 1,
        nanos: 0,
        tail: 0,
    },
    chain: ChainId(0),
    hops: 0,
    hash: 0,
};

/// What bursts of frames cost.
#[derive(Clone, Copy, Debug)]
pub struct Cost {
    // The least time in nanoseconds that one burst took.
    least: u64,
    /// A sum over all verdicts and over the heads of the frames that were left. Since it is printed,
    /// the compiler can leave out no work that it depends on.
    pub sum: u64,
}

impl Cost {
    /// Of the least time the part of one frame, in tenths of a nanosecond.
    pub fn per_frame(&self) -> u64 {
        self.least.saturating_mul(10) / BURST as u64
    }
}

/// What a function costs for so many bursts of frames with this head.
pub fn cost_of<N: NetFunction, C: Clock>(
    alloc: Global,
    clock: &C,
    function: &mut N,
    head: &[u8],
    rounds: u32,
) -> Result<Cost, NoMemory>
    requires least { TARGET_BEFORE_END ≤ length head.now }
    requires most { length head.now ≤ FRAME_BYTES }
{
    let mut cost = Cost {
        least: u64::MAX,
        sum: 0,
    };
    for _ in 0..rounds {
        // Made anew, since a function may have changed them.
        let mut burst = burst_of(alloc, head)?;
        let start = clock.now();
        let verdicts = handle_all(function, &mut burst)?;
        cost.least = cost.least.min(clock.now().saturating_sub(start));
        cost.sum = cost.sum.wrapping_add(verdicts).wrapping_add(sum_of(&burst));
    }
    Ok(cost)
}

fn burst_of(alloc: Global, head: &[u8]) -> Result<Vec<Packet>, NoMemory>
    requires least { TARGET_BEFORE_END ≤ length head.now }
    requires most { length head.now ≤ FRAME_BYTES }
{
    let mut burst = Vec::with_capacity(alloc, BURST)?;
    for net in 0..BURST {
        burst.push(frame(alloc, head, net as u8)?)?;
    }
    Ok(burst)
}

/// Hands a function a burst of frames, and adds up its verdicts.
pub fn handle_all<N: NetFunction>(function: &mut N, burst: &mut [Packet]) -> Result<u64, NoMemory> {
    let mut verdicts = 0u64;
    for packet in burst {
        let verdict = function.handle(packet, &META)?;
        verdicts = verdicts.wrapping_add(number_of(verdict));
    }
    Ok(verdicts)
}

fn number_of(verdict: Verdict) -> u64 {
    match verdict {
        Verdict::Drop => 0,
        Verdict::Next => 1,
        Verdict::ToService(service) => u64::from(service),
        Verdict::Out(port) => u64::from(port),
    }
}

/// A sum over the heads of frames.
pub fn sum_of(burst: &[Packet]) -> u64 {
    let mut sum = 0u64;
    for packet in burst {
        for byte in packet.bytes().iter().take(HEAD_BYTES) {
            sum = sum.wrapping_add(u64::from(*byte));
        }
    }
    sum
}

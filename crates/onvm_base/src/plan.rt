//! What a run is made of.
ghost use Rattle.onvm_base.specs.Plan.{Sizes, IsPlan};

use crate::chain::ChainList;
use crate::function::FunctionList;
use crate::ids::ChainId;
use crate::rules::Rules;

/// An accepted chain file. Whoever has a plan may rely on its rules.
#[derive(Debug, Drop)]
pub struct Plan {
    /// Of the chain file.
    pub version: u8,
    /// Ports that receive.
    pub ports: u8,
    /// Transmit roles.
    pub transmit: u8,
    pub cores: u8,
    /// Buffers of each port.
    pub buffers: u16,
    /// Cells of each lane.
    pub ring: u16,
    /// Cells of each output ring.
    pub output: u16,
    /// Frames that a pass takes of one source.
    pub burst: u16,
    /// The high mark of the lanes.
    pub high: u16,
    /// The low mark of the lanes.
    pub low: u16,
    /// Nanoseconds of queuing time from which the high mark throttles.
    pub age: u64,
    /// Nanoseconds that samples count.
    pub window: u64,
    /// Nanoseconds between ticks.
    pub tick: u64,
    pub functions: FunctionList,
    pub chains: ChainList,
    pub rules: Rules,
    /// The chain of a frame that no rule takes.
    pub default: ChainId,
    ghost kept: { IsPlan
        (record {
          version = version;
          ports = ports;
          transmit = transmit;
          cores = cores;
          buffers = buffers;
          ring = ring;
          output = output;
          burst = burst;
          high = high;
          low = low;
          age = age;
          window = window;
          tick = tick;
        })
        functions chains rules default },
}

//! The parts of a board, and its words.
ghost use Rattle.std.specs.Prelude.{◌≡◌};
ghost use Rattle.onvm_core.specs.Layouts.{IsLayout, IsLayoutOf};

use onvm_base::{FnId, MAX_FUNCTIONS, Plan, PortId, RingId};

/// How many parts of each kind a board has.
#[derive(Clone, Copy, Debug)]
pub struct Layout {
    pub ports: u8,
    /// Transmit roles.
    pub transmit: u8,
    pub cores: u8,
    pub functions: u8,
    /// Buffers of each port.
    pub buffers: u16,
    /// Cells of a lane.
    pub ring: u16,
    /// Cells of an output ring.
    pub output: u16,
    /// The core of each function, and 0 at the places past the functions.
    pub core_of: [u8; MAX_FUNCTIONS],
}

/// A word of the board.
#[derive(Clone, Copy, Debug, PartialEq, Eq)]
pub enum Word {
    /// [`WORD_BITS`](onvm_base::WORD_BITS) buffers of a port, a bit for each that is in the pool.
    Pool { port: PortId, index: u8 },
    /// A cell of a ring: 0, or a buffer's number plus 1, or in a mail ring a number.
    Cell { ring: RingId, at: u16 },
    /// A feeder's post: its number in the upper 32 bits, and a bit for each throttled function.
    Post(u8),
    /// A function's weight, 0 until the first one.
    Weight(FnId),
}

impl Layout {
    /// The layout that a plan asks for.
    pub fn of(plan: &Plan) -> Layout
        ensures of { IsLayoutOf plan.now result }
        ensures ranges { IsLayout result }
    {
        let mut core_of = [0; MAX_FUNCTIONS];
        let functions = plan.functions.as_slice();
        for at in 0..functions.len() {
            core_of[at] = functions[at].core;
        }
        Layout {
            ports: plan.ports,
            transmit: plan.transmit,
            cores: plan.cores,
            functions: functions.len() as u8,
            buffers: plan.buffers,
            ring: plan.ring,
            output: plan.output,
            core_of,
        }
    }
}

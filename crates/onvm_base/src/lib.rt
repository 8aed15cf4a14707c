//! The names and values that every crate of onvm speaks of.
//!
//! A *frame* is what a capture holds: a stamp and a packet. A *packet* is its bytes. A *record*
//! says what became of a frame, its *outcome*. Numbers begin at 0: ports have the order of the
//! captures, functions and chains that of the chain file. The frames of a port begin at 1.
#![tactic(auto)]

mod chain;
mod frame;
mod function;
mod ids;
mod limits;
mod list;
mod moves;
mod outcome;
mod packet;
mod plan;
mod post;
mod refusal;
mod rules;
mod status;
#[cfg(test)]
mod tests;

pub use chain::{ChainList, ChainPlan, ChainStep, ChainSteps};
pub use frame::{Frame, Frames, SentFrame, SentFrames, Stamp};
pub use function::{
    FunctionList, FunctionPlan, Kind, NameList, RouteEntry, RouteList, ServiceList,
};
pub use ids::{BufId, ChainId, FnId, FrameId, PortId, RingId};
pub use limits::{
    IPV4_BITS, IPV6_BITS, LAST_POST, MAIL_RING, MAX_AGE, MAX_BUDGET, MAX_BUFFERS, MAX_BURST,
    MAX_CHAIN_FILE_BYTES, MAX_CHAIN_STEPS, MAX_CHAINS, MAX_CORES, MAX_COST, MAX_DEPTH,
    MAX_FRAME_BYTES, MAX_FUNCTIONS, MAX_HOPS, MAX_NAME_BYTES, MAX_PORT_BYTES, MAX_PORT_FRAMES,
    MAX_PORTS, MAX_PRIORITY, MAX_RATE, MAX_RING, MAX_ROUTES, MAX_RULES, MAX_SERVICES,
    MAX_TAG_PRIORITY, MAX_TESTS, MAX_TICK, MAX_TRANSMIT_ROLES, MAX_VLAN, MAX_WEIGHT, MAX_WINDOW,
    MIN_RING, MIN_TICK, WEIGHT_ONE, WINDOW_SAMPLES, WORD_BITS,
};
pub use list::{ListOf, Name, Text};
pub use moves::Move;
pub use outcome::{Outcome, Record, Records, Verdict, Why};
pub use packet::Packet;
pub use plan::Plan;
pub use post::{Post, Posts};
pub use refusal::{Failed, Full, NoMemory};
pub use rules::{Prefix, RulePlan, Rules, Tests, TestsList};
pub use status::Status;

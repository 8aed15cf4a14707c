//! All limits of onvm. A field's number lies between its lowest and its largest, both included; where
//! no lowest one stands here it is 1, or 0 for rules, ages, costs and what a packet's head carries.

// Roles.

/// The most ports, so the most captures of a run.
pub const MAX_PORTS: u8 = 4;

/// The most transmit roles.
pub const MAX_TRANSMIT_ROLES: u8 = 4;

/// The most cores.
pub const MAX_CORES: u8 = 8;

// What a chain file may hold.

/// The most bytes of a chain file.
pub const MAX_CHAIN_FILE_BYTES: usize = 1_048_576;

/// The most functions. A post word has a bit for each.
pub const MAX_FUNCTIONS: usize = 32;

/// The most chains.
pub const MAX_CHAINS: usize = 64;

/// The most steps of one chain.
pub const MAX_CHAIN_STEPS: usize = 16;

/// The most rules.
pub const MAX_RULES: usize = 256;

/// The most characters of a name.
pub const MAX_NAME_BYTES: usize = 32;

/// The largest priority of a function.
pub const MAX_PRIORITY: u16 = 1024;

/// The largest weight that a chain file gives to a function.
pub const MAX_WEIGHT: u32 = 1_048_576;

/// The most nanoseconds that a frame takes in a serial run.
pub const MAX_COST: u32 = 1_000_000_000;

/// The most match objects of a filter.
pub const MAX_TESTS: usize = 64;

/// The most entries of a route.
pub const MAX_ROUTES: usize = 256;

/// The most services of a balance.
pub const MAX_SERVICES: usize = 32;

/// The most bytes per second that a police lets pass.
pub const MAX_RATE: u64 = 10_000_000_000;

/// The most bytes that a police lets pass at once.
pub const MAX_DEPTH: u64 = 10_000_000_000;

/// The largest VLAN identifier (IEEE 802.1Q).
pub const MAX_VLAN: u16 = 4095;

/// The largest priority of a tag (IEEE 802.1Q).
pub const MAX_TAG_PRIORITY: u8 = 7;

/// The bits of an IPv4 address.
pub const IPV4_BITS: u8 = 32;

/// The bits of an IPv6 address.
pub const IPV6_BITS: u8 = 128;

// Rings, pool and marks.

/// The most buffers of one port.
pub const MAX_BUFFERS: u16 = 1024;

/// The buffers that one pool word tells, a bit each.
pub const WORD_BITS: u16 = 64;

/// The fewest cells of a lane or an output ring.
pub const MIN_RING: u16 = 2;

/// The most cells of a lane or an output ring.
pub const MAX_RING: u16 = 1024;

/// The cells of a mail ring.
pub const MAIL_RING: u16 = 64;

/// The number of a feeder's last post: its number has 32 bits.
pub const LAST_POST: u32 = 4_294_967_295;

/// The most nanoseconds of queuing time from which the high mark throttles.
pub const MAX_AGE: u64 = 1_000_000_000_000;

// Passes and shares.

/// The most frames that a pass takes of one source.
pub const MAX_BURST: u16 = 1024;

/// The weight of a function that may handle a whole burst in a pass.
pub const WEIGHT_ONE: u32 = 1024;

/// The most frames that a function handles in one pass, whatever its weight.
pub const MAX_BUDGET: u32 = 1024;

/// The most samples that a function's window keeps.
pub const WINDOW_SAMPLES: usize = 1024;

/// The most nanoseconds that samples count.
pub const MAX_WINDOW: u64 = 1_000_000_000_000;

/// The fewest nanoseconds between ticks.
pub const MIN_TICK: u64 = 1000;

/// The most nanoseconds between ticks.
pub const MAX_TICK: u64 = 1_000_000_000_000;

// Frames.

/// The most functions that handle one frame.
pub const MAX_HOPS: u8 = 32;

/// The most bytes of a frame.
pub const MAX_FRAME_BYTES: usize = 262_144;

/// The most frames of a port.
pub const MAX_PORT_FRAMES: usize = 262_144;

/// The most bytes of a port's captured frames together, the heads of their records left out.
pub const MAX_PORT_BYTES: u64 = 268_435_456;

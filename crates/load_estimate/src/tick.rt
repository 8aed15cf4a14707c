//! Moments at which the functions' weights are judged anew.

use onvm_base::ListOf;

/// A part of a core's time as a fraction, which isn't reduced, and the weight that it gives.
#[derive(Clone, Copy, Debug, PartialEq, Eq)]
pub struct Share {
    pub num: u128,
    pub den: u128,
    /// In 1/1024 of a burst.
    pub weight: u32,
}

/// What a tick says of a function.
#[derive(Clone, Copy, Debug, PartialEq, Eq)]
pub struct TickLine {
    /// The frames of its window's samples together.
    pub arrivals: u64,
    /// The lower middle one of their times, in nanoseconds; None without a sample.
    pub median: Option<u64>,
    /// None where no function of its core has a load.
    pub share: Option<Share>,
    /// The weight in force from then on, in 1/1024 of a burst.
    pub weight: u32,
}

/// A line for each function, in the order of the chain file.
pub type TickLines = ListOf<TickLine>;

/// A moment at which weights are judged anew.
#[derive(Debug, Drop)]
pub struct Tick {
    /// From 1.
    pub number: u32,
    /// In nanoseconds.
    pub moment: u64,
    /// How many samples were logged by then.
    pub taken: u64,
    pub lines: TickLines,
}

/// Ticks in the order of their numbers.
pub type Ticks = ListOf<Tick>;

//! Chains of services.

use crate::list::{ListOf, Name};

/// A step of a chain: to a service, or out of a port.
#[derive(Clone, Copy, Debug, PartialEq, Eq)]
pub enum ChainStep {
    To(u8),
    Out(u8),
}

/// The steps of a chain in order. Those behind a step out of a port are never reached.
pub type ChainSteps = ListOf<ChainStep>;

/// A chain.
#[derive(Debug, Drop)]
pub struct ChainPlan {
    pub name: Name,
    pub steps: ChainSteps,
}

/// The chains in file order.
pub type ChainList = ListOf<ChainPlan>;

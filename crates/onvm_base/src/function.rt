//! Functions as a chain file gives them.

use crate::chain::ChainStep;
use crate::list::{ListOf, Name};
use crate::rules::{Prefix, TestsList};

/// Where a route sends the packets of a prefix.
#[derive(Clone, Copy, Debug, PartialEq, Eq)]
pub struct RouteEntry {
    /// An IPv4 prefix.
    pub prefix: Prefix,
    pub target: ChainStep,
}

pub type RouteList = ListOf<RouteEntry>;

/// Numbers of services.
pub type ServiceList = ListOf<u8>;

pub type NameList = ListOf<Name>;

/// What a function does, with its parameters.
#[derive(Debug, Drop)]
pub enum Kind {
    /// Answers NEXT.
    Forward,
    /// Answers DROP.
    Drop,
    /// Answers OUT.
    Out {
        port: u8,
    },
    /// Answers TONF.
    To {
        to_service: u8,
    },
    /// Drops the packets for which one of the tests holds.
    Filter {
        tests: TestsList,
    },
    /// Takes one off the TTL or the hop limit.
    Ttl,
    /// Pushes an IEEE 802.1Q tag.
    Tag {
        vlan: u16,
        tag_priority: u8,
    },
    /// Pops the outer tag.
    Untag,
    /// Writes both addresses of the Ethernet head.
    Macs {
        target: [u8; 6],
        source: [u8; 6],
    },
    /// Sends on by the longest prefix.
    Route {
        table: RouteList,
    },
    /// Spreads flows over services.
    Balance {
        services: ServiceList,
    },
    /// Counts frames and bytes.
    Count,
    /// A token bucket: bytes per second, and bytes that may come at once.
    Police {
        rate: u64,
        depth: u64,
    },
    /// Translates the addresses and ports of TCP and UDP over IPv4.
    Nat {
        inside: Prefix,
        outside: u32,
        ports: (u16, u16),
    },
    /// A function that the caller hands in under this name.
    Guest {
        guest: Name,
    },
}

/// A function: what it does, where it runs, and what it weighs there.
#[derive(Debug, Drop)]
pub struct FunctionPlan {
    pub name: Name,
    /// From 1. No two functions offer one service.
    pub service: u8,
    pub core: u8,
    pub kind: Kind,
    /// Of the core's time, beside the other functions of the core.
    pub priority: u16,
    /// In 1/1024 of a burst, until shares are posted.
    pub weight: u32,
    /// Nanoseconds that a frame takes in a serial run.
    pub cost: u32,
}

/// The functions in file order.
pub type FunctionList = ListOf<FunctionPlan>;

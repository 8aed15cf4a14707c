//! The addresses of a prefix.
ghost use Rattle.std.specs.Prelude.{◌≡◌, ℕ, ◌≤◌, ◌<◌, ◌^◌, ◌↔◌, true, IsTrue};
ghost use Rattle.onvm_packet.specs.Holding.{covers_ipv4};

use onvm_base::{IPV4_BITS, Prefix};

/// IPv4 addresses in a row.
#[derive(Clone, Copy)]
pub struct Span {
    pub first: u64,
    /// The address behind the last one. It may be 2^32.
    pub end: u64,
}

impl Span {
    /// The addresses that a prefix has: 2^n of them, where n bits are free, or none of IPv6.
    pub fn of(prefix: Prefix) -> Span
        ensures { (target : ℕ) → (covers_ipv4 prefix target ≡ true)
            ↔ ((result.first ≤ target) × (target < result.end)) }
    {
        match prefix {
            Prefix::V4 { address, length } => {
                let free = IPV4_BITS.saturating_sub(length);
                let first = u64::from(address) >> free << free;
                Span {
                    first,
                    end: first + (1 << free),
                }
            }
            Prefix::V6 { .. } => Span { first: 0, end: 0 },
        }
    }

    /// Whether an address is among them.
    pub fn has(self, target: u32) -> bool
        ensures { IsTrue result ↔ ((self.first ≤ target) × (target < self.end)) }
    {
        let target = u64::from(target);
        self.first <= target && target < self.end
    }
}

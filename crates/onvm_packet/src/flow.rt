//! What tells the flow of a frame, and its hash.
ghost use Rattle.std.specs.Prelude.{◌≡◌, ◌∷◌, ◌++◌, fold};
ghost use Rattle.byteorder.specs.Endian.{big_bytes};
ghost use Rattle.onvm_packet.specs.Flow.{five_tuple_of, flow_hash_of, fnv_1a, fnv_step};

use crate::heads::{Heads, Net};

const FNV_BASIS: u32 = 2_166_136_261;

const FNV_PRIME: u32 = 16_777_619;

/// What the packets of one flow have in common.
#[derive(Clone, Copy, Debug, PartialEq, Eq)]
pub struct FiveTuple {
    /// 4 or 6.
    pub version: u8,
    /// An address, in its low 32 bits for version 4.
    pub source: u128,
    /// An address, in its low 32 bits for version 4.
    pub target: u128,
    /// The protocol of IPv4, the next header of IPv6.
    pub protocol: u8,
    pub source_port: u16,
    pub target_port: u16,
}

/// The flow of a frame with these heads. Ports are 0 where there are none.
pub fn five_tuple(heads: &Heads) -> Option<FiveTuple>
    ensures { result ≡ five_tuple_of heads.now }
{
    let (source_port, target_port) = heads.ports.unwrap_or((0, 0));
    match heads.net {
        Net::None => None,
        Net::V4 {
            source,
            target,
            protocol,
            ..
        } => Some(FiveTuple {
            version: 4,
            source: u128::from(source),
            target: u128::from(target),
            protocol,
            source_port,
            target_port,
        }),
        Net::V6 {
            source,
            target,
            next,
            ..
        } => Some(FiveTuple {
            version: 6,
            source,
            target,
            protocol: next,
            source_port,
            target_port,
        }),
    }
}

/// The hash of the flow, FNV-1a of 32 bits.
pub fn flow_hash(heads: &Heads) -> u32
    ensures { result ≡ flow_hash_of heads.now }
{
    let ports = heads.ports.unwrap_or((0, 0));
    match heads.net {
        Net::None => absorb(FNV_BASIS, &[0]),
        Net::V4 {
            source,
            target,
            protocol,
            ..
        } => hash_parts(
            4,
            &source.to_be_bytes(),
            &target.to_be_bytes(),
            protocol,
            ports,
        ),
        Net::V6 {
            source,
            target,
            next,
            ..
        } => hash_parts(6, &source.to_be_bytes(), &target.to_be_bytes(), next, ports),
    }
}

// The hash of the parts of a flow, one after the other.
fn hash_parts(version: u8, source: &[u8], target: &[u8], protocol: u8, ports: (u16, u16)) -> u32
    ensures { result ≡ fnv_1a (version ∷ (source.now ++ (target.now
        ++ (protocol ∷ (big_bytes 2 ports.0 ++ big_bytes 2 ports.1))))) }
{
    let hash = absorb(FNV_BASIS, &[version]);
    let hash = absorb(hash, source);
    let hash = absorb(hash, target);
    let hash = absorb(hash, &[protocol]);
    let hash = absorb(hash, &ports.0.to_be_bytes());
    absorb(hash, &ports.1.to_be_bytes())
}

// Takes the next bytes into a hash.
fn absorb(mut hash: u32, bytes: &[u8]) -> u32
    ensures { result ≡ fold fnv_step hash bytes.now }
{
    for byte in bytes {
        hash = (hash ^ u32::from(*byte)).wrapping_mul(FNV_PRIME);
    }
    hash
}

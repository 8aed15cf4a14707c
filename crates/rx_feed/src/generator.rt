//! Frames that are made of a seed.
ghost use Rattle.std.specs.Prelude.{◌≡◌, ◌≤◌, ◌<◌, ◌+◌, ◌*◌, ◌/◌, ◌%◌, ◌^◌, ◌++◌, IfOk, OnErr, Some, None, length, drop, replicate, nat_lt, if◌then◌else◌};
ghost use Rattle.onvm_base.specs.declared.limits.TheConstants.{MAX_PORT_FRAMES};
ghost use Rattle.onvm_packet.specs.Checksum.{ones_plus, ones_sum};
ghost use Rattle.rx_feed.specs.Made.{flow_of, frame_made_of, made_frame, made_heads, made_packet, made_stamp, made_sum, next_number, payload_len};

use onvm_base::{Frame, MAX_PORT_FRAMES, NoMemory, Packet, Stamp};
use std::alloc::Global;
use std::marker::Model;

/// The most bytes of a payload.
const MAX_PAYLOAD: usize = 1026;

/// The bytes before the payload: heads of Ethernet II, IPv4 and UDP.
const HEADS: usize = 42;

/// Gives frames of one seed, the same at each run: UDP datagrams over IPv4, of sixteen flows and
/// of 18 to 1026 bytes, a microsecond apart.
#[derive(Debug, Drop)]
pub struct Generator {
    seed: u64,
    count: u32,
    given: u32,
    // The number that the last frame was made of.
    number: u64,
}

impl Model for Generator {
    ghost use Rattle.std.specs.Prelude.{◌≡◌, ◌≤◌};
    ghost use Rattle.onvm_base.specs.declared.limits.TheConstants.{MAX_PORT_FRAMES};
    ghost use Rattle.rx_feed.specs.Made.{Making, number_after};

    ghost Value = { Making };

    ghost view = { λ g. record { seed = g.seed; count = g.count; given = g.given } };

    ghost invariant = { λ g.
        (g.number ≡ number_after g.seed g.given) × (g.given ≤ g.count) × (g.count ≤ MAX_PORT_FRAMES) };
}

impl Generator {
    /// A generator that gives frames 1 to `count`. It takes no memory.
    pub fn make(seed: u64, count: u32) -> Generator
        requires { count ≤ MAX_PORT_FRAMES }
        ensures { result ≡ record { seed = seed; count = count; given = 0 } }
    {
        Generator {
            seed,
            count,
            given: 0,
            number: seed,
        }
    }

    /// The next frame. None exactly after `count` frames.
    pub fn next(&mut self, alloc: Global) -> Result<Option<Frame>, NoMemory>
        ensures frame { IfOk result (λ frame. frame ≡ (if nat_lt self.old.given self.old.count
            then Some (made_frame self.old.seed (self.old.given + 1)) else None)) }
        ensures ok { IfOk result (λ _. self.new ≡ (if nat_lt self.old.given self.old.count
            then record self.old { given = self.old.given + 1 } else self.old)) }
        ensures err { OnErr result (self.new ≡ self.old) }
        ensures few { (self.new.given ≤ self.new.count) × (self.new.count ≤ MAX_PORT_FRAMES) }
    {
        if self.given == self.count {
            return Ok(None);
        }
        let given = self.given + 1;
        let number = next_number(self.number);
        let frame = make_frame(alloc, given, number)?;
        self.given = given;
        self.number = number;
        Ok(Some(frame))
    }

    /// How many frames it has given.
    pub fn given(&self) -> u32
        ensures { result ≡ self.now.given }
    {
        self.given
    }
}

fn next_number(x: u64) -> u64
    ensures { result ≡ next_number x }
{
    x.wrapping_mul(6_364_136_223_846_793_005)
        .wrapping_add(1_442_695_040_888_963_407)
}

// The frame with this number, of this number of the generator.
fn make_frame(alloc: Global, number: u32, x: u64) -> Result<Frame, NoMemory>
    requires { 1 ≤ number }
    ensures { IfOk result (λ frame. frame ≡ frame_made_of number x) }
{
    let stamp = stamp_of(number);
    let packet = make_packet(alloc, number, x)?;
    Ok(Frame { stamp, packet })
}

#[tactic(auto, using(crate::proofs::Making::made_bytes))]
fn make_packet(alloc: Global, number: u32, x: u64) -> Result<Packet, NoMemory>
    ensures { IfOk result (λ packet. packet ≡ made_packet number x) }
{
    let len = HEADS + usize::from(payload_len(x));
    let mut bytes = [(number % 256) as u8; HEADS + MAX_PAYLOAD];
    write_heads(&mut bytes, number, x);
    Packet::from_slice(alloc, &bytes[..len])
}

fn stamp_of(number: u32) -> Stamp
    requires { 1 ≤ number }
    ensures { result ≡ made_stamp number }
{
    let micros = number - 1;
    Stamp {
        seconds: micros / 1_000_000,
        nanos: 1000 * (micros % 1_000_000),
        tail: 0,
    }
}

fn flow_of(x: u64) -> u8
    ensures { result ≡ flow_of x }
{
    (x / 0x1_0000_0000 % 16) as u8
}

fn payload_len(x: u64) -> u16
    ensures { result ≡ payload_len x }
{
    18 + 16 * (x / 0x1_0000_0000 / 16 % 64) as u16
}

// Writes the heads over the first bytes.
fn write_heads(bytes: &mut [u8], number: u32, x: u64)
    requires { 42 ≤ length bytes.old }
    ensures { bytes.new ≡ made_heads number x ++ drop 42 bytes.old }
{
    let heads = heads_of(number, x);
    bytes[..HEADS].copy_from_slice(&heads);
}

#[rattlefmt::skip]
fn heads_of(number: u32, x: u64) -> [u8; HEADS]
    ensures { result ≡ made_heads number x }
{
    let payload = payload_len(x);
    let flow = flow_of(x);
    let [size_high, size_low] = (28 + payload).to_be_bytes();
    let [id_high, id_low] = ((number % 65536) as u16).to_be_bytes();
    let [sum_high, sum_low] = header_sum(number, x).to_be_bytes();
    let [port_high, port_low] = (10000 + u16::from(flow)).to_be_bytes();
    let [len_high, len_low] = (8 + payload).to_be_bytes();
    [
        0x02, 0, 0, 0, 0, 0x01, 0x02, 0, 0, 0, 0, 0x02, 0x08, 0x00, // Ethernet II
        0x45, 0, size_high, size_low, id_high, id_low, 0, 0, 0x40, 0x11, sum_high, sum_low, // IPv4
        10, 0, 0, flow, 10, 1, 0, 1,
        port_high, port_low, 0, 9, len_high, len_low, 0, 0, // UDP
    ]
}

// The checksum of the IPv4 header.
fn header_sum(number: u32, x: u64) -> u16
    ensures { result ≡ made_sum number x }
{
    let id = (number % 65536) as u16;
    let words = [
        0x4500,
        28 + payload_len(x),
        id,
        0,
        0x4011,
        0,
        0x0a00,
        u16::from(flow_of(x)),
        0x0a01,
        0x0001,
    ];
    !ones_sum(&words)
}

fn ones_sum(words: &[u16]) -> u16
    ensures { result ≡ ones_sum words.now }
{
    match words {
        [] => 0,
        [word, rest @ ..] => ones_plus(*word, ones_sum(rest)),
    }
}

// The sum in one's complement.
fn ones_plus(a: u16, b: u16) -> u16
    ensures { result ≡ ones_plus a b }
{
    let sum = u32::from(a) + u32::from(b);
    (sum % 0x1_0000 + sum / 0x1_0000) as u16
}

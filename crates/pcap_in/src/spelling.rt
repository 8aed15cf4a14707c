//! The four spellings of a capture, and the numbers in it.
ghost use Rattle.std.specs.Prelude.{◌≡◌, ◌≢◌, ◌+◌, ◌^◌, ◌<◌, ◌≤◌, None, IfSome, length, drop};
ghost use Rattle.pcap_in.specs.Spelling.{head_of, in_nanos, magic_of, number, per_second};
ghost use Rattle.pcap_in.specs.declared.judge.TheConstants.{HEAD_LEN};
ghost use Rattle.pcap_in.specs.declared.spelling.Endian.{Endian};
ghost use Rattle.pcap_in.specs.declared.spelling.Unit.{Unit};

use byteorder::{BigEndian, ByteOrder, LittleEndian};

/// Which byte of a number stands first: its lowest or its highest.
#[derive(Clone, Copy, Debug, PartialEq, Eq)]
pub enum Endian {
    Little,
    Big,
}

/// What the fraction of a second counts.
#[derive(Clone, Copy, Debug, PartialEq, Eq)]
pub enum Unit {
    Micros,
    Nanos,
}

/// How a capture spells its numbers and stamps.
#[derive(Clone, Copy, Debug, PartialEq, Eq)]
pub struct Spelling {
    pub endian: Endian,
    pub unit: Unit,
}

/// The numbers of a record's head.
#[derive(Clone, Copy, Debug, PartialEq, Eq)]
pub struct RecordHead {
    pub seconds: u32,
    pub fraction: u32,
    pub included: u32,
    pub original: u32,
}

const MICROS_LITTLE: [u8; 4] = [0xd4, 0xc3, 0xb2, 0xa1];

const MICROS_BIG: [u8; 4] = [0xa1, 0xb2, 0xc3, 0xd4];

const NANOS_LITTLE: [u8; 4] = [0x4d, 0x3c, 0xb2, 0xa1];

const NANOS_BIG: [u8; 4] = [0xa1, 0xb2, 0x3c, 0x4d];

/// The spelling of a capture that begins with these bytes, if it is one.
pub fn spelling_of(magic: &[u8]) -> Option<Spelling>
    ensures some { IfSome result (λ spelling. magic.now ≡ magic_of spelling.endian spelling.unit) }
    ensures none { result ≡ None
        → (endian : Endian) (unit : Unit) → magic.now ≢ magic_of endian unit }
{
    let (endian, unit) = if magic == MICROS_LITTLE.as_slice() {
        (Endian::Little, Unit::Micros)
    } else if magic == MICROS_BIG.as_slice() {
        (Endian::Big, Unit::Micros)
    } else if magic == NANOS_LITTLE.as_slice() {
        (Endian::Little, Unit::Nanos)
    } else if magic == NANOS_BIG.as_slice() {
        (Endian::Big, Unit::Nanos)
    } else {
        return None;
    };
    Some(Spelling { endian, unit })
}

impl Unit {
    ghost use Rattle.pcap_in.specs.Spelling.{in_nanos, per_second};

    /// How many fractions make a second.
    pub fn per_second(self) -> u32
        ensures { result ≡ per_second self }
    {
        match self {
            Unit::Micros => 1_000_000,
            Unit::Nanos => 1_000_000_000,
        }
    }

    /// A fraction in nanoseconds.
    pub fn in_nanos(self, fraction: u32) -> u32
        requires { fraction < per_second self }
        ensures { result ≡ in_nanos self fraction }
    {
        match self {
            Unit::Micros => 1000 * fraction,
            Unit::Nanos => fraction,
        }
    }
}

/// The number of two bytes at an offset.
pub fn u16_at(endian: Endian, bytes: &[u8], at: usize) -> u16
    requires { at + 2 ≤ length bytes.now }
    ensures { result ≡ number endian 2 at bytes.now }
{
    match endian {
        Endian::Little => LittleEndian::read_u16(&bytes[at..]),
        Endian::Big => BigEndian::read_u16(&bytes[at..]),
    }
}

/// The number of four bytes at an offset.
pub fn u32_at(endian: Endian, bytes: &[u8], at: usize) -> u32
    requires { at + 4 ≤ length bytes.now }
    ensures { result ≡ number endian 4 at bytes.now }
{
    match endian {
        Endian::Little => LittleEndian::read_u32(&bytes[at..]),
        Endian::Big => BigEndian::read_u32(&bytes[at..]),
    }
}

/// The head that the bytes begin with. The byte order is looked at once.
pub fn head_at(endian: Endian, bytes: &[u8]) -> RecordHead
    requires { HEAD_LEN ≤ length bytes.now }
    ensures { result ≡ head_of endian bytes.now }
{
    match endian {
        Endian::Little => read_head::<LittleEndian>(bytes),
        Endian::Big => read_head::<BigEndian>(bytes),
    }
}

fn read_head<E: ByteOrder>(bytes: &[u8]) -> RecordHead
    requires { HEAD_LEN ≤ length bytes.now }
    ensures seconds { result.seconds ≡ E.number_of 4 bytes.now }
    ensures fraction { result.fraction ≡ E.number_of 4 (drop 4 bytes.now) }
    ensures included { result.included ≡ E.number_of 4 (drop 8 bytes.now) }
    ensures original { result.original ≡ E.number_of 4 (drop 12 bytes.now) }
{
    RecordHead {
        seconds: E::read_u32(bytes),
        fraction: E::read_u32(&bytes[4..]),
        included: E::read_u32(&bytes[8..]),
        original: E::read_u32(&bytes[12..]),
    }
}

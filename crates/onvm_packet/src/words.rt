//! Numbers in network byte order.
ghost use Rattle.std.specs.Prelude.{◌≡◌, ◌+◌, ◌≤◌, length};
ghost use Rattle.onvm_packet.specs.Bytes.{byte, number};

use byteorder::{BigEndian, ByteOrder};

pub fn u8_at(bytes: &[u8], at: usize) -> u8
    requires { at + 1 ≤ length bytes.now }
    ensures { result ≡ byte at bytes.now }
{
    bytes[at]
}

pub fn u16_at(bytes: &[u8], at: usize) -> u16
    requires { at + 2 ≤ length bytes.now }
    ensures { result ≡ number 2 at bytes.now }
{
    BigEndian::read_u16(&bytes[at..])
}

pub fn u32_at(bytes: &[u8], at: usize) -> u32
    requires { at + 4 ≤ length bytes.now }
    ensures { result ≡ number 4 at bytes.now }
{
    BigEndian::read_u32(&bytes[at..])
}

pub fn u128_at(bytes: &[u8], at: usize) -> u128
    requires { at + 16 ≤ length bytes.now }
    ensures { result ≡ number 16 at bytes.now }
{
    BigEndian::read_u128(&bytes[at..])
}

//! Addresses and prefixes as a chain file spells them.
ghost use Rattle.std.specs.Prelude.{◌≡◌, ◌≤◌, ◌<◌, ◌*◌, ◌==◌, ◌-◌, ℕ, length, option_map, IfSome, if◌then◌else◌, Some, None};
ghost use Rattle.chain_file.specs.Spelling as spec;

use onvm_base::{IPV4_BITS, IPV6_BITS, Prefix};

/// An IPv4 prefix: an address, a slash and a number of bits.
pub fn short_prefix(text: &[u8]) -> Option<Prefix>
    ensures { result ≡ spec.short_prefix_of text.now }
{
    match cut(text, b'/') {
        Some((address, bits)) => v4_with(v4(address), decimal(bits, IPV4_BITS)),
        None => None,
    }
}

fn v4_with(address: Option<u32>, bits: Option<u8>) -> Option<Prefix>
    ensures { result ≡ spec.v4_with address bits }
{
    match (address, bits) {
        (Some(address), Some(length)) => Some(Prefix::V4 { address, length }),
        _ => None,
    }
}

/// A prefix of either version.
pub fn prefix(text: &[u8]) -> Option<Prefix>
    ensures { result ≡ spec.prefix_of text.now }
{
    match long_prefix(text) {
        Some(prefix) => Some(prefix),
        None => short_prefix(text),
    }
}

// 32 hexadecimal digits, a slash and a number of bits.
fn long_prefix(text: &[u8]) -> Option<Prefix>
    ensures { result ≡ spec.long_prefix_of text.now }
{
    match cut(text, b'/') {
        Some((address, bits)) => v6_with(v6(address), decimal(bits, IPV6_BITS)),
        None => None,
    }
}

fn v6_with(address: Option<u128>, bits: Option<u8>) -> Option<Prefix>
    ensures { result ≡ spec.v6_with address bits }
{
    match (address, bits) {
        (Some(address), Some(length)) => Some(Prefix::V6 { address, length }),
        _ => None,
    }
}

// 32 hexadecimal digits.
fn v6(text: &[u8]) -> Option<u128>
    ensures { result ≡ spec.v6_of text.now }
{
    let mut bytes = [0u8; 16];
    if text.len() == 32 && fill(text, &mut bytes) {
        Some(u128::from_be_bytes(bytes))
    } else {
        None
    }
}

/// An IPv4 address: four numbers with points between.
pub fn v4(text: &[u8]) -> Option<u32>
    ensures { result ≡ spec.v4_of text.now }
{
    match cut(text, b'.') {
        Some((first, rest)) => last_three(first, rest),
        None => None,
    }
}

fn last_three(first: &[u8], rest: &[u8]) -> Option<u32>
    ensures { result ≡ spec.last_three first.now (spec.cut 46 rest.now) }
{
    match cut(rest, b'.') {
        Some((second, rest)) => last_two(first, second, rest),
        None => None,
    }
}

fn last_two(first: &[u8], second: &[u8], rest: &[u8]) -> Option<u32>
    ensures { result ≡ spec.last_two first.now second.now (spec.cut 46 rest.now) }
{
    match cut(rest, b'.') {
        Some((third, fourth)) => address(
            decimal(first, 255),
            decimal(second, 255),
            decimal(third, 255),
            decimal(fourth, 255),
        ),
        None => None,
    }
}

fn address(a: Option<u8>, b: Option<u8>, c: Option<u8>, d: Option<u8>) -> Option<u32>
    ensures { result ≡ spec.address_of a b c d }
{
    match (a, b, c, d) {
        (Some(a), Some(b), Some(c), Some(d)) => {
            Some(16_777_216 * a as u32 + 65_536 * b as u32 + 256 * c as u32 + d as u32)
        }
        _ => None,
    }
}

/// Twelve hexadecimal digits.
pub fn mac(text: &[u8]) -> Option<[u8; 6]>
    ensures { result ≡ spec.mac_of text.now }
{
    let mut bytes = [0u8; 6];
    if text.len() == 12 && fill(text, &mut bytes) {
        Some(bytes)
    } else {
        None
    }
}

// Writes the bytes that pairs of digits spell, or answers that they are none.
fn fill(text: &[u8], bytes: &mut [u8]) -> bool
    requires { length text.now ≡ 2 * length bytes.old }
    ensures { spec.bytes_of text.now ≡ (if result then Some bytes.new else None) }
{
    for at in 0..bytes.len() {
        match pair(text[2 * at], text[2 * at + 1]) {
            Some(byte) => bytes[at] = byte,
            None => return false,
        }
    }
    true
}

fn pair(high: u8, low: u8) -> Option<u8>
    ensures { result ≡ spec.byte_of high low }
{
    match (hex_digit(high), hex_digit(low)) {
        (Some(high), Some(low)) => Some(16 * high + low),
        _ => None,
    }
}

fn hex_digit(digit: u8) -> Option<u8>
    ensures same { result ≡ spec.hex_digit digit }
    ensures small { IfSome result (λ n. n < 16) }
{
    if 48 <= digit && digit <= 57 {
        Some(digit - 48)
    } else if 97 <= digit && digit <= 102 {
        Some(digit - 87)
    } else {
        None
    }
}

// A decimal number without leading zeros, up to a limit.
fn decimal(text: &[u8], limit: u8) -> Option<u8>
    ensures { result ≡ spec.decimal_of limit text.now }
{
    match text {
        [a] => one_digit(*a, limit),
        [a, b] => two_digits(*a, *b, limit),
        [a, b, c] => three_digits(*a, *b, *c, limit),
        _ => None,
    }
}

fn one_digit(a: u8, limit: u8) -> Option<u8>
    ensures { result ≡ spec.one_digit limit a }
{
    if is_digit(a) {
        up_to(a as u16 - 48, limit)
    } else {
        None
    }
}

fn two_digits(a: u8, b: u8, limit: u8) -> Option<u8>
    ensures { result ≡ spec.two_digits limit a b }
{
    if is_leading(a) && is_digit(b) {
        up_to(10 * (a as u16 - 48) + (b as u16 - 48), limit)
    } else {
        None
    }
}

fn three_digits(a: u8, b: u8, c: u8, limit: u8) -> Option<u8>
    ensures { result ≡ spec.three_digits limit a b c }
{
    if is_leading(a) && is_digit(b) && is_digit(c) {
        up_to(
            100 * (a as u16 - 48) + 10 * (b as u16 - 48) + (c as u16 - 48),
            limit,
        )
    } else {
        None
    }
}

fn up_to(number: u16, limit: u8) -> Option<u8>
    ensures { result ≡ spec.up_to limit number }
{
    if number <= limit as u16 {
        Some(number as u8)
    } else {
        None
    }
}

fn is_digit(c: u8) -> bool
    ensures { result ≡ spec.is_digit c }
{
    48 <= c && c <= 57
}

fn is_leading(c: u8) -> bool
    ensures { result ≡ spec.is_leading c }
{
    49 <= c && c <= 57
}

// The text before and behind the first of these marks.
fn cut(text: &[u8], mark: u8) -> Option<(&[u8], &[u8])>
    ensures { option_map (λ p. (p.0.now, p.1.now)) result ≡ spec.cut mark text.now }
{
    for at in 0..text.len() {
        if text[at] == mark {
            return Some((&text[..at], &text[at + 1..]));
        }
    }
    None
}

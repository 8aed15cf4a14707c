//! Frames to test with.

/// Sixteen bytes with no network head.
pub const SHORT: [u8; 16] = [2, 0, 0, 0, 0, 1, 2, 0, 0, 0, 0, 2, 0x88, 0xb5, 1, 2];

/// The same in VLAN 5 with priority 3.
pub const TAGGED: [u8; 20] = [
    2, 0, 0, 0, 0, 1, 2, 0, 0, 0, 0, 2, 0x81, 0, 0x60, 5, 0x88, 0xb5, 1, 2,
];

/// The heads of the first frame that the generator makes of seed 0: UDP over IPv4, from 10.0.0.14
/// port 10014 to 10.1.0.1 port 9.
pub const UDP_HEADS: [u8; 42] = [
    2, 0, 0, 0, 0, 1, 2, 0, 0, 0, 0, 2, 8, 0, // Ethernet
    0x45, 0, 3, 0x9e, 0, 1, 0, 0, 0x40, 0x11, 0x63, 0x3f, 10, 0, 0, 14, 10, 1, 0, 1, // IPv4
    0x27, 0x1e, 0, 9, 3, 0x8a, 0, 0, // UDP
];

/// That frame, with its payload of 898 bytes.
pub fn udp() -> [u8; 940] {
    let mut frame = [1u8; 940];
    frame[..42].copy_from_slice(&UDP_HEADS);
    frame
}

/// UDP over IPv6, from 2001:db8::1 port 8080 to 2001:db8::2 port 53, cut behind the ports.
pub const UDP_V6: [u8; 58] = [
    2, 0, 0, 0, 0, 1, 2, 0, 0, 0, 0, 2, 0x86, 0xdd, // Ethernet
    0x60, 0, 0, 0, 0, 4, 17, 64, // IPv6
    0x20, 1, 0x0d, 0xb8, 0, 0, 0, 0, 0, 0, 0, 0, 0, 0, 0, 1, // source
    0x20, 1, 0x0d, 0xb8, 0, 0, 0, 0, 0, 0, 0, 0, 0, 0, 0, 2, // target
    0x1f, 0x90, 0, 53, // ports
];

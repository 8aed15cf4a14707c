//! Edits, with checksums from another program.

ghost use Rattle.std.specs.Prelude.{◌<◌, length};

use super::frames::{SHORT, UDP_V6};
use crate::{Net, parse, pop_tag, push_tag, set_macs, set_ttl, swap_word};
use onvm_base::{NoMemory, Packet};
use std::alloc::Global;
use std::test::Fail;

// The frame with another TTL, where it has a network head.
fn with_ttl(alloc: Global, frame: &[u8], ttl: u8) -> Result<Packet, NoMemory>
    requires { length frame.now < 1000 }
{
    let mut packet = Packet::from_slice(alloc, frame)?;
    match parse(packet.bytes()).net {
        Net::None => {}
        Net::V4 { .. } | Net::V6 { .. } => set_ttl(&mut packet, ttl),
    }
    Ok(packet)
}

// The first value is the example of RFC 1624.
#[test]
fn an_update_gives_zero_and_not_all_ones(rt: HostRuntime) {
    assert_eq!(rt; swap_word(0xdd2f, 0x5555, 0x3285), 0);
    assert_eq!(rt; swap_word(0xfeff, 0x4011, 0x3f11), 0);
    assert_eq!(rt; swap_word(0x633f, 0x4011, 0x3f11), 0x643f);
    assert_eq!(rt; swap_word(0xffff, 0xffff, 0), 0xffff);
}

// Headers of the generator's frames 25678, 25891, 26323 and 156918 of seed 7, whose checksum
// becomes 0, of its first frame of seed 0, and one of a capture.
#[test]
fn a_step_of_the_ttl_updates_the_checksum(rt: HostRuntime) -> Result<(), Fail> {
    for (header, sum) in [
        (
            [
                0x45, 0, 3, 0x9e, 0x64, 0x4e, 0, 0, 0x40, 0x11, 0xfe, 0xff, 10, 0, 0, 0, 10, 1, 0,
                1,
            ],
            [0, 0],
        ),
        (
            [
                0x45, 0, 2, 0xbe, 0x65, 0x23, 0, 0, 0x40, 0x11, 0xfe, 0xff, 10, 0, 0, 11, 10, 1, 0,
                1,
            ],
            [0, 0],
        ),
        (
            [
                0x45, 0, 1, 0x0e, 0x66, 0xd3, 0, 0, 0x40, 0x11, 0xfe, 0xff, 10, 0, 0, 11, 10, 1, 0,
                1,
            ],
            [0, 0],
        ),
        (
            [
                0x45, 0, 2, 0xee, 0x64, 0xf6, 0, 0, 0x40, 0x11, 0xfe, 0xff, 10, 0, 0, 8, 10, 1, 0,
                1,
            ],
            [0, 0],
        ),
        (
            [
                0x45, 0, 3, 0x9e, 0, 1, 0, 0, 0x40, 0x11, 0x63, 0x3f, 10, 0, 0, 14, 10, 1, 0, 1,
            ],
            [0x64, 0x3f],
        ),
        (
            [
                0x45, 0, 0, 0x73, 0, 0, 0x40, 0, 0x40, 0x11, 0xb8, 0x61, 0xc0, 0xa8, 0, 1, 0xc0,
                0xa8, 0, 0xc7,
            ],
            [0xb9, 0x61],
        ),
    ] {
        let mut frame = [0u8; 34];
        frame[12] = 8;
        frame[14..].copy_from_slice(&header);
        let packet = with_ttl(rt.alloc(), &frame, 63)?;
        frame[22] = 63;
        frame[24..26].copy_from_slice(&sum);
        assert_eq!(rt; packet.bytes(), &frame[..]);
    }
    Ok(())
}

#[test]
fn a_hop_limit_is_one_byte(rt: HostRuntime) -> Result<(), Fail> {
    let packet = with_ttl(rt.alloc(), &UDP_V6, 63)?;
    let mut frame = UDP_V6;
    frame[21] = 63;
    assert_eq!(rt; packet.bytes(), &frame[..]);
    Ok(())
}

#[test]
fn addresses_come_target_first(rt: HostRuntime) -> Result<(), Fail> {
    let mut packet = Packet::from_slice(rt.alloc(), &SHORT)?;
    set_macs(&mut packet, [0, 1, 2, 3, 4, 5], [6, 7, 8, 9, 10, 11]);
    let frame = [0, 1, 2, 3, 4, 5, 6, 7, 8, 9, 10, 11, 0x88, 0xb5, 1, 2];
    assert_eq!(rt; packet.bytes(), &frame[..]);
    Ok(())
}

#[test]
fn a_tag_is_pushed_and_popped(rt: HostRuntime) -> Result<(), Fail> {
    let mut packet = Packet::from_slice(rt.alloc(), &SHORT)?;
    push_tag(&mut packet, 0x6005)?;
    let frame = [
        2, 0, 0, 0, 0, 1, 2, 0, 0, 0, 0, 2, 0x81, 0, 0x60, 5, 0x88, 0xb5, 1, 2,
    ];
    assert_eq!(rt; packet.bytes(), &frame[..]);
    pop_tag(&mut packet);
    assert_eq!(rt; packet.bytes(), &SHORT[..]);
    Ok(())
}

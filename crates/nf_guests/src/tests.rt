//! The guests as whoever runs functions sees them: in a box.

use crate::{Flip, Mirror};
use nf_api::{Meta, NetFunction};
use onvm_base::{ChainId, FrameId, Packet, PortId, Stamp, Verdict};
use std::test::Fail;

const META: Meta = Meta {
    frame: FrameId {
        port: PortId(0),
        number: 1,
    },
    stamp: Stamp {
        seconds: 1,
        nanos: 2000,
        tail: 0,
    },
    chain: ChainId(0),
    hops: 0,
    hash: 84_696_351,
};

const FRAME: [u8; 16] = [2, 0, 0, 0, 0, 1, 2, 0, 0, 0, 0, 2, 0x88, 0xb5, 1, 2];

#[test]
fn flip_changes_the_lowest_bit_of_the_last_byte(rt: HostRuntime) -> Result<(), Fail> {
    let mut flip = Flip { handled: 0 };
    let mut packet = Packet::from_slice(rt.alloc(), &FRAME)?;
    assert_eq!(rt; flip.handle(&mut packet, &META)?, Verdict::Next);
    let mut left = FRAME;
    left[15] = 3;
    assert_eq!(rt; packet.bytes(), &left[..]);
    assert_eq!(rt; flip.handle(&mut packet, &META)?, Verdict::Next);
    assert_eq!(rt; packet.bytes(), &FRAME[..]);
    let mut empty = Packet::from_slice(rt.alloc(), &[])?;
    assert_eq!(rt; flip.handle(&mut empty, &META)?, Verdict::Next);
    assert_eq!(rt; empty.bytes(), &[][..]);
    assert_eq!(rt; flip.handled, 3);
    Ok(())
}

#[test]
fn a_mirrored_frame_goes_back_to_its_source(rt: HostRuntime) -> Result<(), Fail> {
    let mut mirror: Box<dyn NetFunction + Send> = Box::new(rt.alloc(), Mirror)?;
    let mut packet = Packet::from_slice(rt.alloc(), &FRAME)?;
    assert_eq!(rt; mirror.handle(&mut packet, &META)?, Verdict::Next);
    let left = [2, 0, 0, 0, 0, 2, 2, 0, 0, 0, 0, 1, 0x88, 0xb5, 1, 2];
    assert_eq!(rt; packet.bytes(), &left[..]);
    let mut short = Packet::from_slice(rt.alloc(), &FRAME[..13])?;
    assert_eq!(rt; mirror.handle(&mut short, &META)?, Verdict::Next);
    assert_eq!(rt; short.bytes(), &FRAME[..13]);
    Ok(())
}

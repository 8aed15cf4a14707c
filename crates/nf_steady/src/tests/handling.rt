//! A steady function as whoever runs functions sees it.

use super::frames::{SHORT, udp};
use crate::Steady;
use nf_api::Meta;
use nf_api::laws::two_packets_are_a_journal;
use onvm_base::{ChainId, FrameId, Packet, PortId, Stamp, Verdict};
use std::test::Fail;

const META: Meta = Meta {
    frame: FrameId {
        port: PortId(0),
        number: 1,
    },
    stamp: Stamp {
        seconds: 0,
        nanos: 0,
        tail: 0,
    },
    chain: ChainId(0),
    hops: 0,
    hash: 0,
};

#[test]
fn packets_in_turn_are_answered_one_by_one(rt: HostRuntime) -> Result<(), Fail> {
    let mut left = udp();
    left[22] = 63;
    left[24] = 0x64;
    let mut first = Packet::from_slice(rt.alloc(), &udp())?;
    let mut second = Packet::from_slice(rt.alloc(), &SHORT)?;
    let verdicts = two_packets_are_a_journal(&mut Steady::Ttl, &mut first, &mut second, &META)?;
    assert_eq!(rt; verdicts, (Verdict::Next, Verdict::Next));
    assert_eq!(rt; first.bytes(), &left[..]);
    assert_eq!(rt; second.bytes(), &SHORT[..]);
    let verdicts = two_packets_are_a_journal(&mut Steady::Drop, &mut first, &mut second, &META)?;
    assert_eq!(rt; verdicts, (Verdict::Drop, Verdict::Drop));
    Ok(())
}

//! Frames that NAT translates, byte for byte.
ghost use Rattle.std.specs.Prelude.{◌≤◌, length};
ghost use Rattle.onvm_base.specs.declared.limits.TheConstants.{MAX_FRAME_BYTES};

use super::frames::{
    GENERATED, GENERATED_SENT_ON, SHORT, TAGGED_FROM_INSIDE, TAGGED_SENT_ON, TCP_ANSWER,
    TCP_DELIVERED, TCP_FROM_INSIDE, TCP_SENT_ON, UDP_ANSWER, UDP_DELIVERED, UDP_FROM_INSIDE,
    UDP_SENT_ON, ZERO_FROM_INSIDE, ZERO_SENT_ON, with_payload,
};
use super::{may_be_handed_over, meta};
use crate::Keeper;
use nf_api::NetFunction;
use onvm_base::{Kind, MAX_FRAME_BYTES, NoMemory, Packet, Prefix, Verdict};
use std::alloc::Global;
use std::test::Fail;

// 10.0.0.0/8 behind 192.0.2.1, with two ports.
const NAT: Kind = Kind::Nat {
    inside: Prefix::V4 {
        address: 0x0a00_0000,
        length: 8,
    },
    outside: 0xc000_0201,
    ports: (40_000, 40_001),
};

fn nat(alloc: Global) -> Result<Keeper, NoMemory> {
    Keeper::make(alloc, &NAT)
}

// The verdict for a frame, and the packet that is left.
fn handled(alloc: Global, nat: &mut Keeper, frame: &[u8]) -> Result<(Verdict, Packet), NoMemory>
    requires { length frame.now ≤ MAX_FRAME_BYTES }
{
    let mut packet = Packet::from_slice(alloc, frame)?;
    let verdict = nat.handle(&mut packet, &meta(0))?;
    Ok((verdict, packet))
}

#[test]
fn a_generated_frame_has_the_lowest_port(rt: HostRuntime) -> Result<(), Fail> {
    let mut nat = nat(rt.alloc())?;
    may_be_handed_over(&nat);
    let (verdict, packet) = handled(rt.alloc(), &mut nat, &with_payload(&GENERATED))?;
    assert_eq!(rt; verdict, Verdict::Next);
    assert_eq!(rt; packet.bytes(), &with_payload(&GENERATED_SENT_ON)[..]);
    Ok(())
}

#[test]
fn checksums_are_those_of_another_program(rt: HostRuntime) -> Result<(), Fail> {
    let mut nat = nat(rt.alloc())?;
    let (_, packet) = handled(rt.alloc(), &mut nat, &TCP_FROM_INSIDE)?;
    assert_eq!(rt; packet.bytes(), &TCP_SENT_ON[..]);
    let (_, packet) = handled(rt.alloc(), &mut nat, &TCP_ANSWER)?;
    assert_eq!(rt; packet.bytes(), &TCP_DELIVERED[..]);
    let (_, packet) = handled(rt.alloc(), &mut nat, &UDP_FROM_INSIDE)?;
    assert_eq!(rt; packet.bytes(), &UDP_SENT_ON[..]);
    let (_, packet) = handled(rt.alloc(), &mut nat, &UDP_ANSWER)?;
    assert_eq!(rt; packet.bytes(), &UDP_DELIVERED[..]);
    let (_, packet) = handled(rt.alloc(), &mut nat, &TAGGED_FROM_INSIDE)?;
    assert_eq!(rt; packet.bytes(), &TAGGED_SENT_ON[..]);
    let (_, packet) = handled(rt.alloc(), &mut nat, &ZERO_FROM_INSIDE)?;
    assert_eq!(rt; packet.bytes(), &ZERO_SENT_ON[..]);
    Ok(())
}

#[test]
fn senders_get_the_ports_in_order_until_none_is_left(rt: HostRuntime) -> Result<(), Fail> {
    let mut nat = nat(rt.alloc())?;
    let mut frame = with_payload(&GENERATED);
    for (sender, port) in [(1, 0x40), (2, 0x41), (1, 0x40)] {
        frame[29] = sender;
        let (verdict, packet) = handled(rt.alloc(), &mut nat, &frame)?;
        assert_eq!(rt; verdict, Verdict::Next);
        assert_eq!(rt; packet.bytes().get(34..36), Some(&[0x9c, port][..]));
    }
    frame[29] = 3;
    let (verdict, packet) = handled(rt.alloc(), &mut nat, &frame)?;
    assert_eq!(rt; verdict, Verdict::Drop);
    assert_eq!(rt; packet.bytes(), &frame[..]);
    let (verdict, packet) = handled(rt.alloc(), &mut nat, &TCP_FROM_INSIDE)?;
    assert_eq!(rt; verdict, Verdict::Next);
    assert_eq!(rt; packet.bytes(), &TCP_SENT_ON[..]);
    Ok(())
}

#[test]
fn a_frame_that_is_cut_before_its_checksum_is_dropped(rt: HostRuntime) -> Result<(), Fail> {
    let mut nat = nat(rt.alloc())?;
    let (verdict, packet) = handled(rt.alloc(), &mut nat, &TCP_FROM_INSIDE[..51])?;
    assert_eq!(rt; verdict, Verdict::Drop);
    assert_eq!(rt; packet.bytes(), &TCP_FROM_INSIDE[..51]);
    let (verdict, _) = handled(rt.alloc(), &mut nat, &TCP_FROM_INSIDE[..52])?;
    assert_eq!(rt; verdict, Verdict::Next);
    let (verdict, packet) = handled(rt.alloc(), &mut nat, &UDP_FROM_INSIDE[..41])?;
    assert_eq!(rt; verdict, Verdict::Drop);
    assert_eq!(rt; packet.bytes(), &UDP_FROM_INSIDE[..41]);
    let (verdict, _) = handled(rt.alloc(), &mut nat, &UDP_FROM_INSIDE[..42])?;
    assert_eq!(rt; verdict, Verdict::Next);
    Ok(())
}

#[test]
fn what_concerns_no_mapping_goes_on_as_it_came(rt: HostRuntime) -> Result<(), Fail> {
    let mut nat = nat(rt.alloc())?;
    let (verdict, packet) = handled(rt.alloc(), &mut nat, &SHORT)?;
    assert_eq!(rt; verdict, Verdict::Next);
    assert_eq!(rt; packet.bytes(), &SHORT[..]);
    let (verdict, packet) = handled(rt.alloc(), &mut nat, &TCP_ANSWER)?;
    assert_eq!(rt; verdict, Verdict::Next);
    assert_eq!(rt; packet.bytes(), &TCP_ANSWER[..]);
    let (verdict, packet) = handled(rt.alloc(), &mut nat, &UDP_DELIVERED)?;
    assert_eq!(rt; verdict, Verdict::Next);
    assert_eq!(rt; packet.bytes(), &UDP_DELIVERED[..]);
    Ok(())
}

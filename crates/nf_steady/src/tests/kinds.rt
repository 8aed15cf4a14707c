//! What each kind answers, and the bytes that it leaves.

ghost use Rattle.std.specs.Prelude.{◌≤◌, length, IsTrue};
ghost use Rattle.nf_api.specs.Answers.{is_steady};
ghost use Rattle.onvm_base.specs.declared.limits.TheConstants.{MAX_FRAME_BYTES};

use super::frames::{SHORT, TAGGED, UDP_HEADS, UDP_V6, udp};
use crate::Steady;
use onvm_base::{Kind, ListOf, NoMemory, Packet, PortId, Tests, Verdict};
use std::alloc::Global;
use std::test::Fail;

const TAG: Kind = Kind::Tag {
    vlan: 5,
    tag_priority: 3,
};

// The verdict of a function of this kind for a frame that port 1 received, and the packet that it
// leaves.
fn answer_of(alloc: Global, kind: &Kind, frame: &[u8]) -> Result<(Verdict, Packet), NoMemory>
    requires steady { IsTrue (is_steady kind.now) }
    requires limit { length frame.now ≤ MAX_FRAME_BYTES }
{
    let mut packet = Packet::from_slice(alloc, frame)?;
    let verdict = Steady::make(alloc, kind)?.answer(&mut packet, PortId(1))?;
    Ok((verdict, packet))
}

#[test]
fn a_verdict_alone_leaves_the_bytes(rt: HostRuntime) -> Result<(), Fail> {
    for (kind, verdict) in [
        (Kind::Forward, Verdict::Next),
        (Kind::Drop, Verdict::Drop),
        (Kind::Out { port: 9 }, Verdict::Out(9)),
        (Kind::To { to_service: 9 }, Verdict::ToService(9)),
    ] {
        let (given, packet) = answer_of(rt.alloc(), &kind, &SHORT)?;
        assert_eq!(rt; given, verdict);
        assert_eq!(rt; packet.bytes(), &SHORT[..]);
    }
    Ok(())
}

#[test]
fn a_frame_with_ttl_64_leaves_with_63(rt: HostRuntime) -> Result<(), Fail> {
    let (verdict, packet) = answer_of(rt.alloc(), &Kind::Ttl, &udp())?;
    let mut left = udp();
    left[22] = 63;
    left[24] = 0x64;
    assert_eq!(rt; verdict, Verdict::Next);
    assert_eq!(rt; packet.bytes(), &left[..]);
    Ok(())
}

#[test]
fn a_frame_with_ttl_1_or_0_is_dropped(rt: HostRuntime) -> Result<(), Fail> {
    for ttl in [0, 1] {
        let mut frame = udp();
        frame[22] = ttl;
        let (verdict, packet) = answer_of(rt.alloc(), &Kind::Ttl, &frame)?;
        assert_eq!(rt; verdict, Verdict::Drop);
        assert_eq!(rt; packet.bytes(), &frame[..]);
    }
    Ok(())
}

#[test]
fn a_hop_limit_goes_down_like_a_ttl(rt: HostRuntime) -> Result<(), Fail> {
    for (hops, verdict, left) in [
        (64, Verdict::Next, 63),
        (2, Verdict::Next, 1),
        (1, Verdict::Drop, 1),
        (0, Verdict::Drop, 0),
    ] {
        let mut frame = UDP_V6;
        frame[21] = hops;
        let (given, packet) = answer_of(rt.alloc(), &Kind::Ttl, &frame)?;
        frame[21] = left;
        assert_eq!(rt; given, verdict);
        assert_eq!(rt; packet.bytes(), &frame[..]);
    }
    Ok(())
}

#[test]
fn a_frame_without_a_network_head_has_no_ttl(rt: HostRuntime) -> Result<(), Fail> {
    let (verdict, packet) = answer_of(rt.alloc(), &Kind::Ttl, &SHORT)?;
    assert_eq!(rt; verdict, Verdict::Next);
    assert_eq!(rt; packet.bytes(), &SHORT[..]);
    Ok(())
}

#[test]
fn a_tag_is_put_before_the_type_and_taken_out(rt: HostRuntime) -> Result<(), Fail> {
    let (verdict, packet) = answer_of(rt.alloc(), &TAG, &SHORT)?;
    assert_eq!(rt; verdict, Verdict::Next);
    assert_eq!(rt; packet.bytes(), &TAGGED[..]);
    let (verdict, packet) = answer_of(rt.alloc(), &Kind::Untag, &TAGGED)?;
    assert_eq!(rt; verdict, Verdict::Next);
    assert_eq!(rt; packet.bytes(), &SHORT[..]);
    let (verdict, packet) = answer_of(rt.alloc(), &Kind::Untag, &SHORT)?;
    assert_eq!(rt; verdict, Verdict::Next);
    assert_eq!(rt; packet.bytes(), &SHORT[..]);
    Ok(())
}

#[test]
fn a_frame_of_13_bytes_has_no_place_for_tag_or_addresses(rt: HostRuntime) -> Result<(), Fail> {
    let macs = Kind::Macs {
        target: [0; 6],
        source: [0; 6],
    };
    for kind in [TAG, macs] {
        let (verdict, packet) = answer_of(rt.alloc(), &kind, &SHORT[..13])?;
        assert_eq!(rt; verdict, Verdict::Next);
        assert_eq!(rt; packet.bytes(), &SHORT[..13]);
    }
    Ok(())
}

#[test]
fn a_frame_of_14_bytes_has_place_for_tag_and_addresses(rt: HostRuntime) -> Result<(), Fail> {
    let macs = Kind::Macs {
        target: [9; 6],
        source: [8; 6],
    };
    let (_, packet) = answer_of(rt.alloc(), &macs, &SHORT[..14])?;
    let frame = [9, 9, 9, 9, 9, 9, 8, 8, 8, 8, 8, 8, 0x88, 0xb5];
    assert_eq!(rt; packet.bytes(), &frame[..]);
    let (_, packet) = answer_of(rt.alloc(), &TAG, &SHORT[..14])?;
    assert_eq!(rt; packet.bytes(), &TAGGED[..18]);
    Ok(())
}

#[test]
fn a_tag_is_taken_out_where_a_type_is_behind_it(rt: HostRuntime) -> Result<(), Fail> {
    let (_, packet) = answer_of(rt.alloc(), &Kind::Untag, &TAGGED[..18])?;
    assert_eq!(rt; packet.bytes(), &SHORT[..14]);
    let (_, packet) = answer_of(rt.alloc(), &Kind::Untag, &TAGGED[..17])?;
    assert_eq!(rt; packet.bytes(), &TAGGED[..17]);
    Ok(())
}

// The verdict of a function that pushes a tag for a frame of so many bytes, all 7, and the packet
// that it leaves.
fn answer_of_tag(alloc: Global, len: usize) -> Result<(Verdict, Packet), NoMemory>
    requires { len ≤ MAX_FRAME_BYTES }
{
    let frame = Vec::from_elem(alloc, 7u8, len)?;
    answer_of(alloc, &TAG, &frame)
}

#[test]
fn a_tag_that_makes_a_frame_too_long_drops_it(rt: HostRuntime) -> Result<(), Fail> {
    let (verdict, packet) = answer_of_tag(rt.alloc(), 262_141)?;
    assert_eq!(rt; verdict, Verdict::Drop);
    assert_eq!(rt; packet.bytes().len(), 262_141);
    assert!(rt; packet.bytes().iter().all(|byte| *byte == 7));
    let (verdict, packet) = answer_of_tag(rt.alloc(), 262_140)?;
    assert_eq!(rt; verdict, Verdict::Next);
    assert_eq!(rt; packet.bytes().len(), 262_144);
    assert_eq!(rt; packet.bytes()[12..16], [0x81, 0, 0x60, 5][..]);
    Ok(())
}

#[test]
fn addresses_come_target_first(rt: HostRuntime) -> Result<(), Fail> {
    let macs = Kind::Macs {
        target: [0, 1, 2, 3, 4, 5],
        source: [6, 7, 8, 9, 10, 11],
    };
    let (verdict, packet) = answer_of(rt.alloc(), &macs, &SHORT)?;
    assert_eq!(rt; verdict, Verdict::Next);
    let frame = [0, 1, 2, 3, 4, 5, 6, 7, 8, 9, 10, 11, 0x88, 0xb5, 1, 2];
    assert_eq!(rt; packet.bytes(), &frame[..]);
    Ok(())
}

#[test]
fn one_object_of_a_filter_drops(rt: HostRuntime) -> Result<(), Fail> {
    let other_port = Tests {
        port: Some(0),
        vlan: None,
        ethertype: None,
        src: None,
        dst: None,
        protocol: None,
        src_ports: None,
        dst_ports: None,
    };
    let tcp = Tests {
        protocol: Some(6),
        ..other_port
    };
    let port = Tests {
        port: Some(1),
        dst_ports: Some((9, 9)),
        ..other_port
    };
    for (second, verdict) in [(port, Verdict::Drop), (tcp, Verdict::Next)] {
        let mut tests = ListOf::make(rt.alloc());
        tests.push(other_port)?;
        tests.push(second)?;
        let (given, packet) = answer_of(rt.alloc(), &Kind::Filter { tests }, &UDP_HEADS)?;
        assert_eq!(rt; given, verdict);
        assert_eq!(rt; packet.bytes(), &UDP_HEADS[..]);
    }
    Ok(())
}

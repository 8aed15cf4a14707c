//! Which service a flow goes to, and what a run of packets leaves.
ghost use Rattle.std.specs.Prelude.{◌<◌, length};

use super::frames::{SHORT, UDP, route_of};
use crate::Route;
use nf_api::Meta;
use nf_api::laws::two_packets_are_a_journal;
use onvm_base::{
    ChainId, ChainStep, FrameId, Kind, ListOf, NoMemory, Packet, PortId, Prefix, RouteEntry, Stamp,
    Verdict,
};
use std::alloc::Global;
use std::test::Fail;

// A frame whose number, and whose hash as it was captured, would pick other services.
const META: Meta = Meta {
    frame: FrameId {
        port: PortId(2),
        number: 3,
    },
    stamp: Stamp {
        seconds: 1,
        nanos: 2,
        tail: 0,
    },
    chain: ChainId(0),
    hops: 0,
    hash: 2,
};

// The function of the kind that spreads flows over these services.
fn balance(alloc: Global, numbers: &[u8]) -> Result<Route, NoMemory>
    requires { 0 < length numbers.now }
{
    let services = ListOf::from_slice(alloc, numbers)?;
    Route::make(alloc, &Kind::Balance { services })
}

// The first frame of the generator, whole.
fn udp_packet(alloc: Global) -> Result<Packet, NoMemory> {
    let mut packet = Packet::from_slice(alloc, &[1; 940])?;
    packet.replace(0, 42, &UDP)?;
    Ok(packet)
}

#[test]
fn the_flow_hash_picks_the_service(rt: HostRuntime) -> Result<(), Fail> {
    let one = balance(rt.alloc(), &[1])?;
    assert_eq!(rt; one.verdict(&SHORT), Verdict::ToService(1));
    let five = balance(rt.alloc(), &[7, 8, 9, 10, 11])?;
    assert_eq!(rt; five.verdict(&SHORT), Verdict::ToService(8));
    assert_eq!(rt; five.verdict(&UDP), Verdict::ToService(11));
    Ok(())
}

#[test]
fn balanced_packets_leave_as_they_came(rt: HostRuntime) -> Result<(), Fail> {
    let mut first = udp_packet(rt.alloc())?;
    let mut second = Packet::from_slice(rt.alloc(), &SHORT)?;
    let mut route = balance(rt.alloc(), &[7, 8, 9, 10, 11])?;
    let verdicts = two_packets_are_a_journal(&mut route, &mut first, &mut second, &META)?;
    assert_eq!(rt; verdicts, (Verdict::ToService(11), Verdict::ToService(8)));
    let as_it_came = udp_packet(rt.alloc())?;
    assert_eq!(rt; first.bytes(), as_it_came.bytes());
    assert_eq!(rt; second.bytes(), SHORT.as_slice());
    Ok(())
}

#[test]
fn routed_packets_leave_as_they_came(rt: HostRuntime) -> Result<(), Fail> {
    let mut first = udp_packet(rt.alloc())?;
    let mut second = Packet::from_slice(rt.alloc(), &SHORT)?;
    let prefix = Prefix::V4 {
        address: 0x0a01_0000,
        length: 16,
    };
    let target = ChainStep::To(9);
    let mut route = route_of(rt.alloc(), &[RouteEntry { prefix, target }])?;
    let verdicts = two_packets_are_a_journal(&mut route, &mut first, &mut second, &META)?;
    assert_eq!(rt; verdicts, (Verdict::ToService(9), Verdict::Drop));
    let as_it_came = udp_packet(rt.alloc())?;
    assert_eq!(rt; first.bytes(), as_it_came.bytes());
    assert_eq!(rt; second.bytes(), SHORT.as_slice());
    Ok(())
}

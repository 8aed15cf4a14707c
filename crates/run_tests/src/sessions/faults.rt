//! Sessions that stop.

use super::calls::{add, end_of, end_with, none, one, plan_of};
use super::captures::{FRAME, capture, cut, feed_of};
use super::plans::{FORWARD, TWO_PORTS, one_function};
use nf_api::{Meta, NetFunction};
use onvm_base::{ListOf, NoMemory, Packet, PortId, Verdict};
use onvm_host::{MemInput, Source};
use onvm_session::{Ended, Stop};
use pcap_in::PcapFault;
use rx_feed::{Feed, Generator};
use std::alloc::Global;
use std::test::Fail;

// A capture of one frame, and then of a record whose fraction is 1,000,000.
fn faulty(alloc: Global) -> Result<Vec<u8>, NoMemory> {
    let mut bytes = capture(alloc, &[FRAME])?;
    bytes.extend_from_slice(&[1, 0, 0, 0, 0x40, 0x42, 0x0f, 0, 16, 0, 0, 0, 16, 0, 0, 0])?;
    bytes.extend_from_slice(&FRAME)?;
    Ok(bytes)
}

fn fault(port: u8, fault: PcapFault) -> Option<Stop> {
    Some(Stop::Capture {
        port: PortId(port),
        fault,
    })
}

// Whether a source has nothing left.
fn is_empty(feed: Option<&mut Feed<MemInput>>) -> bool {
    match feed {
        Some(Feed::Live(input)) => input.take(&mut [0]) == Ok(0),
        _ => false,
    }
}

// Bursts have eight frames: port 1's fault is met in round 0, and port 0's only by reading on.
#[test]
fn the_lowest_port_with_a_fault_is_told(rt: HostRuntime) -> Result<(), Fail> {
    let alloc = rt.alloc();
    let hundred = [FRAME; 100];
    let no_magic = [0; 24];
    let rows = [
        (
            capture(alloc, &hundred)?,
            faulty(alloc)?,
            fault(1, PcapFault::Fraction { at: 56 }),
        ),
        (
            cut(alloc, &hundred)?,
            faulty(alloc)?,
            fault(0, PcapFault::Torn { at: 3192 }),
        ),
        (
            cut(alloc, &[FRAME])?,
            Vec::from_slice(alloc, &no_magic)?,
            fault(0, PcapFault::Torn { at: 24 }),
        ),
        (
            capture(alloc, &[FRAME])?,
            Vec::from_slice(alloc, &no_magic)?,
            fault(1, PcapFault::Magic),
        ),
    ];
    for (zero, one, stop) in &rows {
        let mut feeds = none(alloc);
        add(&mut feeds, feed_of(alloc, zero, &[])?)?;
        add(&mut feeds, feed_of(alloc, one, &[])?)?;
        let Ended { outcome, mut feeds } = end_of(&rt, alloc, TWO_PORTS, feeds)?;
        assert_eq!(rt; outcome.err(), *stop);
        assert_eq!(rt; feeds.len(), 2);
        assert!(rt; is_empty(feeds.as_mut_slice().get_mut(0)));
    }
    Ok(())
}

#[test]
fn a_failed_take_stops_its_port(rt: HostRuntime) -> Result<(), Fail> {
    let alloc = rt.alloc();
    let mut feeds = none(alloc);
    add(&mut feeds, Feed::Made(Generator::make(7, 100)))?;
    add(
        &mut feeds,
        feed_of(alloc, &capture(alloc, &[FRAME])?, &[1])?,
    )?;
    let Ended { outcome, feeds } = end_of(&rt, alloc, TWO_PORTS, feeds)?;
    assert_eq!(rt; outcome.err(), Some(Stop::Read { port: PortId(1) }));
    assert_eq!(rt; feeds.len(), 2);
    assert!(rt; matches!(feeds.get(0), Some(Feed::Made(made)) if made.given() == 100));
    assert!(rt; matches!(feeds.get(1), Some(Feed::Live(_))));
    Ok(())
}

// Wants memory for each packet.
#[derive(Drop)]
struct Wants;

impl NetFunction for Wants {
    ghost use Rattle.nf_api.specs.Tree.{nothing};

    ghost state = { λ function. nothing };

    ghost acts = { λ function before bytes meta verdict left after. ⊥ };

    fn handle(&mut self, _packet: &mut Packet, _meta: &Meta) -> Result<Verdict, NoMemory> {
        Err(NoMemory)
    }
}

#[test]
fn a_function_that_wants_memory_stops_the_session(rt: HostRuntime) -> Result<(), Fail> {
    let alloc = rt.alloc();
    let file = one_function(alloc, "", FORWARD)?;
    let plan = plan_of(alloc, &file)?;
    let mut units = ListOf::make(alloc);
    units.push(Wants)?;
    let feeds = one(alloc, Feed::Made(Generator::make(7, 100)))?;
    let Ended { outcome, feeds } = end_with(&rt, alloc, &plan, units, feeds)?;
    assert_eq!(rt; outcome.err(), Some(Stop::Memory));
    assert_eq!(rt; feeds.len(), 1);
    assert!(rt; matches!(feeds.get(0), Some(Feed::Made(made)) if made.given() == 32));
    Ok(())
}

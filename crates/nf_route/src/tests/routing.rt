//! Which entry wins.

use super::frames::{SHORT, UDP, list_of, route_of};
use crate::Table;
use onvm_base::{ChainStep, Prefix, RouteEntry, Verdict};
use std::test::Fail;

// An entry for an IPv4 prefix.
fn entry(address: u32, length: u8, target: ChainStep) -> RouteEntry {
    RouteEntry {
        prefix: Prefix::V4 { address, length },
        target,
    }
}

#[test]
fn the_longest_prefix_wins_wherever_it_stands(rt: HostRuntime) -> Result<(), Fail> {
    let wide = entry(0x0a00_0000, 8, ChainStep::Out(0));
    let narrow = entry(0x0a01_0000, 16, ChainStep::To(9));
    for entries in [[wide, narrow], [narrow, wide]] {
        let route = route_of(rt.alloc(), &entries)?;
        assert_eq!(rt; route.verdict(&UDP), Verdict::ToService(9));
    }
    Ok(())
}

#[test]
fn the_first_of_equal_prefixes_wins(rt: HostRuntime) -> Result<(), Fail> {
    let first = entry(0x0a01_0000, 16, ChainStep::To(4));
    let second = entry(0x0a01_ffff, 16, ChainStep::To(5));
    let route = route_of(rt.alloc(), &[first, second])?;
    assert_eq!(rt; route.verdict(&UDP), Verdict::ToService(4));
    let route = route_of(rt.alloc(), &[second, first])?;
    assert_eq!(rt; route.verdict(&UDP), Verdict::ToService(5));
    Ok(())
}

#[test]
fn a_frame_that_no_entry_has_is_dropped(rt: HostRuntime) -> Result<(), Fail> {
    // The source of the frame is here, its target is not.
    let route = route_of(rt.alloc(), &[entry(0x0a00_0000, 16, ChainStep::Out(1))])?;
    assert_eq!(rt; route.verdict(&UDP), Verdict::Drop);
    let none = route_of(rt.alloc(), &[])?;
    assert_eq!(rt; none.verdict(&UDP), Verdict::Drop);
    Ok(())
}

#[test]
fn a_frame_without_an_ipv4_head_is_dropped_even_by_a_table_of_all_addresses(
    rt: HostRuntime,
) -> Result<(), Fail> {
    let route = route_of(rt.alloc(), &[entry(0, 0, ChainStep::Out(1))])?;
    let mut ipv6 = [0; 54];
    ipv6[12..15].copy_from_slice(&[0x86, 0xdd, 0x60]);
    assert_eq!(rt; route.verdict(&SHORT), Verdict::Drop);
    assert_eq!(rt; route.verdict(&ipv6), Verdict::Drop);
    assert_eq!(rt; route.verdict(&UDP), Verdict::Out(1));
    Ok(())
}

#[test]
fn a_prefix_has_its_first_and_its_last_address_and_none_beside_them(
    rt: HostRuntime,
) -> Result<(), Fail> {
    let entries = [
        entry(0x0a00_0000, 8, ChainStep::To(8)),
        entry(0x0a01_0203, 16, ChainStep::To(16)),
        entry(0x0a01_0001, 32, ChainStep::To(32)),
        entry(0xffff_ffff, 32, ChainStep::Out(2)),
    ];
    let table = Table::make(rt.alloc(), &list_of(rt.alloc(), &entries)?)?;
    for (target, verdict) in [
        (0, Verdict::Drop),
        (0x09ff_ffff, Verdict::Drop),
        (0x0a00_0000, Verdict::ToService(8)),
        (0x0a00_ffff, Verdict::ToService(8)),
        (0x0a01_0000, Verdict::ToService(16)),
        (0x0a01_0001, Verdict::ToService(32)),
        (0x0a01_0002, Verdict::ToService(16)),
        (0x0a01_ffff, Verdict::ToService(16)),
        (0x0a02_0000, Verdict::ToService(8)),
        (0x0aff_ffff, Verdict::ToService(8)),
        (0x0b00_0000, Verdict::Drop),
        (0xffff_fffe, Verdict::Drop),
        (0xffff_ffff, Verdict::Out(2)),
    ] {
        assert_eq!(rt; table.find(target), verdict, "{target}");
    }
    Ok(())
}

#[test]
fn an_ipv6_prefix_has_no_ipv4_address(rt: HostRuntime) -> Result<(), Fail> {
    let ipv6 = RouteEntry {
        prefix: Prefix::V6 {
            address: 0,
            length: 0,
        },
        target: ChainStep::Out(1),
    };
    let route = route_of(
        rt.alloc(),
        &[ipv6, entry(0x0a01_0000, 16, ChainStep::To(9))],
    )?;
    assert_eq!(rt; route.verdict(&UDP), Verdict::ToService(9));
    let route = route_of(rt.alloc(), &[ipv6])?;
    assert_eq!(rt; route.verdict(&UDP), Verdict::Drop);
    Ok(())
}

#[test]
fn a_prefix_of_no_bits_has_every_address(rt: HostRuntime) -> Result<(), Fail> {
    let all = entry(0x0a01_0203, 0, ChainStep::Out(3));
    let table = Table::make(rt.alloc(), &list_of(rt.alloc(), &[all])?)?;
    for target in [0, 1, 0x7fff_ffff, 0x8000_0000, 0xffff_ffff] {
        assert_eq!(rt; table.find(target), Verdict::Out(3), "{target}");
    }
    Ok(())
}

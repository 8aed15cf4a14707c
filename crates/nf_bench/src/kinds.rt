//! Functions whose parameters have a size.

use nf_route::Route;
use nf_steady::Steady;
use onvm_base::{ChainStep, Kind, ListOf, NoMemory, Prefix, RouteEntry, Tests};
use std::alloc::Global;

/// A filter of so many objects, none of which holds for a frame of this program.
pub fn filter(alloc: Global, objects: u16) -> Result<Steady, NoMemory> {
    let mut tests = ListOf::make(alloc);
    for _ in 0..objects {
        tests.push(Tests {
            port: Some(0),
            vlan: None,
            ethertype: Some(0x0800),
            src: None,
            dst: None,
            protocol: Some(17),
            src_ports: None,
            dst_ports: Some((10_000, 10_000)),
        })?;
    }
    Ok(Steady::Filter { tests })
}

/// A table of so many prefixes 10.1.N.0/24.
pub fn route(alloc: Global, entries: u16) -> Result<Route, NoMemory> {
    let mut table = ListOf::make(alloc);
    for entry in 0..entries {
        table.push(RouteEntry {
            prefix: Prefix::V4 {
                address: 0x0a01_0000 + 256 * u32::from(entry),
                length: 24,
            },
            target: ChainStep::Out(0),
        })?;
    }
    Route::make(alloc, &Kind::Route { table })
}

/// Flows over four services.
pub fn balance(alloc: Global) -> Result<Route, NoMemory> {
    let services = ListOf::from_slice(alloc, &[1, 2, 3, 4])?;
    Route::make(alloc, &Kind::Balance { services })
}

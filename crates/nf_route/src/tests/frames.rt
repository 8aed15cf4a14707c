//! Frames to test with, and functions to send them through.

use crate::Route;
use onvm_base::{Kind, ListOf, NoMemory, RouteEntry, RouteList};
use std::alloc::Global;

/// Sixteen bytes with no network head. Its flow hash is 84696351.
pub const SHORT: [u8; 16] = [2, 0, 0, 0, 0, 1, 2, 0, 0, 0, 0, 2, 0x88, 0xb5, 1, 2];

/// UDP over IPv4, from 10.0.0.14 port 10014 to 10.1.0.1 port 9: all but the payload. Its flow hash
/// is 771728794.
pub const UDP: [u8; 42] = [
    2, 0, 0, 0, 0, 1, 2, 0, 0, 0, 0, 2, 8, 0, // Ethernet
    0x45, 0, 3, 0x9e, 0, 1, 0, 0, 0x40, 0x11, 0x63, 0x3f, 10, 0, 0, 14, 10, 1, 0, 1, // IPv4
    0x27, 0x1e, 0, 9, 3, 0x8a, 0, 0, // UDP
];

/// The function of the kind that routes by these entries.
pub fn route_of(alloc: Global, entries: &[RouteEntry]) -> Result<Route, NoMemory> {
    let table = list_of(alloc, entries)?;
    Route::make(alloc, &Kind::Route { table })
}

/// These entries, as a chain file has them.
pub fn list_of(alloc: Global, entries: &[RouteEntry]) -> Result<RouteList, NoMemory> {
    ListOf::from_slice(alloc, entries)
}

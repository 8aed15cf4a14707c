//! A capture of small frames.

use onvm_base::{ListOf, NoMemory, Text};
use onvm_host::{Host, MemFile, MemFiles, MemHost, MemInput, have_distinct_names};
use std::alloc::Global;

const HEADER: [u8; 24] = [
    0x4d, 0x3c, 0xb2, 0xa1, 2, 0, 4, 0, 0, 0, 0, 0, 0, 0, 0, 0, 0, 0, 4, 0, 1, 0, 0, 0,
];

// The head of a record of 60 bytes, and of such a frame: heads of Ethernet II, IPv4 and UDP, and 18
// bytes behind them. Byte 45 is the last one of the source's address, and byte 51 of its port.
const RECORD: [u8; 76] = [
    1, 0, 0, 0, 2, 0, 0, 0, 60, 0, 0, 0, 60, 0, 0, 0, // the record's head
    2, 0, 0, 0, 0, 1, 2, 0, 0, 0, 0, 2, 8, 0, // from byte 16
    0x45, 0, 0, 46, 0, 0, 0, 0, 64, 17, 0, 0, 10, 0, 0, 0, 10, 1, 0, 1, // from byte 30
    0x27, 0x10, 0, 9, 0, 26, 0, 0, // from byte 50
    0, 0, 0, 0, 0, 0, 0, 0, 0, 0, 0, 0, 0, 0, 0, 0, 0, 0,
];

/// A host that has a capture of so many frames of 60 bytes, of sixteen flows in turn.
pub fn host_of(alloc: Global, frames: u32) -> Result<MemHost, NoMemory> {
    let mut bytes = Vec::from_slice(alloc, &HEADER)?;
    let mut record = RECORD;
    for number in 0..frames {
        let flow = (number % 16) as u8;
        record[45] = flow;
        record[51] = 0x10 + flow;
        bytes.extend_from_slice(&record)?;
    }
    let mut files = MemFiles::make(alloc);
    files.push(MemFile {
        name: Text::from_slice(alloc, b"k")?,
        bytes: Text::from_vec(bytes),
        fail: ListOf::make(alloc),
        piece: 0,
    })?;
    if !have_distinct_names(&files) {
        return Err(NoMemory);
    }
    MemHost::make(alloc, files, ListOf::make(alloc), 0)
}

/// The capture of the host, from its begin.
pub fn open(host: &mut MemHost) -> Result<MemInput, NoMemory> {
    match host.open_input("k") {
        Ok(input) => Ok(input),
        Err(_) => Err(NoMemory),
    }
}

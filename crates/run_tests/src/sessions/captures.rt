//! Captures in memory.
ghost use Rattle.std.specs.Prelude.{IfOk, Some};
ghost use Rattle.rx_feed.specs.Feeds.{IsFreshFeed};

use onvm_base::{ListOf, NoMemory, Text};
use onvm_host::{Host, HostFault, MemFile, MemFiles, MemHost, MemInput, have_distinct_names};
use rx_feed::Feed;
use std::alloc::Global;
use std::test::Fail;

/// A frame of 16 bytes.
pub const FRAME: [u8; 16] = [2, 0, 0, 0, 0, 1, 2, 0, 0, 0, 0, 2, 0x88, 0xb5, 1, 2];

/// The same, but of type 2048.
pub const OTHER: [u8; 16] = [2, 0, 0, 0, 0, 1, 2, 0, 0, 0, 0, 2, 0x08, 0x00, 1, 2];

const HEADER: [u8; 24] = [
    0xd4, 0xc3, 0xb2, 0xa1, 2, 0, 4, 0, 0, 0, 0, 0, 0, 0, 0, 0, 0, 0, 4, 0, 1, 0, 0, 0,
];

// Second 1, microsecond 2, and 16 bytes.
const HEAD: [u8; 16] = [1, 0, 0, 0, 2, 0, 0, 0, 16, 0, 0, 0, 16, 0, 0, 0];

/// The bytes of a capture of these frames.
pub fn capture(alloc: Global, frames: &[[u8; 16]]) -> Result<Vec<u8>, NoMemory> {
    let mut bytes = Vec::from_slice(alloc, &HEADER)?;
    for frame in frames {
        bytes.extend_from_slice(&HEAD)?;
        bytes.extend_from_slice(frame)?;
    }
    Ok(bytes)
}

/// The same without the last byte.
pub fn cut(alloc: Global, frames: &[[u8; 16]]) -> Result<Vec<u8>, NoMemory> {
    let mut bytes = capture(alloc, frames)?;
    bytes.pop();
    Ok(bytes)
}

/// A feed of these bytes. Those of its takes fail whose numbers, from 1, are listed.
pub fn feed_of(alloc: Global, bytes: &[u8], fail: &[u64]) -> Result<Feed<MemInput>, Fail>
    ensures fresh { IfOk result (λ feed. IsFreshFeed (Some feed)) }
{
    let mut files = MemFiles::make(alloc);
    files.push(MemFile {
        name: Text::from_slice(alloc, b"k")?,
        bytes: Text::from_slice(alloc, bytes)?,
        fail: ListOf::from_slice(alloc, fail)?,
        piece: 0,
    })?;
    if !have_distinct_names(&files) {
        return Err(Fail::from("two files of one name"));
    }
    let mut host = MemHost::make(alloc, files, ListOf::make(alloc), 0)?;
    match host.open_input("k") {
        Ok(input) => Ok(Feed::Live(input)),
        Err(HostFault::Failed) => Err(Fail::from("no file")),
        Err(HostFault::Memory) => Err(Fail::from("memory")),
    }
}

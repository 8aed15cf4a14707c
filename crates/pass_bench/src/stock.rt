//! Frames that receive passes bring in.
ghost use Rattle.std.specs.Prelude.{◌≡◌, ◌≤◌, IfOk, Some};
ghost use Rattle.onvm_base.specs.declared.limits.TheConstants.{MAX_PORT_FRAMES};
ghost use Rattle.rx_feed.specs.Feeds.{IsFreshFeed};

use onvm_base::{ListOf, NoMemory, Text};
use onvm_host::{Host, MemFile, MemFiles, MemHost, MemInput, have_distinct_names};
use pcap_in::{frame_head, header};
use rx_feed::{Feed, Generator};
use std::alloc::Global;

const SEED: u64 = 7;

const NAME: &str = "frames";

// A capture of so many frames.
fn capture(alloc: Global, frames: u32) -> Result<Text, NoMemory>
    requires few { frames ≤ MAX_PORT_FRAMES }
{
    let mut bytes = Vec::from_slice(alloc, &header())?;
    let mut generator = Generator::make(SEED, frames);
    for _ in 0..frames {
        let Some(frame) = generator.next(alloc)? else {
            break;
        };
        let packet = frame.packet.bytes();
        bytes.extend_from_slice(&frame_head(&frame.stamp, packet.len() as u32))?;
        bytes.extend_from_slice(packet)?;
    }
    Ok(Text::from_vec(bytes))
}

/// Where frames come from.
#[derive(Clone, Copy, Debug)]
pub enum Origin {
    Captured,
    Made,
}

/// Frames that are made of a seed, and a file in memory that has a capture of them.
#[derive(Drop)]
pub struct Stock {
    host: MemHost,
    frames: u32,
}

impl Stock {
    pub fn make(alloc: Global, frames: u32) -> Result<Stock, NoMemory>
        requires few { frames ≤ MAX_PORT_FRAMES }
        ensures few { IfOk result (λ stock. stock.frames ≤ MAX_PORT_FRAMES) }
    {
        let mut files = MemFiles::make(alloc);
        files.push(MemFile {
            name: Text::from_slice(alloc, NAME.as_bytes())?,
            bytes: capture(alloc, frames)?,
            fail: ListOf::make(alloc),
            piece: 0,
        })?;
        if !have_distinct_names(&files) {
            return Err(NoMemory);
        }
        let host = MemHost::make(alloc, files, ListOf::make(alloc), 0)?;
        Ok(Stock { host, frames })
    }

    /// A feed of all its frames.
    pub fn feed(&mut self, origin: Origin) -> Result<Feed<MemInput>, NoMemory>
        requires few { self.old.frames ≤ MAX_PORT_FRAMES }
        ensures fresh { IfOk result (λ feed. IsFreshFeed (Some feed)) }
        ensures same { self.new.frames ≡ self.old.frames }
    {
        match origin {
            Origin::Captured => match self.host.open_input(NAME) {
                Ok(input) => Ok(Feed::Live(input)),
                Err(_) => Err(NoMemory),
            },
            Origin::Made => Ok(Feed::Made(Generator::make(SEED, self.frames))),
        }
    }
}

//! The rings of a layout: who pushes, who pops, how many items fit.
ghost use Rattle.std.specs.Prelude.{◌≡◌, ◌<◌, ◌↔◌, IsTrue};
ghost use Rattle.onvm_core.specs.Layouts.{IsLayout, IsRing, consumer, core_role, producer, ring_size, tick_role};

use crate::layout::Layout;
use onvm_base::{FnId, MAIL_RING, RingId};

pub fn is_ring(layout: &Layout, ring: RingId) -> bool
    ensures { IsTrue result ↔ IsRing layout.now ring }
{
    match ring {
        RingId::Lane(f, feeder) => f.0 < layout.functions
            && (feeder as u16) < layout.ports as u16 + layout.transmit as u16,
        RingId::Output(f) => f.0 < layout.functions,
        RingId::Mail(f) => f.0 < layout.functions,
    }
}

pub fn ring_size(layout: &Layout, ring: RingId) -> u16
    ensures { result ≡ ring_size layout.now ring }
{
    match ring {
        RingId::Lane(_, _) => layout.ring,
        RingId::Output(_) => layout.output,
        RingId::Mail(_) => MAIL_RING,
    }
}

fn core_role(layout: &Layout, f: FnId) -> u32
    requires ranges { IsLayout layout.now }
    requires known { f.0 < layout.now.functions }
    ensures { result ≡ core_role layout.now f.0 }
{
    let core = layout.core_of[f.0 as usize];
    layout.ports as u32 + layout.transmit as u32 + core as u32
}

pub fn tick_role(layout: &Layout) -> u32
    ensures { result ≡ tick_role layout.now }
{
    layout.ports as u32 + layout.transmit as u32 + layout.cores as u32
}

// The role that pushes on the ring.
pub fn producer(layout: &Layout, ring: RingId) -> u32
    requires ranges { IsLayout layout.now }
    requires known { IsRing layout.now ring }
    ensures { result ≡ producer layout.now ring }
{
    match ring {
        RingId::Lane(_, feeder) => feeder as u32,
        RingId::Output(f) => core_role(layout, f),
        RingId::Mail(f) => core_role(layout, f),
    }
}

// The role that pops from the ring.
pub fn consumer(layout: &Layout, ring: RingId) -> u32
    requires ranges { IsLayout layout.now }
    requires known { IsRing layout.now ring }
    ensures { result ≡ consumer layout.now ring }
{
    match ring {
        RingId::Lane(f, _) => core_role(layout, f),
        RingId::Output(f) => layout.ports as u32 + f.0 as u32 % layout.transmit as u32,
        RingId::Mail(_) => tick_role(layout),
    }
}

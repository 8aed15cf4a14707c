//! A frame on its way.
ghost use Rattle.std.specs.Prelude.{◌≡◌, ◌<◌, ◌≤◌, [], ◌∷◌, ◌++◌, length, slice_get};
ghost use Rattle.onvm_base.specs.declared.limits.TheConstants.{MAX_HOPS};

use onvm_base::{ChainId, FnId, FrameId, MAX_HOPS, Packet, Stamp, Verdict};
use std::marker::Model;

/// The largest place that a crumb names; a journal that is longer doesn't stop its function.
pub const MAX_PLACE: u32 = 4_294_967_295;

/// That a function handled the frame.
#[derive(Clone, Copy, Debug, PartialEq, Eq)]
pub struct Crumb {
    /// How many entries the function's journal had before, at most [`MAX_PLACE`].
    pub place: u32,
    pub function: FnId,
    pub verdict: Verdict,
}

/// The crumbs of a frame, the oldest first. There are at most [`MAX_HOPS`], and they take no memory.
#[derive(Debug, Drop)]
pub struct Trail {
    len: u8,
    crumbs: [Crumb; MAX_HOPS as usize],
}

impl Model for Trail {
    ghost use Rattle.std.specs.Prelude.{List, take, ◌≤◌, ◌≡◌, length};
    ghost use Rattle.onvm_base.specs.declared.limits.TheConstants.{MAX_HOPS};
    ghost use Rattle.onvm_core.specs.declared.parcel.Crumb.{Crumb};

    ghost Value = { List Crumb };

    ghost view = { λ trail. take trail.len trail.crumbs };

    ghost invariant = { λ trail. (trail.len ≤ MAX_HOPS) × (length trail.crumbs ≡ MAX_HOPS) };
}

impl Trail {
    /// No crumb.
    pub fn none() -> Trail
        ensures { result ≡ [] }
    {
        let crumb = Crumb {
            function: FnId(0),
            place: 0,
            verdict: Verdict::Drop,
        };
        Trail {
            crumbs: [crumb; MAX_HOPS as usize],
            len: 0,
        }
    }

    /// How many crumbs there are: the frame's hops.
    pub fn len(&self) -> u8
        ensures length { result ≡ length self.now }
        ensures limit { result ≤ MAX_HOPS }
    {
        self.len
    }

    /// The crumb at a place, from 0.
    pub fn get(&self, at: u8) -> Crumb
        requires { at < length self.now }
        ensures { slice_get self.now at ≡ Some result }
    {
        self.crumbs[at as usize]
    }

    /// Appends a crumb.
    pub fn add(&mut self, crumb: Crumb)
        requires { length self.old < MAX_HOPS }
        ensures { self.new ≡ self.old ++ crumb ∷ [] }
    {
        self.crumbs[self.len as usize] = crumb;
        self.len += 1;
    }
}

/// A frame on its way through its chain.
#[derive(Debug, Drop)]
pub struct Parcel {
    pub frame: FrameId,
    pub stamp: Stamp,
    /// The flow hash at entry.
    pub hash: u32,
    pub packet: Packet,
    pub chain: ChainId,
    /// The place in the chain's steps.
    pub cursor: u8,
    pub trail: Trail,
}

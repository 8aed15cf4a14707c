//! The bytes of a frame.
ghost use Rattle.std.specs.Prelude.{◌≡◌, ◌<◌, ◌≤◌, ◌+◌, ◌-◌, ◌++◌, length, take, drop, slice_set, IfOk, IsOk, OnOk, OnErr};

use crate::limits::MAX_FRAME_BYTES;
use crate::refusal::NoMemory;
use std::alloc::Global;
use std::marker::Model;

/// A frame's bytes, at most [`MAX_FRAME_BYTES`].
#[derive(Debug, Drop)]
pub struct Packet {
    bytes: Vec<u8>,
}

impl Model for Packet {
    ghost use Rattle.std.specs.Prelude.{List, ℕ, length, ◌≤◌};
    ghost use Rattle.onvm_base.specs.declared.limits.TheConstants.{MAX_FRAME_BYTES};

    ghost Value = { List ℕ };

    ghost view = { λ p. p.bytes.items };

    ghost invariant = { λ p. length p.bytes.items ≤ MAX_FRAME_BYTES };
}

impl Packet {
    /// A packet of these bytes.
    pub fn from_slice(alloc: Global, bytes: &[u8]) -> Result<Packet, NoMemory>
        requires { length bytes.now ≤ MAX_FRAME_BYTES }
        ensures { IfOk result (λ p. p ≡ bytes.now) }
    {
        let bytes = Vec::from_slice(alloc, bytes)?;
        Ok(Packet { bytes })
    }

    /// Its bytes.
    pub fn bytes(&self) -> &[u8]
        ensures same { result.now ≡ self.now }
        ensures limit { length self.now ≤ MAX_FRAME_BYTES }
    {
        &self.bytes
    }

    /// Puts other bytes in the place of those from `from` up to `upto`. A packet that grows takes
    /// just the room that it needs.
    pub fn replace(&mut self, from: usize, upto: usize, with: &[u8]) -> Result<(), NoMemory>
        requires start { from ≤ upto }
        requires within { upto ≤ length self.old }
        requires limit { from + length with.now + (length self.old - upto) ≤ MAX_FRAME_BYTES }
        ensures ok { OnOk result (self.new ≡ take from self.old ++ with.now ++ drop upto self.old) }
        ensures err { OnErr result (self.new ≡ self.old) }

        // A packet that doesn't grow needs no memory.
        ensures shrinks { length with.now ≤ upto - from → IsOk result }
    {
        let len = self.bytes.len();
        let growth = with.len().saturating_sub(upto - from);
        self.bytes.reserve_exact(growth)?;
        // Only the length counts here: what stands behind the part moves over these bytes.
        self.bytes.extend_from_slice(&with[..growth])?;
        self.bytes.copy_within(upto..len, from + with.len());
        overwrite(&mut self.bytes, from, with);
        self.bytes.truncate(len - (upto - from) + with.len());
        Ok(())
    }

    /// Takes the bytes from `from` up to `upto` out. It takes no memory.
    pub fn remove(&mut self, from: usize, upto: usize)
        requires start { from ≤ upto }
        requires within { upto ≤ length self.old }
        ensures { self.new ≡ take from self.old ++ drop upto self.old }
    {
        let len = self.bytes.len();
        self.bytes.copy_within(upto..len, from);
        self.bytes.truncate(len - (upto - from));
    }

    /// Writes bytes over those from `at` on.
    pub fn overwrite(&mut self, at: usize, over: &[u8])
        requires { at + length over.now ≤ length self.old }
        ensures { self.new ≡ take at self.old ++ (over.now ++ drop (at + length over.now) self.old) }
    {
        overwrite(&mut self.bytes, at, over);
    }

    /// Writes one byte.
    pub fn set(&mut self, at: usize, byte: u8)
        requires { at < length self.old }
        ensures { self.new ≡ slice_set self.old at byte }
    {
        self.bytes[at] = byte;
    }
}

// Writes bytes over those from `at` on.
fn overwrite(bytes: &mut [u8], at: usize, over: &[u8])
    requires { at + length over.now ≤ length bytes.old }
    ensures { bytes.new ≡ take at bytes.old ++ (over.now ++ drop (at + length over.now) bytes.old) }
{
    bytes[at..at + over.len()].copy_from_slice(over);
}

//! Bytes in a space that was taken for them.
ghost use Rattle.std.specs.Prelude.{◌≡◌, ◌↔◌, ◌≤◌, ◌<◌, ◌-◌, ◌++◌, [], take, length, min};
ghost use Rattle.std.specs.Prelude.{Some, IfOk, IsErr, vec_len, vec_capacity};
ghost use Rattle.std.specs.Io.KnownBytes.{WriteAppends};
ghost use Rattle.onvm_host.specs.Pieces as Pieces;
ghost use Rattle.onvm_host.specs.Tally.{counted, Refuses};

use crate::memory::file::at_most;
use crate::memory::tally::Tally;
use onvm_base::{Failed, ListOf, NoMemory, Text};
use std::alloc::Global;

/// Bytes, at most `space` of them. To append takes no memory.
#[derive(Drop)]
pub(super) struct Room {
    bytes: Vec<u8>,
    space: usize,
    ghost taken: { space ≤ vec_capacity bytes },
}

impl Room {
    pub(super) fn make(alloc: Global, space: u64) -> Result<Room, NoMemory>
        ensures empty { IfOk result (λ room. room.bytes.items ≡ []) }
        ensures space { IfOk result (λ room. room.space ≡ space) }
    {
        let space = space as usize;
        let bytes = Vec::with_capacity(alloc, space)?;
        Ok(Room { bytes, space })
    }

    pub(super) fn as_slice(&self) -> &[u8]
        ensures { result.now ≡ self.now.bytes.items }
    {
        self.bytes.as_slice()
    }

    pub(super) fn into_text(self) -> Text
        ensures { result ≡ self.bytes.items }
    {
        ListOf::from_vec(self.bytes)
    }

    /// Appends what fits of a piece, at most `most` bytes where that is not 0, and answers how much
    /// it was.
    fn append(&mut self, piece: &[u8], most: u32) -> usize
        ensures count { result ≡ Pieces.at_most most
            (min (length piece.now) (self.old.space - vec_len self.old.bytes)) }
        ensures bytes { self.new.bytes.items ≡ self.old.bytes.items ++ take result piece.now }
        ensures space { self.new.space ≡ self.old.space }
    {
        let free = self.space.saturating_sub(self.bytes.len());
        let count = at_most(most, piece.len().min(free));
        let _ = self.bytes.extend_from_slice(&piece[..count]);
        count
    }

    /// Appends as much, as a call of the tally. Where nothing fits it fails.
    pub(super) fn place(
        &mut self,
        piece: &[u8],
        most: u32,
        tally: &mut Tally,
    ) -> Result<usize, Failed>
        ensures count { IfOk result (λ n. n ≡ Pieces.at_most most
            (min (length piece.now) (self.old.space - vec_len self.old.bytes))) }
        ensures some { IfOk result (λ n. 0 < length piece.now → 0 < n) }
        ensures bytes { WriteAppends (Some self.old.bytes.items) (Some self.new.bytes.items)
            result piece.now }
        ensures space { self.new.space ≡ self.old.space }
        ensures counted { tally.new ≡ counted tally.old }
        ensures refused { IsErr result
            ↔ Refuses tally.old (self.old.space - vec_len self.old.bytes) piece.now }
    {
        tally.call()?;
        let count = self.append(piece, most);
        if count == 0 && !piece.is_empty() {
            return Err(Failed);
        }
        Ok(count)
    }
}

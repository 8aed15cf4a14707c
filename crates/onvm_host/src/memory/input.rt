//! What is taken of a file in memory.
ghost use Rattle.std.specs.Prelude.{◌≡◌, ◌≤◌, ◌-◌, ◌∷◌, ◌++◌, [], Some, IfOk, drop, is_err, length, min, take, vec_len};
ghost use Rattle.std.specs.Io.{ReadsAtMost};
ghost use Rattle.std.specs.Io.KnownBytes.{ReadConsumes};
ghost use Rattle.std.specs.Result.{result_ok};
ghost use Rattle.onvm_host.specs.Pieces as Pieces;
ghost use Rattle.onvm_host.specs.Story.{amounts_of};
ghost use Rattle.onvm_host.specs.Tally.{counted, fails_next, fresh};

use crate::memory::file::{Calls, at_most};
use crate::memory::tally::Tally;
use crate::story::Amounts;
use crate::traits::Source;
use onvm_base::{Failed, Name};

/// Gives the bytes of a file.
#[derive(Drop)]
pub struct MemInput {
    pub(super) name: Name,
    bytes: Vec<u8>,
    // How many of the bytes were given.
    at: usize,
    tally: Tally,
    pub(super) takes: Amounts,
    // At most so many bytes a take gives, or 0 where all that it can.
    piece: u32,
    ghost within: { at ≤ vec_len bytes },
}

impl MemInput {
    pub(super) fn make(name: Name, bytes: Vec<u8>, fail: Calls, piece: u32) -> MemInput
        ensures left { ⟦<MemInput as Source>⟧.left result ≡ Some bytes.items }
        ensures named { result.name ≡ name }
        ensures fresh { result.takes ≡ Amounts.None }
        ensures numbers { result.tally ≡ fresh fail }
        ensures piece { result.piece ≡ piece }
    {
        MemInput {
            name,
            bytes,
            at: 0,
            tally: Tally::make(fail),
            takes: Amounts::None,
            piece,
        }
    }

    // Takes, and remembers nothing.
    fn read(&mut self, into: &mut [u8]) -> Result<usize, Failed>
        ensures bound { ReadsAtMost result into.new }
        ensures bytes { ReadConsumes (Some (drop self.old.at self.old.bytes.items))
            (Some (drop self.new.at self.new.bytes.items)) result into.new }
        ensures named { self.new.name ≡ self.old.name }
        ensures takes { self.new.takes ≡ self.old.takes }
        ensures listed { is_err result ≡ fails_next self.old.tally }
        ensures count { IfOk result (λ n. n ≡ Pieces.at_most self.old.piece
            (min (vec_len self.old.bytes - self.old.at) (length into.new))) }
        ensures counted { self.new.tally ≡ counted self.old.tally }
        ensures piece { self.new.piece ≡ self.old.piece }
    {
        self.tally.call()?;
        let count = copy_front(into, &self.bytes[self.at..], self.piece);
        self.at += count;
        Ok(count)
    }
}

// Copies the first bytes to the front of `into`, at most a piece of them where that is not 0, and
// answers how many it copied.
fn copy_front(into: &mut [u8], bytes: &[u8], piece: u32) -> usize
    ensures count { result ≡ Pieces.at_most piece (min (length bytes.now) (length into.old)) }
    ensures copied { take result into.new ≡ take result bytes.now }
    ensures len { length into.new ≡ length into.old }
{
    let count = at_most(piece, bytes.len().min(into.len()));
    into[..count].copy_from_slice(&bytes[..count]);
    count
}

impl Source for MemInput {
    ghost left = { λ input. Some (drop input.at input.bytes.items) };

    ghost name = { λ input. input.name };

    ghost takes = { λ input. amounts_of input.takes };

    // The first four clauses are the trait's. The others say which takes fail, and how much one gives.
    fn take(&mut self, into: &mut [u8]) -> Result<usize, Failed>
        ensures bound { ReadsAtMost result into.new }
        ensures bytes { ReadConsumes (Some (drop self.old.at self.old.bytes.items))
            (Some (drop self.new.at self.new.bytes.items)) result into.new }
        ensures named { self.new.name ≡ self.old.name }
        ensures told { amounts_of self.new.takes ≡ amounts_of self.old.takes ++ result_ok result ∷ [] }
        ensures listed { is_err result ≡ fails_next self.old.tally }
        ensures count { IfOk result (λ n. n ≡ Pieces.at_most self.old.piece
            (min (vec_len self.old.bytes - self.old.at) (length into.new))) }
        ensures counted { self.new.tally ≡ counted self.old.tally }
        ensures piece { self.new.piece ≡ self.old.piece }
    {
        let answer = self.read(into);
        self.takes.add(answer)
    }
}

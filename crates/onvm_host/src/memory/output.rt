//! What is put into a file in memory.
ghost use Rattle.std.specs.Prelude.{◌≡◌, ◌↔◌, ◌<◌, ◌∷◌, ◌++◌, [], Some, IfOk, IsErr, length, min};
ghost use Rattle.std.specs.Io.{WritesAtMost};
ghost use Rattle.std.specs.Io.KnownBytes.{WriteAppends};
ghost use Rattle.std.specs.Result.{result_ok};
ghost use Rattle.onvm_host.specs.Memory.{space_left};
ghost use Rattle.onvm_host.specs.Pieces.{at_most};
ghost use Rattle.onvm_host.specs.Story.{amounts_of};
ghost use Rattle.onvm_host.specs.Tally.{counted, Refuses};

use crate::memory::room::Room;
use crate::memory::tally::Tally;
use crate::memory::written::Written;
use crate::story::Amounts;
use crate::traits::Sink;
use onvm_base::{Failed, Name};

/// Holds the bytes of a file to be, and the node that will take them into the files.
#[derive(Drop)]
pub struct MemOutput {
    pub(super) name: Name,
    pub(super) bytes: Room,
    pub(super) tally: Tally,
    pub(super) node: Box<Written>,
    pub(super) puts: Amounts,
    // At most so many bytes a put takes, or 0 where all that fit.
    pub(super) piece: u32,
}

impl Sink for MemOutput {
    ghost held = { λ output. Some output.bytes.bytes.items };

    ghost name = { λ output. output.name };

    ghost puts = { λ output. amounts_of output.puts };

    // The first five clauses are the trait's. The others say which puts fail, and how much one takes.
    fn put(&mut self, piece: &[u8]) -> Result<usize, Failed>
        ensures bound { WritesAtMost result piece.now }
        ensures some { IfOk result (λ n. 0 < length piece.now → 0 < n) }
        ensures bytes { WriteAppends (Some self.old.bytes.bytes.items)
            (Some self.new.bytes.bytes.items) result piece.now }
        ensures named { self.new.name ≡ self.old.name }
        ensures told { amounts_of self.new.puts ≡ amounts_of self.old.puts ++ result_ok result ∷ [] }
        ensures refused { IsErr result
            ↔ Refuses self.old.tally (space_left self.old.bytes) piece.now }
        ensures count { IfOk result (λ n.
            n ≡ at_most self.old.piece (min (length piece.now) (space_left self.old.bytes))) }
        ensures counted { self.new.tally ≡ counted self.old.tally }
        ensures space { self.new.bytes.space ≡ self.old.bytes.space }
        ensures piece { self.new.piece ≡ self.old.piece }
    {
        let answer = self.bytes.place(piece, self.piece, &mut self.tally);
        self.puts.add(answer)
    }
}

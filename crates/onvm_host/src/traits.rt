//! Bytes that come and go, files, and what is said.
ghost use Rattle.std.specs.Prelude.{◌≡◌, ◌<◌, ◌∷◌, ◌++◌, List, [], ℕ, length, IfOk, IsSome, OnErr, Option, option_map, Some};
ghost use Rattle.std.specs.Io.{ReadsAtMost, WritesAtMost};
ghost use Rattle.std.specs.Io.KnownBytes.{ReadConsumes, WriteAppends};
ghost use Rattle.std.specs.Result.{result_ok};
ghost use Rattle.onvm_host.specs.Deeds.{Amounts, Deed, Opened, OpenFailed, Shut, Created, CreateFailed, Said, kept_or_failed, made_or_failed};
ghost use Rattle.onvm_host.specs.Files.{Entries, kept_files, Opens, put_file};
ghost use Rattle.onvm_host.specs.Names.{SameNames};

use crate::fault::HostFault;
use onvm_base::Failed;

/// Bytes that come in.
pub trait Source {
    /// The bytes that are left, where the source tells them.
    ghost left: { Self → Option (List ℕ) };

    /// The name of the file that it reads.
    ghost name: { Self → List ℕ };

    /// What each take gave, in order.
    ghost takes: { Self → Amounts };

    /// Moves the next bytes to the front of `into`: none only at the end, or for an empty `into`.
    fn take(&mut self, into: &mut [u8]) -> Result<usize, Failed>
        ensures bound { ReadsAtMost result into.new }
        ensures bytes { ReadConsumes (left self.old) (left self.new) result into.new }
        ensures named { name self.new ≡ name self.old }
        ensures told { takes self.new ≡ takes self.old ++ result_ok result ∷ [] };
}

/// Bytes that go out.
pub trait Sink {
    /// The bytes that it holds, where it tells them.
    ghost held: { Self → Option (List ℕ) };

    /// The name of the file that it becomes.
    ghost name: { Self → List ℕ };

    /// What each put took, in order.
    ghost puts: { Self → Amounts };

    /// Appends the first bytes of the piece, at least one of a piece that is not empty.
    fn put(&mut self, piece: &[u8]) -> Result<usize, Failed>
        ensures bound { WritesAtMost result piece.now }
        ensures some { IfOk result (λ n. 0 < length piece.now → 0 < n) }
        ensures bytes { WriteAppends (held self.old) (held self.new) result piece.now }
        ensures named { name self.new ≡ name self.old }
        ensures told { puts self.new ≡ puts self.old ++ result_ok result ∷ [] };
}

/// Files and a place to say things.
pub trait Host {
    type Input: Source + Send + Drop;

    type Output: Sink + Drop;

    /// The files, where the host tells them.
    ghost files: { Self → Option Entries };

    /// What was said, where the host tells it.
    ghost said: { Self → Option (List ℕ) };

    /// Its calls, in order. Which of them are faults is told by `is_fault`.
    ghost deeds: { Self → List Deed };

    /// Which names may be opened.
    ghost may_open: { Self → List ℕ → Type 0 };

    /// Which names may be created.
    ghost may_create: { Self → List ℕ → Type 0 };

    /// Opens a file. A name without one is a fault.
    fn open_input(&mut self, name: &str) -> Result<Self::Input, HostFault>
        requires { may_open self.old name.now }
        ensures left { IfOk result (λ input. Opens (files self.old) name.now (Self.Input.left input)) }
        ensures named { IfOk result (λ input. Self.Input.name input ≡ name.now) }
        ensures fresh { IfOk result (λ input. Self.Input.takes input ≡ []) }
        ensures files { files self.new ≡ files self.old }
        ensures said { said self.new ≡ said self.old }
        ensures names { SameNames (may_open self.old) (may_create self.old) (may_open self.new) (may_create self.new) }
        ensures told { deeds self.new ≡ deeds self.old ++ made_or_failed (Opened name.now) (OpenFailed name.now) result };

    /// Begins an output, which holds nothing. A host that tells its files has an empty one under the
    /// name from here on. Another may leave what is there until the output is kept.
    fn create_output(&mut self, name: &str) -> Result<Self::Output, HostFault>
        requires { may_create self.old name.now }
        ensures made { IfOk result (λ _. files self.new ≡ option_map (put_file name.now []) (files self.old)) }
        ensures empty { IfOk result (λ output. IsSome (files self.old) → Self.Output.held output ≡ Some []) }
        ensures named { IfOk result (λ output. Self.Output.name output ≡ name.now) }
        ensures fresh { IfOk result (λ output. Self.Output.puts output ≡ []) }
        ensures err { OnErr result (files self.new ≡ files self.old) }
        ensures said { said self.new ≡ said self.old }
        ensures names { SameNames (may_open self.old) (may_create self.old) (may_open self.new) (may_create self.new) }
        ensures told { deeds self.new ≡ deeds self.old ++ made_or_failed (Created name.now) (CreateFailed name.now) result };

    /// Ends an input. A failed take is a fault of this call.
    fn shut(&mut self, input: Self::Input)
        ensures files { files self.new ≡ files self.old }
        ensures said { said self.new ≡ said self.old }
        ensures names { SameNames (may_open self.old) (may_create self.old) (may_open self.new) (may_create self.new) }
        ensures told { deeds self.new ≡ deeds self.old ++ Shut (Self.Input.name input) (Self.Input.takes input) ∷ [] };

    /// Gives the output's name to what it holds. A host that tells its files does so also where it
    /// answers Failed. Another may then leave what was under the name before, and it may answer
    /// Failed because a put did. A failed put is a fault of this call too, whatever it answers.
    fn keep(&mut self, output: Self::Output) -> Result<(), Failed>
        ensures files { files self.new ≡ kept_files (Self.Output.name output) (Self.Output.held output) (files self.old) }
        ensures said { said self.new ≡ said self.old }
        ensures names { SameNames (may_open self.old) (may_create self.old) (may_open self.new) (may_create self.new) }
        ensures told { deeds self.new ≡ deeds self.old ++ kept_or_failed (Self.Output.name output) (Self.Output.puts output) result ∷ [] };

    /// Says the first bytes of the piece, at least one of a piece that is not empty.
    fn say(&mut self, piece: &[u8]) -> Result<usize, Failed>
        ensures bound { WritesAtMost result piece.now }
        ensures some { IfOk result (λ n. 0 < length piece.now → 0 < n) }
        ensures bytes { WriteAppends (said self.old) (said self.new) result piece.now }
        ensures files { files self.new ≡ files self.old }
        ensures names { SameNames (may_open self.old) (may_create self.old) (may_open self.new) (may_create self.new) }
        ensures told { deeds self.new ≡ deeds self.old ++ Said (result_ok result) ∷ [] };
}

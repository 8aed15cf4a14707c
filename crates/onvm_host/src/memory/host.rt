//! The host in memory.
ghost use Rattle.std.specs.Prelude.{◌≡◌, ◌↔◌, ◌⊎◌, ◌<◌, ◌∷◌, ◌++◌, ⊤, [], None, Some, Err, IfOk, IsErr, IsTrue, OnErr, is_err, length, min, option_copied};
ghost use Rattle.std.specs.Io.{WritesAtMost};
ghost use Rattle.std.specs.Io.KnownBytes.{WriteAppends};
ghost use Rattle.std.specs.Result.{result_ok};
ghost use Rattle.onvm_host.specs.Deeds.{Created, CreateFailed, Opened, OpenFailed, Said, Shut, kept_or_failed, made_or_failed};
ghost use Rattle.onvm_host.specs.Files.{file_of, Opens, put_file};
ghost use Rattle.onvm_host.specs.Given.{fails_of, given_entries, HaveDistinctNames, piece_of};
ghost use Rattle.onvm_host.specs.Memory.{entries_of, SameSetUp, space_left};
ghost use Rattle.onvm_host.specs.Story.{amounts_of, deeds_of};
ghost use Rattle.onvm_host.specs.Tally.{counted, fails_next, fresh, Refuses};

use crate::fault::HostFault;
use crate::memory::file::{Calls, MemFiles, find_bytes, find_file};
use crate::memory::input::MemInput;
use crate::memory::output::MemOutput;
use crate::memory::room::Room;
use crate::memory::tally::Tally;
use crate::memory::written::Written;
use crate::name::copy_of;
use crate::story::{Amounts, Story};
use crate::traits::{Host, Source};
use onvm_base::{Failed, ListOf, NoMemory};
use std::alloc::Global;

/// A host whose files lie in memory. Those of its calls of `open_input`, `create_output`, `keep`
/// and `say` fail whose numbers, from 1, are listed.
#[derive(Drop)]
pub struct MemHost {
    alloc: Global,
    given: MemFiles,
    written: Written,
    said: Room,
    space: u64,
    // Counts the calls that may fail.
    tally: Tally,
    story: Story,
}

impl MemHost {
    /// A host of these files. What is said may have `space` bytes, and so may each output.
    pub fn make(
        alloc: Global,
        files: MemFiles,
        fail: Calls,
        space: u64,
    ) -> Result<MemHost, NoMemory>
        requires { HaveDistinctNames files }
        ensures files { IfOk result (λ host.
            ⟦<MemHost as Host>⟧.files host ≡ Some (given_entries files)) }
        ensures said { IfOk result (λ host. ⟦<MemHost as Host>⟧.said host ≡ Some []) }
        ensures fresh { IfOk result (λ host. ⟦<MemHost as Host>⟧.deeds host ≡ []) }
        ensures given { IfOk result (λ host. host.given ≡ files) }
        ensures numbers { IfOk result (λ host. host.tally ≡ fresh fail) }
        ensures space { IfOk result (λ host. (host.space ≡ space) × (host.said.space ≡ space)) }
    {
        Ok(MemHost {
            alloc,
            given: files,
            written: Written::End,
            said: Room::make(alloc, space)?,
            space,
            tally: Tally::make(fail),
            story: Story::Begin,
        })
    }

    /// The bytes of a file.
    #[tactic(auto, using(crate::proofs::Names::front_file, crate::proofs::Names::back_file))]
    pub fn file(&self, name: &str) -> Option<&[u8]>
        ensures { option_copied result ≡ file_of name.now (entries_of self.now) }
    {
        let name = name.as_bytes();
        match self.written.find(name) {
            Some(bytes) => Some(bytes),
            None => find_bytes(self.given.as_slice(), name),
        }
    }

    /// What was said.
    pub fn said(&self) -> &[u8]
        ensures { ⟦<MemHost as Host>⟧.said self.now ≡ Some result.now }
    {
        self.said.as_slice()
    }

    // A copy of the numbers of the calls that fail of the given file, if there is one.
    fn fail_of(&self, name: &str) -> Result<Calls, NoMemory>
        ensures { IfOk result (λ fail. fail ≡ fails_of name.now self.now.given) }
    {
        let mut numbers = Vec::new(self.alloc);
        if let Some(file) = find_file(self.given.as_slice(), name.as_bytes()) {
            numbers.extend_from_slice(file.fail.as_slice())?;
        }
        Ok(ListOf::from_vec(numbers))
    }

    // At most so many bytes a take or put moves of the given file, or 0 where all that there are.
    fn piece_of(&self, name: &str) -> u32
        ensures { result ≡ piece_of name.now self.now.given }
    {
        match find_file(self.given.as_slice(), name.as_bytes()) {
            Some(file) => file.piece,
            None => 0,
        }
    }

    // An output under this name, which holds nothing.
    fn output(&self, name: &str) -> Result<MemOutput, NoMemory>
        ensures named { IfOk result (λ output. output.name ≡ name.now) }
        ensures empty { IfOk result (λ output. output.bytes.bytes.items ≡ []) }
        ensures space { IfOk result (λ output. output.bytes.space ≡ self.now.space) }
        ensures numbers { IfOk result (λ output.
            output.tally ≡ fresh (fails_of name.now self.now.given)) }
        ensures fresh { IfOk result (λ output. output.puts ≡ Amounts.None) }
        ensures piece { IfOk result (λ output. output.piece ≡ piece_of name.now self.now.given) }
    {
        Ok(MemOutput {
            name: copy_of(self.alloc, name)?,
            bytes: Room::make(self.alloc, self.space)?,
            tally: Tally::make(self.fail_of(name)?),
            node: Box::new(self.alloc, Written::End)?,
            puts: Amounts::None,
            piece: self.piece_of(name),
        })
    }
}

impl Host for MemHost {
    type Input = MemInput;

    type Output = MemOutput;

    ghost files = { λ host. Some (entries_of host) };

    ghost said = { λ host. Some host.said.bytes.items };

    ghost deeds = { λ host. deeds_of host.story };

    ghost may_open = { λ _ _. ⊤ };

    ghost may_create = { λ _ _. ⊤ };

    // Here and below the clauses behind the comment inside say more than the trait: which calls
    // fail, and what numbers, piece and space an input or an output is given.
    fn open_input(&mut self, name: &str) -> Result<MemInput, HostFault>
        ensures left { IfOk result (λ input.
            Opens (Some (entries_of self.old)) name.now (⟦<MemInput as Source>⟧.left input)) }
        ensures named { IfOk result (λ input. input.name ≡ name.now) }
        ensures fresh { IfOk result (λ input. amounts_of input.takes ≡ []) }
        ensures files { entries_of self.new ≡ entries_of self.old }
        ensures said { self.new.said.bytes.items ≡ self.old.said.bytes.items }
        ensures told { deeds_of self.new.story ≡ deeds_of self.old.story
            ++ made_or_failed (Opened name.now) (OpenFailed name.now) result }
        // What the trait leaves open.
        ensures listed { IsTrue (fails_next self.old.tally) → IsErr result }
        ensures failed { result ≡ Err HostFault.Failed
            → IsTrue (fails_next self.old.tally) ⊎ (file_of name.now (entries_of self.old) ≡ None) }
        ensures numbers { IfOk result (λ input.
            input.tally ≡ fresh (fails_of name.now self.old.given)) }
        ensures piece { IfOk result (λ input. input.piece ≡ piece_of name.now self.old.given) }
        ensures counted { self.new.tally ≡ counted self.old.tally }
        ensures same { SameSetUp self.old self.new }
    {
        let answer = self.tally.call();
        let copy = copy_of(self.alloc, name)?;
        if answer.is_err() {
            self.story.open_failed(&copy);
            return Err(HostFault::Failed);
        }
        let Some(found) = self.file(name) else {
            self.story.open_failed(&copy);
            return Err(HostFault::Failed);
        };
        let bytes = Vec::from_slice(self.alloc, found)?;
        let fail = self.fail_of(name)?;
        let piece = self.piece_of(name);
        self.story.opened(&copy);
        Ok(MemInput::make(copy, bytes, fail, piece))
    }

    fn create_output(&mut self, name: &str) -> Result<MemOutput, HostFault>
        ensures made { IfOk result (λ _. entries_of self.new ≡ put_file name.now [] (entries_of self.old)) }
        ensures empty { IfOk result (λ output. output.bytes.bytes.items ≡ []) }
        ensures named { IfOk result (λ output. output.name ≡ name.now) }
        ensures fresh { IfOk result (λ output. amounts_of output.puts ≡ []) }
        ensures err { OnErr result (entries_of self.new ≡ entries_of self.old) }
        ensures said { self.new.said.bytes.items ≡ self.old.said.bytes.items }
        ensures told { deeds_of self.new.story ≡ deeds_of self.old.story
            ++ made_or_failed (Created name.now) (CreateFailed name.now) result }
        // What the trait leaves open.
        ensures listed { IsTrue (fails_next self.old.tally) → IsErr result }
        ensures failed { result ≡ Err HostFault.Failed → IsTrue (fails_next self.old.tally) }
        ensures numbers { IfOk result (λ output.
            output.tally ≡ fresh (fails_of name.now self.old.given)) }
        ensures piece { IfOk result (λ output. output.piece ≡ piece_of name.now self.old.given) }
        ensures space { IfOk result (λ output. output.bytes.space ≡ self.old.space) }
        ensures counted { self.new.tally ≡ counted self.old.tally }
        ensures same { SameSetUp self.old self.new }
    {
        let answer = self.tally.call();
        let output = self.output(name)?;
        let empty = copy_of(self.alloc, name)?;
        let node = Box::new(self.alloc, Written::End)?;
        if answer.is_err() {
            self.story.create_failed(&output.name);
            return Err(HostFault::Failed);
        }
        self.written.put(empty, ListOf::make(self.alloc), node);
        self.story.created(&output.name);
        Ok(output)
    }

    fn shut(&mut self, input: MemInput)
        ensures files { entries_of self.new ≡ entries_of self.old }
        ensures said { self.new.said.bytes.items ≡ self.old.said.bytes.items }
        ensures told { deeds_of self.new.story ≡ deeds_of self.old.story
            ++ Shut input.name (amounts_of input.takes) ∷ [] }
        // What the trait leaves open.
        ensures uncounted { self.new.tally ≡ self.old.tally }
        ensures same { SameSetUp self.old self.new }
    {
        self.story.shut(&input.name, &input.takes);
    }

    fn keep(&mut self, output: MemOutput) -> Result<(), Failed>
        ensures files { entries_of self.new
            ≡ put_file output.name output.bytes.bytes.items (entries_of self.old) }
        ensures said { self.new.said.bytes.items ≡ self.old.said.bytes.items }
        ensures told { deeds_of self.new.story ≡ deeds_of self.old.story
            ++ kept_or_failed output.name (amounts_of output.puts) result ∷ [] }
        // What the trait leaves open.
        ensures listed { is_err result ≡ fails_next self.old.tally }
        ensures counted { self.new.tally ≡ counted self.old.tally }
        ensures same { SameSetUp self.old self.new }
    {
        let answer = self.tally.call();
        let answer = self.story.kept(&output.name, &output.puts, answer);
        let MemOutput {
            name,
            bytes,
            node,
            ..
        } = output;
        self.written.put(name, bytes.into_text(), node);
        answer
    }

    fn say(&mut self, piece: &[u8]) -> Result<usize, Failed>
        ensures bound { WritesAtMost result piece.now }
        ensures some { IfOk result (λ n. 0 < length piece.now → 0 < n) }
        ensures bytes { WriteAppends (Some self.old.said.bytes.items)
            (Some self.new.said.bytes.items) result piece.now }
        ensures files { entries_of self.new ≡ entries_of self.old }
        ensures told { deeds_of self.new.story ≡ deeds_of self.old.story
            ++ Said (result_ok result) ∷ [] }
        // What the trait leaves open.
        ensures refused { IsErr result
            ↔ Refuses self.old.tally (space_left self.old.said) piece.now }
        ensures count { IfOk result (λ n. n ≡ min (length piece.now) (space_left self.old.said)) }
        ensures counted { self.new.tally ≡ counted self.old.tally }
        ensures same { SameSetUp self.old self.new }
    {
        let answer = self.said.place(piece, 0, &mut self.tally);
        self.story.said(answer)
    }
}

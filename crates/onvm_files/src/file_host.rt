//! A host over real files and standard output. It tells nothing of content.
ghost use Rattle.std.specs.Prelude.{◌≡◌, ◌↔◌, ◌<◌, ◌∷◌, ◌++◌, ⊤, ℕ, List, [], Option, None, Ok, IfOk, IsOk, IsTrue, length};
ghost use Rattle.std.specs.Io.{ReadsAtMost, WritesAtMost};
ghost use Rattle.std.specs.Io.KnownBytes.{ReadConsumes, WriteAppends};
ghost use Rattle.std.specs.IoError.{error_kind};
ghost use Rattle.std.specs.Result.{result_ok};
ghost use Rattle.onvm_host.specs.Deeds.{kept_or_failed};
ghost use Rattle.onvm_host.specs.Story.{amounts_of, deeds_of};
ghost use Rattle.onvm_files.specs.Places.{IsPartFor};
ghost use Rattle.onvm_files.specs.Target.{IsStandardOutput, IsTargetOf};

use crate::part::{Part, make_part, replace};
use crate::place::{Place, place_of};
use onvm_base::{Failed, Name};
use onvm_host::{Amounts, Host, HostFault, Sink, Source, Story, copy_of};
use std::alloc::Global;
use std::fs::File;
use std::io;
use std::io::{BufWriter, ErrorKind, Print, Read, Write};
use std::rt::Files;

/// How many bytes of an output wait to be written together.
const BUFFER_BYTES: usize = 65_536;

/// Reads a file, no further ahead than it is asked for.
#[derive(Drop)]
pub struct FileInput<F> {
    file: F,
    name: Name,
    takes: Amounts,
}

impl<F: Read + Drop> Source for FileInput<F> {
    ghost left = { λ _. None };

    ghost name = { λ input. input.name };

    ghost takes = { λ input. amounts_of input.takes };

    // The bytes are those of the file, which a real one does not tell.
    #[inline]
    fn take(&mut self, into: &mut [u8]) -> Result<usize, Failed>
        ensures bound { ReadsAtMost result into.new }
        ensures bytes { ReadConsumes (F.remaining self.old.file) (F.remaining self.new.file)
            result into.new }
        ensures named { self.new.name ≡ self.old.name }
        ensures told { amounts_of self.new.takes ≡ amounts_of self.old.takes ++ result_ok result ∷ [] }
    {
        let answer = match self.file.read(into) {
            Ok(count) => Ok(count),
            Err(_) => Err(Failed),
        };
        self.takes.add(answer)
    }
}

/// Where the bytes of an output go. Before it was made they go nowhere.
#[derive(Drop)]
enum Target<F, P> {
    Unmade,
    File(F),
    Standard(P),
}

impl<F: Write + Drop, P: Print + Drop> Write for Target<F, P> {
    ghost use Rattle.onvm_files.specs.Target.{contents_of};

    ghost contents = { contents_of F.contents };

    fn write(&mut self, piece: &[u8]) -> io::Result<usize> {
        match self {
            Target::Unmade => Ok(0),
            Target::File(file) => file.write(piece),
            Target::Standard(rt) => io::writer(rt).write(piece),
        }
    }

    fn flush(&mut self) -> io::Result<()> {
        match self {
            Target::Unmade => Ok(()),
            Target::File(file) => file.flush(),
            Target::Standard(rt) => io::writer(rt).flush(),
        }
    }
}

/// Writes a file or standard output, many pieces at a time.
#[derive(Drop)]
pub struct FileOutput<F: Write + Drop, P: Print + Drop> {
    writer: BufWriter<Target<F, P>>,
    /// Where it writes a regular file.
    part: Option<Part>,
    /// Whether each put was taken.
    is_whole: bool,
    name: Name,
    puts: Amounts,
}

impl<F: Write + Drop, P: Print + Drop> Sink for FileOutput<F, P> {
    ghost held = { λ _. None };

    ghost name = { λ output. output.name };

    ghost puts = { λ output. amounts_of output.puts };

    // The bytes go to the file, which a real one does not tell.
    #[inline]
    fn put(&mut self, piece: &[u8]) -> Result<usize, Failed>
        ensures bound { WritesAtMost result piece.now }
        ensures some { IfOk result (λ n. 0 < length piece.now → 0 < n) }
        ensures bytes { WriteAppends
            (⟦<BufWriter<Target<F, P>> as Write>⟧.contents self.old.writer)
            (⟦<BufWriter<Target<F, P>> as Write>⟧.contents self.new.writer) result piece.now }
        ensures named { self.new.name ≡ self.old.name }
        ensures told { amounts_of self.new.puts ≡ amounts_of self.old.puts ++ result_ok result ∷ [] }
        ensures whole { IsTrue self.new.is_whole ↔ IsTrue self.old.is_whole × IsOk result }
    {
        let answer = count_of(self.writer.write(piece), piece);
        self.is_whole &= answer.is_ok();
        self.puts.add(answer)
    }
}

/// A host over the files and the standard output of a runtime. What is written under a name of
/// standard output goes there, behind what was written and said before.
#[derive(Drop)]
pub struct FileHost<R> {
    rt: R,
    story: Story,
}

impl<R> FileHost<R> {
    /// A host of which no call was made.
    pub fn make(rt: R) -> FileHost<R>
        ensures { deeds_of result.story ≡ [] }
    {
        FileHost {
            rt,
            story: Story::Begin,
        }
    }
}

// What a new output writes to, and the part that it writes where its place is for a regular file.
// Standard output is not opened by its name, since that would write at a place of its own, and what
// is said would overwrite it.
fn target_of<R: Files + Print + Copy>(
    rt: &R,
    alloc: Global,
    name: &str,
) -> io::Result<(Target<R::File, R>, Option<Part>)>
    ensures { IfOk result (λ made. IsTargetOf name.now rt.now made.0) }
{
    if is_standard_output(name) {
        return Ok((Target::Standard(*rt), None));
    }
    let place = place_of(rt, alloc, name)?;
    let (file, part) = file_of(rt, alloc, name, place)?;
    Ok((Target::File(file), part))
}

// The file that is written, which is a part exactly where a regular file is to have the name.
fn file_of<R: Files>(
    rt: &R,
    alloc: Global,
    name: &str,
    place: Place,
) -> io::Result<(R::File, Option<Part>)>
    ensures { IfOk result (λ made. IsPartFor place made.1) }
{
    let (file, part) = match place {
        Place::Free(path) => make_part(rt, alloc, path)?,
        Place::Taken(path, found) => replace(rt, alloc, path, &found)?,
        Place::Special(_) | Place::Open => return Ok((File::create(rt, name)?, None)),
    };
    Ok((file, Some(part)))
}

// Whether the system has the process's standard output under this name.
fn is_standard_output(name: &str) -> bool
    ensures { IsTrue result ↔ IsStandardOutput name.now }
{
    matches!(name, "/dev/stdout" | "/dev/fd/1" | "/proc/self/fd/1")
}

// Ends what was written. Without a part it stands where it was written.
fn settle<R: Files>(rt: &R, part: &Option<Part>, is_whole: bool) -> Result<(), Failed>
    ensures whole { IsOk result → IsTrue is_whole }
    ensures plain { part.now ≡ None → IsTrue is_whole → IsOk result }
{
    let is_kept = match part {
        Some(part) => part.settle(rt, is_whole),
        None => is_whole,
    };
    if is_kept { Ok(()) } else { Err(Failed) }
}

// Why a file was not opened or made.
fn fault_of(error: io::Error) -> HostFault
    ensures { result ≡ HostFault.Memory ↔ error_kind error ≡ ErrorKind.OutOfMemory }
{
    match error.kind() {
        ErrorKind::OutOfMemory => HostFault::Memory,
        _ => HostFault::Failed,
    }
}

impl<R: Files + Print + AllocGlobal + Copy> Host for FileHost<R>
where
    R::File: Send,
    R: Drop,
{
    type Input = FileInput<R::File>;

    type Output = FileOutput<R::File, R>;

    ghost files = { λ _. None };

    ghost said = { λ _. None };

    ghost deeds = { λ host. deeds_of host.story };

    ghost may_open = { λ _ _. ⊤ };

    ghost may_create = { λ _ _. ⊤ };

    fn open_input(&mut self, name: &str) -> Result<FileInput<R::File>, HostFault> {
        let copy = copy_of(self.rt.alloc(), name)?;
        match File::open(&self.rt, name) {
            Ok(file) => {
                self.story.opened(&copy);
                Ok(FileInput {
                    file,
                    name: copy,
                    takes: Amounts::None,
                })
            }
            Err(error) => match fault_of(error) {
                HostFault::Memory => Err(HostFault::Memory),
                HostFault::Failed => {
                    self.story.open_failed(&copy);
                    Err(HostFault::Failed)
                }
            },
        }
    }

    fn create_output(&mut self, name: &str) -> Result<FileOutput<R::File, R>, HostFault> {
        // All memory is taken first, so that want of it leaves an old file as it was.
        let alloc = self.rt.alloc();
        let copy = copy_of(alloc, name)?;
        let Ok(mut writer) = BufWriter::with_capacity(alloc, BUFFER_BYTES, Target::Unmade) else {
            return Err(HostFault::Memory);
        };
        let (target, part) = match target_of(&self.rt, alloc, name) {
            Ok(made) => made,
            Err(error) => {
                let fault = fault_of(error);
                if fault == HostFault::Failed {
                    self.story.create_failed(&copy);
                }
                return Err(fault);
            }
        };
        *writer.get_mut() = target;
        self.story.created(&copy);
        Ok(FileOutput {
            writer,
            part,
            is_whole: true,
            name: copy,
            puts: Amounts::None,
        })
    }

    fn shut(&mut self, input: FileInput<R::File>) {
        self.story.shut(&input.name, &input.takes);
    }

    // What was not taken whole leaves the file that was there.
    fn keep(&mut self, mut output: FileOutput<R::File, R>) -> Result<(), Failed>
        ensures whole { IsOk result → IsTrue output.is_whole }
        ensures told { deeds_of self.new.story ≡
            deeds_of self.old.story ++ kept_or_failed output.name (amounts_of output.puts) result ∷ [] }
    {
        let is_whole = output.is_whole && output.writer.flush().is_ok();
        let answer = settle(&self.rt, &output.part, is_whole);
        self.story.kept(&output.name, &output.puts, answer)
    }

    fn say(&mut self, piece: &[u8]) -> Result<usize, Failed> {
        let answer = count_of(io::writer(&self.rt).write(piece), piece);
        self.story.said(answer)
    }
}

// How much of a piece was taken. That nothing was, of a piece that is not empty, is a failed call.
#[inline]
#[tactic(auto, using(onvm_host::proofs::Bytes::nothing_appended))]
fn count_of(answer: io::Result<usize>, piece: &[u8]) -> Result<usize, Failed>
    requires { WritesAtMost answer piece.now }
    ensures bound { WritesAtMost result piece.now }
    ensures some { IfOk result (λ n. 0 < length piece.now → 0 < n) }
    ensures answered { IfOk answer (λ n. 0 < n → result ≡ Ok n) }
    ensures bytes { (old new : Option (List ℕ)) → WriteAppends old new answer piece.now
        → WriteAppends old new result piece.now }
{
    match answer {
        Ok(count) if count > 0 || piece.is_empty() => Ok(count),
        _ => Err(Failed),
    }
}

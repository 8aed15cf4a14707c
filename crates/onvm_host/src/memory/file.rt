//! The files that a host in memory is given.
ghost use Rattle.std.specs.Prelude.{◌≡◌, IsTrue, ◌↔◌, option_copied, find};
ghost use Rattle.std.specs.Str.{bytes_eq};
ghost use Rattle.onvm_host.specs.Files.{file_of};
ghost use Rattle.onvm_host.specs.Given.{given_entries, HaveDistinctNames};
ghost use Rattle.onvm_host.specs.Pieces as Pieces;

use onvm_base::{ListOf, Text};

/// Numbers of calls, from 1.
pub type Calls = ListOf<u64>;

/// A file. Those of its takes or puts fail whose numbers are listed. Each moves at most `piece` bytes,
/// where that is not 0.
#[derive(Drop)]
pub struct MemFile {
    pub name: Text,
    pub bytes: Text,
    pub fail: Calls,
    pub piece: u32,
}

pub type MemFiles = ListOf<MemFile>;

/// How many of so many bytes a call moves that moves at most a piece, or all where that is 0.
pub(super) fn at_most(piece: u32, count: usize) -> usize
    ensures { result ≡ Pieces.at_most piece count }
{
    if piece == 0 {
        count
    } else {
        count.min(piece as usize)
    }
}

/// The first file of a name.
pub(super) fn find_file<'a>(files: &'a [MemFile], name: &[u8]) -> Option<&'a MemFile>
    ensures { option_copied result ≡ find (λ file. bytes_eq file.name name.now) files.now }
{
    for file in files {
        if file.name.as_slice() == name {
            return Some(file);
        }
    }
    None
}

/// The bytes of the first file of a name.
#[tactic(auto, using(crate::proofs::Names::given_file))]
pub(super) fn find_bytes<'a>(files: &'a [MemFile], name: &[u8]) -> Option<&'a [u8]>
    ensures { option_copied result ≡ file_of name.now (given_entries files.now) }
{
    match find_file(files, name) {
        Some(file) => Some(file.bytes.as_slice()),
        None => None,
    }
}

/// Whether no two files have one name.
pub fn have_distinct_names(files: &MemFiles) -> bool
    ensures { IsTrue result ↔ HaveDistinctNames files.now }
{
    let files = files.as_slice();
    for at in 0..files.len() {
        if find_file(&files[at + 1..], files[at].name.as_slice()).is_some() {
            return false;
        }
    }
    true
}

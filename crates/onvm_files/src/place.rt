//! Where an output goes: what its name leads to.
ghost use Rattle.std.specs.Prelude.{IfOk};
ghost use Rattle.onvm_files.specs.Places.{Suits};

use std::alloc::Global;
use std::fs::Metadata;
use std::io::ErrorKind;
use std::path::PathBuf;
use std::rt::Files;
use std::{fs, io};

/// How many links are followed from a name, which is what Linux follows.
const MOST_LINKS: usize = 40;

/// What the name of an output leads to, behind all links.
#[derive(Drop)]
pub(crate) enum Place {
    /// No file is there.
    Free(PathBuf),
    /// A regular file is there.
    Taken(PathBuf, Metadata),
    /// A pipe, a device, a socket or a folder is there.
    Special(Metadata),
    /// A process has it open under this name, be it a file without any other.
    Open,
}

/// Follows the links from a name.
pub(crate) fn place_of<R: Files>(rt: &R, alloc: Global, name: &str) -> io::Result<Place>
    ensures suits { IfOk result Suits }
{
    let mut path = PathBuf::from_str(alloc, name)?;
    for _ in 0..MOST_LINKS {
        if path.starts_with("/proc") || path.starts_with("/dev/fd") {
            return Ok(Place::Open);
        }
        match fs::symlink_metadata(rt, &path) {
            Ok(found) if found.is_symlink() => {
                let target = rt.read_link(alloc, path.as_str())?;
                path.pop();
                path.push(&target)?;
            }
            Ok(found) if found.is_file() => return Ok(Place::Taken(path, found)),
            Ok(found) => return Ok(Place::Special(found)),
            Err(error) if error.kind() == ErrorKind::NotFound => return Ok(Place::Free(path)),
            Err(error) => return Err(error),
        }
    }
    Err(io::Error::from(ErrorKind::FilesystemLoop))
}

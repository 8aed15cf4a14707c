//! A file that is written beside its place, and takes its name there once it is whole.
ghost use Rattle.std.specs.Prelude.{◌≡◌, IfOk, IsTrue};
ghost use Rattle.std.specs.Path.{path_buf_bytes};
ghost use Rattle.onvm_files.specs.Places.{IsBeside};

use std::alloc::Global;
use std::fs::{Metadata, OpenOptions};
use std::io::ErrorKind;
use std::os::unix::fs::MetadataExt;
use std::path::PathBuf;
use std::rt::Files;
use std::{fs, io};

/// How many names of parts are tried in a folder.
const MOST_PARTS: usize = 65_536;

/// A file that is not whole, and the place whose name it is to take.
#[derive(Drop)]
pub(crate) struct Part {
    path: PathBuf,
    place: PathBuf,
}

/// Makes an empty part for a place where no file is.
pub(crate) fn make_part<R: Files>(
    rt: &R,
    alloc: Global,
    place: PathBuf,
) -> io::Result<(R::File, Part)>
    ensures place { IfOk result (λ made. path_buf_bytes made.1.place ≡ path_buf_bytes place) }
    ensures beside { IfOk result (λ made.
        IsBeside (path_buf_bytes place) (path_buf_bytes made.1.path)) }
{
    for number in 0..MOST_PARTS {
        let path = place.with_file_name(alloc, &format!(in alloc; "onvm-{number}.part")?)?;
        match OpenOptions::new()
            .write(true)
            .create_new(true)
            .open(rt, &path)
        {
            Ok(file) => return Ok((file, Part { path, place })),
            Err(error) if error.kind() == ErrorKind::AlreadyExists => {}
            Err(error) => return Err(error),
        }
    }
    Err(io::Error::from(ErrorKind::AlreadyExists))
}

/// Makes an empty part for a place where a regular file is. That file must be one that may be
/// written, and the part has its owner, where who runs may say so, and its permissions.
pub(crate) fn replace<R: Files>(
    rt: &R,
    alloc: Global,
    place: PathBuf,
    found: &Metadata,
) -> io::Result<(R::File, Part)>
    ensures place { IfOk result (λ made. path_buf_bytes made.1.place ≡ path_buf_bytes place) }
    ensures beside { IfOk result (λ made.
        IsBeside (path_buf_bytes place) (path_buf_bytes made.1.path)) }
{
    OpenOptions::new().write(true).open(rt, &place)?;
    let (file, part) = make_part(rt, alloc, place)?;
    let _ = rt.chown(part.path.as_str(), Some(found.uid()), Some(found.gid()));
    match fs::set_permissions(rt, &part.path, found.permissions()) {
        Ok(()) => Ok((file, part)),
        Err(error) => {
            part.settle(rt, false);
            Err(error)
        }
    }
}

impl Part {
    /// Gives a whole part the name of its place, and removes one that is not whole or can't have
    /// that name. Answers whether the name is now the part's.
    pub(crate) fn settle<R: Files>(&self, rt: &R, is_whole: bool) -> bool
        ensures whole { IsTrue result → IsTrue is_whole }
    {
        let is_kept = is_whole && fs::rename(rt, &self.path, &self.place).is_ok();
        if !is_kept {
            // What can't be removed either stays behind under a name that says what it is.
            let _ = fs::remove_file(rt, &self.path);
        }
        is_kept
    }
}

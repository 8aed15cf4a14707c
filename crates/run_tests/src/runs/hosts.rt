//! Hosts in memory, and runs over them.

use nf_api::Guest;
use onvm_base::{ListOf, Status, Text};
use onvm_host::{Gate, MemFile, MemFiles, MemHost, OpenGate, StepClock, have_distinct_names};
use onvm_top::{Finish, run};
use std::alloc::Global;
use std::process::Abort;
use std::sync::Wait;
use std::test::Fail;
use std::thread::Threads;
use std::{str, time};

/// Room for what is said, and for each output: for the heads of all frames that a port takes.
pub const SPACE: u64 = 4_200_000;

/// A file of a host: its name, its bytes, the numbers, from 1, of its takes or puts that fail, and at
/// most how many bytes each moves, 0 for all.
#[derive(Clone, Copy)]
pub struct Given<'a> {
    pub name: &'a str,
    pub bytes: &'a [u8],
    pub fail: &'a [u64],
    pub piece: u32,
}

/// A file of which no take or put fails, and each moves all that it can.
pub fn sound<'a>(name: &'a str, bytes: &'a [u8]) -> Given<'a> {
    Given {
        name,
        bytes,
        fail: &[],
        piece: 0,
    }
}

/// What a run leaves: its status, what was said, and the output `o`, if there is one.
#[derive(Clone, Copy)]
pub struct Left<'a> {
    pub status: Status,
    pub said: &'a str,
    pub output: Option<&'a [u8]>,
}

/// What a run leaves that is done.
pub fn done<'a>(said: &'a str, output: &'a [u8]) -> Left<'a> {
    Left {
        status: Status::Done,
        said,
        output: Some(output),
    }
}

/// What a run leaves that made no output.
pub fn refused(status: Status, said: &str) -> Left<'_> {
    Left {
        status,
        said,
        output: None,
    }
}

/// A host of these files, of whose own calls those fail whose numbers, from 1, are listed.
pub fn host_of(
    alloc: Global,
    given: &[Given<'_>],
    fail: &[u64],
    space: u64,
) -> Result<MemHost, Fail> {
    let mut files = MemFiles::make(alloc);
    for file in given {
        files.push(MemFile {
            name: Text::from_slice(alloc, file.name.as_bytes())?,
            bytes: Text::from_slice(alloc, file.bytes)?,
            fail: ListOf::from_slice(alloc, file.fail)?,
            piece: file.piece,
        })?;
    }
    if !have_distinct_names(&files) {
        return Err(Fail::from("two files of one name"));
    }
    let fail = ListOf::from_slice(alloc, fail)?;
    Ok(MemHost::make(alloc, files, fail, space)?)
}

/// The words of a command.
pub fn words_of(alloc: Global, words: &[&str]) -> Result<Vec<String>, Fail> {
    let mut command = Vec::new(alloc);
    for word in words {
        command.push(String::from_str(alloc, *word)?)?;
    }
    Ok(command)
}

/// The status of a run, which is handed back exactly where it is done.
pub fn status_of(finish: &Finish) -> Result<Status, Fail> {
    if finish.run.is_some() != (finish.status == Status::Done) {
        return Err(Fail::from("a run is handed back exactly where it is done"));
    }
    Ok(finish.status)
}

/// The status of a run by these words, over a clock that stands.
pub fn play_behind<R: AllocGlobal + Threads + Wait + time::Clock + Sync, G: Gate>(
    rt: &R,
    host: &mut MemHost,
    words: &[&str],
    gate: &G,
    guests: Vec<Guest>,
) -> Result<Status, Fail> {
    let words = words_of(rt.alloc(), words)?;
    let finish = run(rt, &words, host, &StepClock { at: 0 }, gate, guests);
    status_of(&finish)
}

/// The status of a run by these words, whose roles no gate holds up.
pub fn play<R: AllocGlobal + Threads + Wait + time::Clock + Sync>(
    rt: &R,
    host: &mut MemHost,
    words: &[&str],
    guests: Vec<Guest>,
) -> Result<Status, Fail> {
    play_behind(rt, host, words, &OpenGate, guests)
}

/// Compares what a run left with what was expected.
pub fn compare(
    rt: &impl Abort,
    host: &MemHost,
    status: Status,
    expected: Left<'_>,
    shown: &str,
) -> Result<(), Fail> {
    let said = str::from_utf8(host.said())?;
    assert_eq!(rt; said, expected.said, "said: {shown}");
    assert_eq!(rt; status, expected.status, "the status: {shown}");
    let output = host.file("o");
    assert!(rt; output == expected.output, "the output: {shown}");
    Ok(())
}

/// Runs over these files by these words, and compares what is left with what was expected.
pub fn expect<R: AllocGlobal + Threads + Wait + time::Clock + Sync + Abort>(
    rt: &R,
    given: &[Given<'_>],
    words: &[&str],
    expected: Left<'_>,
    shown: &str,
) -> Result<(), Fail> {
    let mut host = host_of(rt.alloc(), given, &[], SPACE)?;
    let status = play(rt, &mut host, words, Vec::new(rt.alloc()))?;
    compare(rt, &host, status, expected, shown)
}

//! The program `onvm`: replays captures through chains of network functions.
#![tactic(auto)]

use nf_api::{Guest, NetFunction};
use nf_guests::{Flip, Mirror};
use onvm_base::{Name, NoMemory, Status};
use onvm_files::{FileHost, SysClock};
use onvm_host::OpenGate;
use onvm_top::run;
use std::alloc::Global;
use std::io::{self, ErrorKind};
use std::process::ExitCode;
use std::sync::Wait;
use std::thread::Threads;
use std::{env, mem, time};

fn main(rt: HostRuntime) -> ExitCode {
    let answer = match words(&rt) {
        Ok(words) => replay(&rt, &rt, &words),
        // A word that is no text is no command.
        Err(error) if error.kind() == ErrorKind::InvalidData => replay(&rt, &rt, &[]),
        Err(_) => Err(NoMemory),
    };
    let status = match answer {
        Ok(status) => status,
        Err(NoMemory) => {
            let _ = println!(rt; "fault memory");
            Status::Memory
        }
    };
    ExitCode::from(status.code())
}

// The words behind the program's name.
fn words(rt: &HostRuntime) -> io::Result<Vec<String>> {
    let words = env::args(rt)?.skip(1).collect(rt.alloc())?;
    Ok(words)
}

// Runs the words over real files, with the guests that a chain file may name. `wait` is the same
// runtime: only `main` knows that it may wait, and start threads.
fn replay<R: AllocGlobal + Threads + Wait + time::Clock + Sync>(
    rt: &HostRuntime,
    wait: &R,
    words: &[String],
) -> Result<Status, NoMemory> {
    let alloc = rt.alloc();
    let flip: Box<dyn NetFunction + Send> = Box::new(alloc, Flip { handled: 0 })?;
    let mirror: Box<dyn NetFunction + Send> = Box::new(alloc, Mirror)?;
    let mut guests = Vec::new(alloc);
    guests.push(guest(alloc, b"flip", flip)?)?;
    guests.push(guest(alloc, b"mirror", mirror)?)?;
    let mut host = FileHost::make(*rt);
    let clock = SysClock::make(*rt);
    let finish = run(wait, words, &mut host, &clock, &OpenGate, guests);
    let status = finish.status;
    // The system frees the frames and records at once where the program ends.
    mem::forget(finish);
    Ok(status)
}

fn guest(
    alloc: Global,
    name: &[u8],
    function: Box<dyn NetFunction + Send>,
) -> Result<Guest, NoMemory> {
    let name = Name::from_slice(alloc, name)?;
    Ok(Guest { name, function })
}

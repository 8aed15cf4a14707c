//! A whole run.
ghost use Rattle.std.specs.Prelude.{◌≡◌, ◌≢◌, ◌<◌, ◌≤◌, ◌↔◌, ℕ, All, IfErr, IfOk, IfSome, IsSome, List, length, map, string_bytes};
ghost use Rattle.onvm_base.specs.declared.limits.TheConstants.{MAX_PORTS};
ghost use Rattle.command_words.specs.Commands.{IsCapture, IsCommand};
ghost use Rattle.std.specs.Io.KnownBytes.{Appends};
ghost use Rattle.chain_file.specs.Guests.{names_of};
ghost use Rattle.onvm_host.specs.Deeds.{faults_of};
ghost use Rattle.onvm_top.specs.Accounts.{IsDone};
ghost use Rattle.onvm_top.specs.Answers.{HasFault, IsTrueStatus};
ghost use Rattle.onvm_top.specs.Calls.{Adds};
ghost use Rattle.onvm_top.specs.Inputs.{MayOpen};
ghost use Rattle.onvm_top.specs.Names.{MayReplay};
ghost use Rattle.onvm_top.specs.Stops.{IsStopped, IsStoppedRun};

use crate::chain::read_plan;
use crate::fault::Fault;
use crate::output::{leave, say_all};
use crate::replay::{replay_captures, report_of};
use command_words::Command;
use nf_api::{Guest, NetFunction};
use nf_catalog::units;
use onvm_base::Status;
use onvm_host::{Clock, Gate, Host};
use onvm_session::Run;
use std::sync::Wait;
use std::thread::Threads;
use std::time;

/// How a run ended, and what it left where it is done.
#[derive(Drop)]
pub struct Finish {
    pub status: Status,
    pub run: Option<Run>,
}

/// Replays captures through the functions of a chain file, as the words ask for. Guests are functions
/// that a chain file may name. What was sent is written to the output, and then a report is said; what
/// stops a run is said in one line.
///
/// With `--serial` the roles take turns, round after round, at moments that are made up, and neither
/// clock nor gate is used. Without it each role makes its passes in a thread of its own, where one can
/// be had: before each pass the gate is called, and then the clock is read for the pass's moment.
pub fn run<R: AllocGlobal + Threads + Wait + time::Clock + Sync, H: Host, C: Clock, G: Gate>(
    rt: &R,
    words: &[String],
    host: &mut H,
    clock: &C,
    gate: &G,
    guests: Vec<Guest>,
) -> Finish
    requires names { MayReplay (H.may_open host.old) (H.may_create host.old)
        (map string_bytes words.now) }

    // A run is handed back exactly where the status is Done.
    ensures finished { result.status ≡ Status.Done ↔ IsSome result.run }

    // The headline, of the run that is handed back: after which calls of the host, of which frames,
    // and what it wrote and said.
    ensures done { IfSome result.run (λ run. Adds (H.deeds host.old) (H.deeds host.new)
        (λ deeds. IsDone (C.may_be_now clock.now) (C.may_span clock.now)
        ⟦<Guest as NetFunction>⟧.acts ⟦<Guest as NetFunction>⟧.state
        (map string_bytes words.now) guests.items
        (H.files host.old) (H.files host.new) (H.said host.old) (H.said host.new) deeds run)) }

    // What the status tells of the words and of the files.
    ensures answer { IsTrueStatus (map string_bytes words.now) (names_of guests.items)
        (H.files host.old) (H.files host.new) result.status }

    // An input or the output is blamed only where one of these calls is a fault.
    ensures faults { HasFault result.status → faults_of (H.deeds host.old) < faults_of (H.deeds host.new) }

    // What stopped any other run, after which calls, and that its line was said behind them.
    ensures stopped { result.status ≢ Status.Done
        → IsStoppedRun (C.may_be_now clock.now) (C.may_span clock.now)
        ⟦<Guest as NetFunction>⟧.acts ⟦<Guest as NetFunction>⟧.state
        (map string_bytes words.now) guests.items
        (H.files host.old) (H.files host.new) (H.said host.old) (H.said host.new)
        (H.deeds host.old) (H.deeds host.new) result.status }
{
    match replay(rt, words, host, clock, gate, guests) {
        Ok(run) => Finish {
            status: Status::Done,
            run: Some(run),
        },
        Err(fault) => {
            let _ = say_all(host, fault.line().as_bytes());
            Finish {
                status: fault.status(),
                run: None,
            }
        }
    }
}

// The run without its fault line.
fn replay<R: AllocGlobal + Threads + Wait + time::Clock + Sync, H: Host, C: Clock, G: Gate>(
    rt: &R,
    words: &[String],
    host: &mut H,
    clock: &C,
    gate: &G,
    guests: Vec<Guest>,
) -> Result<Run, Fault>
    requires names { MayReplay (H.may_open host.old) (H.may_create host.old)
        (map string_bytes words.now) }
    ensures done { IfOk result (λ run. Adds (H.deeds host.old) (H.deeds host.new)
        (λ deeds. IsDone (C.may_be_now clock.now) (C.may_span clock.now)
        ⟦<Guest as NetFunction>⟧.acts ⟦<Guest as NetFunction>⟧.state
        (map string_bytes words.now) guests.items
        (H.files host.old) (H.files host.new) (H.said host.old) (H.said host.new) deeds run)) }
    ensures stopped { IfErr result (λ fault. Adds (H.deeds host.old) (H.deeds host.new)
        (λ deeds. (front : List ℕ) × Appends (H.said host.old) (H.said host.new) front
        × IsStopped (C.may_be_now clock.now) (C.may_span clock.now)
        ⟦<Guest as NetFunction>⟧.acts ⟦<Guest as NetFunction>⟧.state
        (map string_bytes words.now) guests.items
        (H.files host.old) (H.files host.new) front deeds fault)) }
{
    match command_words::read(rt.alloc(), words) {
        Ok(Some(command)) => replay_command(rt, host, &command, clock, gate, guests),
        Ok(None) => Err(Fault::Words),
        Err(_) => Err(Fault::Memory),
    }
}

// The run of a command.
fn replay_command<R: AllocGlobal + Threads + Wait + time::Clock + Sync, H: Host, C: Clock, G: Gate>(
    rt: &R,
    host: &mut H,
    command: &Command,
    clock: &C,
    gate: &G,
    guests: Vec<Guest>,
) -> Result<Run, Fault>
    requires chain { H.may_open host.old command.now.chain.now }
    requires output { H.may_create host.old command.now.output.now }
    requires opens { MayOpen (H.may_open host.old) command.now.captures.items }
    requires captures { All IsCapture command.now.captures.items }
    requires few { length command.now.captures.items ≤ MAX_PORTS }
    ensures done { IfOk result (λ run. Adds (H.deeds host.old) (H.deeds host.new)
        (λ deeds. (texts : List (List ℕ)) → IsCommand texts command.now
        → IsDone (C.may_be_now clock.now) (C.may_span clock.now)
        ⟦<Guest as NetFunction>⟧.acts ⟦<Guest as NetFunction>⟧.state texts guests.items
        (H.files host.old) (H.files host.new) (H.said host.old) (H.said host.new) deeds run)) }
    ensures stopped { IfErr result (λ fault. Adds (H.deeds host.old) (H.deeds host.new)
        (λ deeds. (front : List ℕ) × Appends (H.said host.old) (H.said host.new) front
        × ((texts : List (List ℕ)) → IsCommand texts command.now
        → IsStopped (C.may_be_now clock.now) (C.may_span clock.now)
        ⟦<Guest as NetFunction>⟧.acts ⟦<Guest as NetFunction>⟧.state texts guests.items
        (H.files host.old) (H.files host.new) front deeds fault))) }
{
    let alloc = rt.alloc();
    let plan = read_plan(alloc, host, command, guests.as_slice())?;
    let Ok(units) = units(alloc, &plan, guests) else {
        return Err(Fault::Memory);
    };
    let captures = command.captures.as_slice();
    let serial = command.options.serial;
    let run = replay_captures(rt, alloc, host, captures, &plan, units, clock, gate, serial)?;
    let Ok(report) = report_of(alloc, &plan, &run, &command.options) else {
        return Err(Fault::Memory);
    };
    leave(host, command.output, &run.sent, report.as_slice())?;
    Ok(run)
}

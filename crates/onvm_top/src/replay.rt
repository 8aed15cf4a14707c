//! The session of a command's captures, and the report of its run.
ghost use Rattle.std.specs.Prelude.{◌≡◌, ◌≤◌, All, IfErr, IfOk, length};
ghost use Rattle.onvm_base.specs.declared.limits.TheConstants.{MAX_PORTS};
ghost use Rattle.command_words.specs.Commands.{IsCapture};
ghost use Rattle.onvm_host.specs.Names.{SameNames};
ghost use Rattle.onvm_session.specs.RoleStates.{acts_by, start_by};
ghost use Rattle.onvm_top.specs.Accounts.{IsReplayOf, IsReportOf};
ghost use Rattle.onvm_top.specs.Calls.{Adds};
ghost use Rattle.onvm_top.specs.Inputs.{MayOpen};
ghost use Rattle.onvm_top.specs.Stops.{StopsAtCaptures};

use crate::fault::Fault;
use crate::inputs::{open_feeds, shut_feeds};
use command_words::CaptureWord;
use nf_api::NetFunction;
use onvm_base::{ListOf, NoMemory, Plan, Text};
use onvm_host::{Clock, Gate, Host};
use onvm_report::{Options, Printed, report};
use onvm_session::{Ended, Run, session};
use std::alloc::Global;
use std::sync::Wait;
use std::thread::Threads;
use std::time;

/// Replays captures through the functions of a plan: opens them, runs the session, and shuts them.
pub(crate) fn replay_captures<
    R: Threads + Wait + time::Clock + Sync,
    H: Host,
    N: NetFunction + Send,
    C: Clock,
    G: Gate,
>(
    rt: &R,
    alloc: Global,
    host: &mut H,
    captures: &[CaptureWord],
    plan: &Plan,
    units: ListOf<N>,
    clock: &C,
    gate: &G,
    serial: bool,
) -> Result<Run, Fault>
    requires units { length units ≡ length plan.now.functions }
    requires ports { length captures.now ≤ plan.now.ports }
    requires few { length captures.now ≤ MAX_PORTS }
    requires captures { All IsCapture captures.now }
    requires names { MayOpen (H.may_open host.old) captures.now }
    ensures done { IfOk result (λ run. Adds (H.deeds host.old) (H.deeds host.new)
        (λ deeds. IsReplayOf serial (C.may_be_now clock.now) (C.may_span clock.now)
        (acts_by N.acts N.state units) (start_by N.acts N.state units)
        (H.files host.old) plan.now captures.now deeds run)) }
    ensures err { IfErr result (λ fault. Adds (H.deeds host.old) (H.deeds host.new)
        (λ deeds. StopsAtCaptures captures.now (H.files host.old) deeds fault)) }
    ensures files { H.files host.new ≡ H.files host.old }
    ensures said { H.said host.new ≡ H.said host.old }
    ensures names { SameNames (H.may_open host.old) (H.may_create host.old)
        (H.may_open host.new) (H.may_create host.new) }
{
    let feeds = open_feeds(alloc, host, captures)?;
    let Ended { outcome, feeds } = session(rt, alloc, plan, units, feeds, clock, gate, serial);
    shut_feeds(host, feeds);
    match outcome {
        Ok(run) => Ok(run),
        Err(stop) => Err(Fault::of_stop(stop)),
    }
}

/// The report of a run.
pub(crate) fn report_of(
    alloc: Global,
    plan: &Plan,
    run: &Run,
    options: &Options,
) -> Result<Text, NoMemory>
    ensures { IfOk result (λ text. IsReportOf plan.now run.now options.now text) }
{
    let printed = Printed {
        frames: run.records.len() as u64,
        yields: run.counters.yields,
        lost: run.counters.lost,
        records: &run.records,
        posts: &run.posts,
        ticks: &run.ticks,
    };
    report(alloc, plan, &printed, options)
}

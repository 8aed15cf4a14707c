//! A core's role.
ghost use Rattle.std.specs.Prelude.{◌≡◌, ◌≢◌, ◌<◌, ◌≤◌, ◌+◌, ◌^◌, ℕ, List, Bool, not, length, slice_index_or, IfOk, OnErr, None};
ghost use Rattle.onvm_base.specs.declared.limits.TheConstants.{MAX_BUDGET};
ghost use Rattle.onvm_core.specs.declared.entry.Entry.{Entry};
ghost use Rattle.onvm_core.specs.Handling.{core_hand};
ghost use Rattle.onvm_core.specs.Layouts.{IsLayoutOf};
ghost use Rattle.onvm_board.specs.Tokens.{TokenView, grown};
ghost use Rattle.onvm_promises.specs.declared.pass.Pass.TheVariants.{Stopped, Wanting};
ghost use Rattle.onvm_promises.specs.Answers.{Tells, is_complete};
ghost use Rattle.onvm_promises.specs.Roles.{IsCorePromise, setting_of};
ghost use Rattle.onvm_promises.specs.Sampling.{AreTimed};
ghost use Rattle.nf_exec.specs.declared.station.Station.{Station as StationView};
ghost use Rattle.nf_exec.specs.Roles.{HasMailed, IsAtWork, IsCoreRole, IsPassing, KeepsOthers, acts_of, counted, counts_upto, start_of, state_of, times_are};
ghost use Rattle.nf_exec.specs.Serving.{IsService, sample_acts};
ghost use Rattle.nf_exec.specs.Stations.{functions_of};

use crate::station::Station;
use crate::turn::{Service, Turn};
use nf_api::NetFunction;
use onvm_base::{BufId, NoMemory, Plan};
use onvm_board::{Board, Token};
use onvm_host::Clock;
use onvm_promises::Pass;
use std::snapshot::Snapshot;

/// A parcel for which its function wanted memory.
#[derive(Clone, Copy, Debug)]
pub struct Kept {
    /// The place of its function's station.
    pub at: usize,
    pub buf: BufId,
}

/// A core's role. Its functions are of the type `N`.
#[derive(Drop)]
pub struct CoreRole<N> {
    pub stations: Vec<Station>,
    /// Unit i is the function of station i.
    pub units: Vec<N>,
    pub kept: Option<Kept>,
    pub yields: u64,
    pub lost: u64,
    /// The units as they were handed in, for contracts alone.
    pub began: Snapshot<Vec<N>>,
}

// What a pass answers that handled so many frames, and kept a parcel or not.
fn answer_of(handled: u32, wanting: bool) -> Pass
    ensures whole { is_complete result ≡ not wanting }
    ensures tells { Tells result handled (handled ≡ 0) ⊥ }
{
    if wanting {
        return Pass::Wanting;
    }
    match handled {
        0 => Pass::Idle,
        handled => Pass::Did(handled),
    }
}

impl<N: NetFunction> CoreRole<N> {
    // Hands the kept parcel to its function, if there is one. Answers how many frames it handled.
    fn handle_kept<C: Clock>(
        &mut self,
        token: &mut Token,
        board: &Board,
        plan: &Plan,
        clock: &C,
    ) -> Result<u32, NoMemory>
        requires role { IsCoreRole N.acts N.state board.now plan.now token.old self.old }
        ensures passing { IfOk result (λ n. IsPassing board.now plan.now (functions_of self.old.stations.items) 0 n
            token.old token.new) }
        ensures none { IfOk result (λ _. core_hand token.new.log ≡ None) }
        ensures few { IfOk result (λ n. n ≤ 1) }
        ensures unchanged { OnErr result (token.new ≡ token.old) }
        ensures wanting { OnErr result (core_hand token.old.log ≢ None) }
        ensures counts { counts_upto 1 self.new.stations.items }
        ensures uncounted { OnErr result (counts_upto 0 self.new.stations.items) }
        ensures times { times_are (C.may_span clock.now) plan.now self.new.stations.items }
        ensures work { IsAtWork N.acts N.state board.now token.new self.new }
        ensures began { self.new.began ≡ self.old.began }
        ensures functions { functions_of self.new.stations.items ≡ functions_of self.old.stations.items }
    {
        let Some(kept) = self.kept else {
            return Ok(0);
        };
        let station = &mut self.stations[kept.at];
        let unit = &mut self.units[kept.at];
        station.handle(board, token, plan, unit, clock, kept.buf)?;
        self.kept = None;
        Ok(1)
    }

    // Serves the function at a station.
    fn serve_at<C: Clock>(
        &mut self,
        token: &mut Token,
        board: &Board,
        plan: &Plan,
        clock: &C,
        at: usize,
    ) -> Service
        requires layout { IsLayoutOf plan.now board.now.layout }
        requires known { at < length self.old.stations.items }
        requires work { IsAtWork N.acts N.state board.now token.old self.old }
        requires free { core_hand token.old.log ≡ None }
        requires few { (station : StationView) → station ≡ slice_index_or self.old.stations.items at station
            → station.count ≤ 1024 }
        requires times { times_are (C.may_span clock.now) plan.now self.old.stations.items }
        ensures served { (station : StationView) → station ≡ slice_index_or self.old.stations.items at station
            → IsService board.now plan.now station.function result.handled result.last token.old token.new }
        ensures few { result.handled ≤ MAX_BUDGET }
        ensures count { (station now : StationView) → station ≡ slice_index_or self.old.stations.items at station
            → now ≡ slice_index_or self.new.stations.items at now → now.count ≡ station.count + result.handled }
        ensures times { times_are (C.may_span clock.now) plan.now self.new.stations.items }
        ensures others { KeepsOthers at self.old.stations.items self.new.stations.items }
        ensures work { IsAtWork N.acts N.state board.now token.new self.new }
        ensures began { self.new.began ≡ self.old.began }
    {
        let station = &mut self.stations[at];
        let unit = &mut self.units[at];
        let service = station.serve(board, token, plan, unit, clock);
        match service.last {
            Turn::Barred => self.yields = self.yields.saturating_add(1),
            Turn::Wanting(buf) => self.kept = Some(Kept { at, buf }),
            Turn::Handled | Turn::Dry => {}
        }
        service
    }

    // Serves the functions in order, until one wants memory. Answers how many frames they handled.
    fn serve_all<C: Clock>(
        &mut self,
        token: &mut Token,
        board: &Board,
        plan: &Plan,
        clock: &C,
    ) -> u32
        requires layout { IsLayoutOf plan.now board.now.layout }
        requires work { IsAtWork N.acts N.state board.now token.old self.old }
        requires free { core_hand token.old.log ≡ None }
        requires few { counts_upto 1 self.old.stations.items }
        requires times { times_are (C.may_span clock.now) plan.now self.old.stations.items }
        ensures passing { (start : TokenView) (n : ℕ)
            → IsPassing board.now plan.now (functions_of self.old.stations.items) 0 n start token.old
            → IsPassing board.now plan.now (functions_of self.old.stations.items) (length self.old.stations.items)
            (n + result) start token.new }
        ensures few { result ≤ 32768 }
        ensures counts { counts_upto 2048 self.new.stations.items }
        ensures times { times_are (C.may_span clock.now) plan.now self.new.stations.items }
        ensures functions { functions_of self.new.stations.items ≡ functions_of self.old.stations.items }
        ensures work { IsAtWork N.acts N.state board.now token.new self.new }
        ensures began { self.new.began ≡ self.old.began }
    {
        let mut handled = 0;
        for at in 0..self.stations.len() {
            handled += self.serve_at(token, board, plan, clock, at).handled;
            if self.kept.is_some() {
                return handled;
            }
        }
        handled
    }

    // Mails the sample of the function at a station, where it handled something.
    fn mail_at(&mut self, token: &mut Token, board: &Board, at: usize)
        requires known { at < length self.old.stations.items }
        requires work { IsAtWork N.acts N.state board.now token.old self.old }
        requires few { (station : StationView) → station ≡ slice_index_or self.old.stations.items at station
            → (station.count < 4096) × (0 < station.count → station.time < 2 ^ 40) }
        ensures mailed { (station : StationView) → station ≡ slice_index_or self.old.stations.items at station
            → (lost : Bool) × (token.new ≡ grown (sample_acts station.function station.count station.time lost)
            token.old.hand token.old) }
        ensures count { (now : StationView) → now ≡ slice_index_or self.new.stations.items at now → now.count ≡ 0 }
        ensures others { KeepsOthers at self.old.stations.items self.new.stations.items }
        ensures work { IsAtWork N.acts N.state board.now token.new self.new }
        ensures units { (self.new.units ≡ self.old.units) × (self.new.began ≡ self.old.began) }
        ensures kept { self.new.kept ≡ self.old.kept }
    {
        if self.stations[at].mail_sample(board, token) {
            self.lost = self.lost.saturating_add(1);
        }
    }

    // Mails the samples of all functions that handled something, in order.
    fn mail_all(&mut self, token: &mut Token, board: &Board)
        requires work { IsAtWork N.acts N.state board.now token.old self.old }
        requires few { counts_upto 2048 self.old.stations.items }
        requires times { (i : ℕ) (station : StationView) → i < length self.old.stations.items
            → station ≡ slice_index_or self.old.stations.items i station → 0 < station.count
            → station.time < 2 ^ 40 }
        ensures mailed { HasMailed board.now self.old.stations.items (length self.old.stations.items) token.old
            token.new }
        ensures counts { counts_upto 0 self.new.stations.items }
        ensures functions { functions_of self.new.stations.items ≡ functions_of self.old.stations.items }
        ensures work { IsAtWork N.acts N.state board.now token.new self.new }
        ensures units { (self.new.units ≡ self.old.units) × (self.new.began ≡ self.old.began) }
        ensures kept { self.new.kept ≡ self.old.kept }
    {
        for at in 0..self.stations.len() {
            self.mail_at(token, board, at);
        }
    }

    /// One pass: a kept parcel goes to its function first. Then each function is served in order,
    /// and at last each one that handled frames mails a sample of them.
    ///
    /// Wanting is a function's own want of memory. The pass ends with it, but for the samples, and
    /// keeps the frame for the next pass.
    pub fn pass<C: Clock>(
        &mut self,
        token: &mut Token,
        board: &Board,
        plan: &Plan,
        clock: &C,
    ) -> Pass
        requires role { IsCoreRole N.acts N.state board.now plan.now token.old self.old }
        requires timed { AreTimed (C.may_span clock.now) plan.now token.old.log }
        ensures promise { (entries : List Entry) → IsCorePromise (acts_of N.acts N.state self.old)
            (start_of N.acts N.state self.old) (state_of N.acts N.state self.new) (C.may_span clock.now)
            (setting_of board.now.layout plan.now entries) token.old.role (core_hand token.new.log) token.old.log
            token.new.log (counted self.new) result }
        ensures role { IsCoreRole N.acts N.state board.now plan.now token.new self.new }
        ensures same { (token.new.board ≡ token.old.board) × (token.new.role ≡ token.old.role) }
        ensures began { self.new.began ≡ self.old.began }
        ensures functions { functions_of self.new.stations.items ≡ functions_of self.old.stations.items }

        // Only a function wants memory: its frame is kept.
        ensures wanting { result ≡ Wanting → core_hand token.new.log ≢ None }
        ensures never_stopped { result ≢ Stopped }
    {
        let Ok(first) = self.handle_kept(token, board, plan, clock) else {
            return Pass::Wanting;
        };
        let handled = first + self.serve_all(token, board, plan, clock);
        self.mail_all(token, board);
        answer_of(handled, self.kept.is_some())
    }
}

//! The tick role.
ghost use Rattle.std.specs.Prelude.{◌≡◌, ◌≢◌, ◌+◌, ◌*◌, ◌<◌, ◌≤◌, ◌&&◌, ◌||◌, ◌++◌, ◌∷◌, ℕ, List, [], length, true, false, nat_lt, vec_len, vec_capacity, IfOk, OnOk};
ghost use Rattle.onvm_base.specs.declared.limits.TheConstants.{MAIL_RING, MAX_FUNCTIONS};
ghost use Rattle.onvm_core.specs.declared.entry.Entry.{Entry};
ghost use Rattle.onvm_core.specs.Layouts.{IsLayoutOf, tick_role};
ghost use Rattle.onvm_core.specs.Logs.{Log};
ghost use Rattle.onvm_board.specs.Tokens.{BoardView, TokenView, grown};
ghost use Rattle.desc_ring.specs.Arrays.{AreMailHeads, AreNew, mail_of, new_mail};
ghost use Rattle.onvm_promises.specs.declared.pass.Pass.TheVariants.{Wanting, Stopped};
ghost use Rattle.load_estimate.specs.declared.tick.Tick.{Tick as TickView};
ghost use Rattle.onvm_promises.specs.Answers.{Tells, is_complete};
ghost use Rattle.onvm_promises.specs.Lines.{lines_of};
ghost use Rattle.onvm_promises.specs.Roles.{IsTickPromise, IsTickerSoFar, setting_of};
ghost use Rattle.onvm_promises.specs.Ticks.{is_due, last_moment, last_number, tick_at};
ghost use Rattle.tick_pass.specs.Taking.{HasTaken, HasTakenAll};
ghost use Rattle.tick_pass.specs.Telling.{IsTurn, posts_from, posts_where, ticks_where};
ghost use Rattle.tick_pass.specs.Roles.{AreMailsOf};

use crate::mailbox::take_waiting;
use crate::room::{TickKept, TickRoom, append};
use crate::tick::tell_lines;
use crate::windows::age_out;
use desc_ring::Mail;
use load_estimate::{Tick, TickLine};
use onvm_base::{FnId, ListOf, MAIL_RING, NoMemory, Plan, RingId};
use onvm_board::{Board, Token};
use onvm_promises::Pass;
use std::snapshot::Snapshot;

// Only a closing tick has this number: it is the last that 32 bits can tell.
const LAST_NUMBER: usize = 4_294_967_295;

/// The role that takes samples and makes ticks.
#[derive(Drop)]
pub struct TickRole {
    // The first tick is due one `tick` of the plan after this moment.
    pub(crate) first: u64,
    // The moment of the last pass, for contracts alone.
    pub(crate) latest: Snapshot<u64>,
    pub(crate) room: TickRoom,
}

// Sets up the ends of the board's mail rings, by function. There has to be room for them.
fn begin(mails: &mut Vec<Mail>, board: &Board, functions: usize)
    requires functions { functions ≡ board.now.layout.functions }
    requires few { functions ≤ MAX_FUNCTIONS }
    requires none { mails.old.items ≡ [] }
    requires room { functions ≤ vec_capacity mails.old }
    ensures new { AreNew (new_mail board.now.layout) mail_of board.now.layout.functions mails.new.items }
    ensures room { functions ≤ vec_capacity mails.new }
{
    for f in 0..functions {
        let ring = RingId::Mail(FnId(f as u8));
        append(mails, Mail::at(board, ring));
    }
}

// Sets them up where that wasn't done yet.
fn set_up(mails: &mut Vec<Mail>, board: &Board, plan: &Plan)
    requires layout { IsLayoutOf plan.now board.now.layout }
    requires room { length plan.now.functions ≤ vec_capacity mails.old }
    ensures mails { (token : TokenView) → AreMailsOf board.now mails.old.items token → token.board ≡ board.now.id
        → AreMailHeads board.now mails.new.items token }
    ensures room { length plan.now.functions ≤ vec_capacity mails.new }
{
    if !mails.is_empty() {
        return;
    }
    begin(mails, board, plan.functions.len());
}

// What a pass answers that took so many samples, and made a tick or not.
fn answer_of(taken: u32, due: bool) -> Pass
    requires { taken ≤ 2048 }
    ensures complete { is_complete result ≡ true }
    ensures tells { (tick : TickView) → Tells result (taken + length (ticks_where due tick)) (Unit {0}) ⊥ }
{
    let ticks = if due { 1 } else { 0 };
    match taken + ticks {
        0 => Pass::Idle,
        done => Pass::Did(done),
    }
}

// The moment of the last tick, and where there is none this first one.
fn last_moment(first: u64, ticks: &[Tick]) -> u64
    ensures { result ≡ last_moment first ticks.now }
{
    match ticks.last() {
        Some(tick) => tick.moment,
        None => first,
    }
}

impl TickRole {
    ghost use Rattle.tick_pass.specs.Roles.{AreWindows, HasCoreRoom, HasRoom, IsAtWork, IsTickRole, KeepsRest, KeepsTicks, LastInForce, first_of, latest_of, logged, ticked};

    /// One pass at the moment `now`: takes the waiting samples of each function, a mail ring's worth at
    /// most, and then makes a tick where one is due or the pass is the closing one.
    ///
    /// Wanting comes before the first step.
    pub fn pass(
        &mut self,
        token: &mut Token,
        board: &Board,
        plan: &Plan,
        now: u64,
        closing: bool,
    ) -> Pass
        requires role { IsTickRole board.now plan.now false token.old self.old }
        requires later { latest_of self.old ≤ now }
        ensures promise { (entries : List Entry) (moment : ℕ → ℕ)
            → IsTickerSoFar (setting_of board.now.layout plan.now entries) token.old.role moment token.old.log
            (logged self.old)
            → IsTickPromise (setting_of board.now.layout plan.now entries) token.old.role (first_of self.old) now
            closing moment token.old.log token.new.log (logged self.new) (ticked self.old) (ticked self.new)
            result }
        ensures turn { is_complete result ≡ true → IsTurn board.now.layout.functions now
            (closing || is_due plan.now (first_of self.old) now (ticked self.old))
            (lines_of plan.now (ticked self.old) (logged self.new) now) token.old token.new
            (logged self.old) (logged self.new) }
        ensures role { IsTickRole board.now plan.now (closing && is_complete result) token.new self.new }
        ensures latest { is_complete result ≡ true → latest_of self.new ≡ now }
        ensures upto { latest_of self.new ≤ now }
        ensures first { first_of self.new ≡ first_of self.old }
        ensures token { (added : Log) × (token.new ≡ grown added token.old.hand token.old) }

        // Where memory is wanting, nothing was stepped and nothing changed.
        ensures unstepped { result ≡ Wanting → token.new ≡ token.old }
        ensures untaken { result ≡ Wanting → logged self.new ≡ logged self.old }
        ensures unticked { result ≡ Wanting → ticked self.new ≡ ticked self.old }
        ensures earlier { result ≡ Wanting → latest_of self.new ≡ latest_of self.old }
        ensures never_stopped { result ≢ Stopped }
    {
        let due = self.makes_tick(plan, now, closing);
        let Ok(lines) = self.reserve(plan, due) else {
            return Pass::Wanting;
        };
        set_up(&mut self.room.mails, board, plan);
        let taken = self.take_samples(token, board, plan, now);
        self.tick_if_due(due, lines, token, board, plan, now);
        self.latest = Snapshot::of(&now);
        answer_of(taken, due)
    }

    // Whether a tick is due.
    fn is_due(&self, plan: &Plan, now: u64) -> bool
        ensures { result ≡ is_due plan.now self.now.first now self.now.room.ticks.items }
    {
        let last = last_moment(self.first, &self.room.ticks);
        now.saturating_sub(last) >= plan.tick && self.room.ticks.len() < LAST_NUMBER - 1
    }

    // Whether a pass makes a tick.
    fn makes_tick(&self, plan: &Plan, now: u64, closing: bool) -> bool
        ensures { result ≡ (closing || is_due plan.now self.now.first now self.now.room.ticks.items) }
    {
        closing || self.is_due(plan, now)
    }

    // Makes room for the samples of a pass, and for a tick where one is due: room for its lines.
    fn reserve(&mut self, plan: &Plan, due: bool) -> Result<Vec<TickLine>, NoMemory>
        ensures rest { KeepsRest self.old self.new }
        ensures samples { self.new.room.samples.items ≡ self.old.room.samples.items }
        ensures ticks { self.new.room.ticks.items ≡ self.old.room.ticks.items }
        ensures room { OnOk result (HasRoom (length plan.now.functions * MAIL_RING) self.new.room.samples) }
        ensures tick_room { OnOk result (due ≡ true → vec_len self.new.room.ticks < vec_capacity self.new.room.ticks) }
        ensures lines { IfOk result (λ lines. lines.items ≡ []) }
        ensures line_room { IfOk result (λ lines. due ≡ true → length plan.now.functions ≤ vec_capacity lines) }
    {
        let functions = plan.functions.len();
        self.room.samples.reserve(functions * MAIL_RING as usize)?;
        self.room.ticks.reserve(usize::from(due))?;
        let lines = if due { functions } else { 0 };
        let lines = Vec::with_capacity(*self.room.ticks.allocator(), lines)?;
        Ok(lines)
    }

    // Takes the waiting samples of a function.
    fn take_from(&mut self, token: &mut Token, board: &Board, plan: &Plan, f: u8, now: u64) -> u16
        requires role { IsAtWork board.now plan.now now token.old self.old }
        requires known { f < length plan.now.functions }
        requires room { HasRoom MAIL_RING self.old.room.samples }
        ensures taken { HasTaken (record { 0 = f }) now result (nat_lt result MAIL_RING) token.old token.new
            (logged self.old) (logged self.new) }
        ensures few { result ≤ MAIL_RING }
        ensures role { IsAtWork board.now plan.now now token.new self.new }
        ensures room { (n : ℕ) → HasRoom (n + MAIL_RING) self.old.room.samples → HasRoom n self.new.room.samples }
        ensures ticks { KeepsTicks self.old self.new }
    {
        let mail = &mut self.room.mails[f as usize];
        let window = &mut self.room.windows[f as usize];
        let samples = &mut self.room.samples;
        take_waiting(mail, window, samples, token, board, FnId(f), now)
    }

    // Takes the waiting samples of all functions, in order.
    fn take_samples(&mut self, token: &mut Token, board: &Board, plan: &Plan, now: u64) -> u32
        requires role { IsAtWork board.now plan.now now token.old self.old }
        requires room { HasRoom (length plan.now.functions * MAIL_RING) self.old.room.samples }
        ensures taken { HasTakenAll board.now.layout.functions now result token.old token.new
            (logged self.old) (logged self.new) }
        ensures few { result ≤ 2048 }
        ensures role { IsAtWork board.now plan.now now token.new self.new }
        ensures ticks { KeepsTicks self.old self.new }
    {
        let functions = plan.functions.len() as u8;
        let mut taken = 0;
        for f in 0..functions {
            taken += u32::from(self.take_from(token, board, plan, f, now));
        }
        taken
    }

    // Makes a tick over all samples that were taken.
    fn make_tick(
        &mut self,
        lines: Vec<TickLine>,
        token: &mut Token,
        board: &Board,
        plan: &Plan,
        now: u64,
    )
        requires role { IsAtWork board.now plan.now now token.old self.old }
        requires core { HasCoreRoom self.old.room.core }
        requires in_force { LastInForce plan.now (ticked self.old) }
        requires few { length (ticked self.old) < last_number }
        requires tick_room { vec_len self.old.room.ticks < vec_capacity self.old.room.ticks }
        requires lines { lines.items ≡ [] }
        requires line_room { length plan.now.functions ≤ vec_capacity lines }
        ensures tick { ticked self.new ≡ ticked self.old ++ tick_at plan.now (ticked self.old) (logged self.old) now ∷ [] }
        ensures posted { token.new ≡ grown (posts_from 0 (lines_of plan.now (ticked self.old) (logged self.old) now))
            token.old.hand token.old }
        ensures windows { AreWindows plan.now now (logged self.old) self.new.room.windows.items }
        ensures samples { self.new.room.samples ≡ self.old.room.samples }
        ensures mails { self.new.room.mails ≡ self.old.room.mails }
        ensures core { HasCoreRoom self.new.room.core }
        ensures first { (self.new.first ≡ self.old.first) × (self.new.latest ≡ self.old.latest) }
    {
        let room = &mut self.room;
        age_out(&mut room.windows, now);
        let lines = tell_lines(
            lines,
            &mut room.core,
            &room.windows,
            &room.ticks,
            token,
            board,
            plan,
        );
        let tick = Tick {
            number: room.ticks.len() as u32 + 1,
            moment: now,
            taken: room.samples.len() as u64,
            lines: ListOf::from_vec(lines),
        };
        append(&mut room.ticks, tick);
    }

    // Makes a tick where one is due.
    fn tick_if_due(
        &mut self,
        due: bool,
        lines: Vec<TickLine>,
        token: &mut Token,
        board: &Board,
        plan: &Plan,
        now: u64,
    )
        requires role { IsAtWork board.now plan.now now token.old self.old }
        requires core { HasCoreRoom self.old.room.core }
        requires in_force { LastInForce plan.now (ticked self.old) }
        requires few { length (ticked self.old) < last_number }
        requires tick_room { due ≡ true → vec_len self.old.room.ticks < vec_capacity self.old.room.ticks }
        requires lines { lines.items ≡ [] }
        requires line_room { due ≡ true → length plan.now.functions ≤ vec_capacity lines }
        ensures tick { ticked self.new
            ≡ ticked self.old ++ ticks_where due (tick_at plan.now (ticked self.old) (logged self.old) now) }
        ensures posted { token.new
            ≡ grown (posts_where due (lines_of plan.now (ticked self.old) (logged self.old) now)) token.old.hand
            token.old }
        ensures windows { AreWindows plan.now now (logged self.old) self.new.room.windows.items }
        ensures samples { self.new.room.samples ≡ self.old.room.samples }
        ensures mails { self.new.room.mails ≡ self.old.room.mails }
        ensures core { HasCoreRoom self.new.room.core }
        ensures first { (self.new.first ≡ self.old.first) × (self.new.latest ≡ self.old.latest) }
    {
        if due {
            self.make_tick(lines, token, board, plan, now);
        }
    }

    /// All that was taken and made.
    pub fn end(self) -> TickKept
        ensures samples { result.samples ≡ logged self }
        ensures ticks { result.ticks ≡ ticked self }
    {
        let TickRole { room, .. } = self;
        let TickRoom { samples, ticks, .. } = room;
        TickKept {
            samples: ListOf::from_vec(samples),
            ticks: ListOf::from_vec(ticks),
        }
    }
}

impl TickRoom {
    ghost use Rattle.tick_pass.specs.Roles.{IsNewRoom, IsTickRole, first_of, latest_of, logged, ticked};
    ghost use Rattle.onvm_base.specs.declared.plan.Plan.{Plan as PlanView};

    /// A role that has made no pass, for any board of the plan, with its token without a step. The
    /// first tick is due one `tick` of the plan after the moment `first`. It takes no memory.
    pub fn start(self, first: u64) -> TickRole
        ensures role { (plan : PlanView) (site : BoardView) (token : TokenView) → IsNewRoom plan self
            → IsLayoutOf plan site.layout → token.board ≡ site.id → token.role ≡ tick_role site.layout
            → token.log ≡ [] → IsTickRole site plan false token result }
        ensures first { first_of result ≡ first }
        ensures latest { latest_of result ≡ first }
        ensures samples { (plan : PlanView) → IsNewRoom plan self → logged result ≡ [] }
        ensures ticks { (plan : PlanView) → IsNewRoom plan self → ticked result ≡ [] }
    {
        TickRole {
            first,
            latest: Snapshot::of(&first),
            room: self,
        }
    }
}

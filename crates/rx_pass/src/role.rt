//! A receive role.
ghost use Rattle.std.specs.Prelude.{◌≡◌, ◌≢◌, ◌⊎◌, ◌↔◌, IsOk, IsSome, ◌+◌, ◌-◌, ◌<◌, ◌≤◌, ◌++◌, List, [], ℕ, Bool, Option, OnErr, OnOk, length, true, false, Some, None};
ghost use Rattle.onvm_base.specs.declared.frame.Frame.{Frame};
ghost use Rattle.onvm_base.specs.declared.ids.PortId.{PortId};
ghost use Rattle.onvm_core.specs.Layouts.{IsLayoutOf};
ghost use Rattle.onvm_core.specs.Logs.{Setting};
ghost use Rattle.onvm_core.specs.Receiving.ReceivePhase.{Between};
ghost use Rattle.flow_table.specs.Flows.{table_of};
ghost use Rattle.onvm_host.specs.Deeds.{Amounts};
ghost use Rattle.onvm_promises.specs.Entries.{entry_of};
ghost use Rattle.onvm_promises.specs.Kept.{moment_then};
ghost use Rattle.onvm_promises.specs.Roles.{IsReceivePromise};
ghost use Rattle.onvm_promises.specs.declared.pass.Pass.TheVariants.{Wanting, Stopped};
ghost use Rattle.rx_feed.specs.Feeds.{IsPulledOf, IsTakenFrom, StaysFeed};
ghost use Rattle.rx_feed.specs.Standing.{HasStopped};
ghost use Rattle.rx_pass.specs.Chains.{IsChainOfPlan};
ghost use Rattle.rx_pass.specs.Keeping.{HasRoom};

use crate::inlet::Inlet;
use crate::kept::Kept;
use crate::room::RxKept;
use entry_throttle::marks_pass;
use flow_table::FlowTable;
use nf_registry::Registry;
use onvm_base::{Frame, FrameId, NoMemory, Plan, Records, SentFrames};
use onvm_board::{Board, Token};
use onvm_core::Entry;
use onvm_host::Source;
use onvm_packet::{flow_hash, parse};
use onvm_promises::Pass;
use rx_feed::{FeedFault, Intake};
use std::alloc::Global;
use std::collections::VecDeque;

/// The role that receives a port's frames.
#[derive(Drop)]
pub struct RxRole<I> {
    pub(crate) intake: Intake<I>,
    // Frames that were pulled and have no block yet.
    pub(crate) waiting: VecDeque<Frame>,
    pub(crate) flows: FlowTable,
    pub(crate) inlet: Inlet,
}

impl<I: Source> RxRole<I> {
    ghost use Rattle.rx_pass.specs.Roles.{FitsRole, IsInOrder, IsQueue, IsRxRole, done_of, keeps_of, waiting_of};

    /// One pass at the moment `now`, in nanoseconds: frames are pulled until a burst waits or no more
    /// come; then a marks pass is made, and the block of each frame that waits, in order.
    ///
    /// Wanting comes before the first step: then what was taken and pulled waits for the next pass.
    /// Stopped comes exactly where something has stopped the port at the end of the pass; the frames
    /// before it have their blocks.
    pub fn pass(
        &mut self,
        alloc: Global,
        token: &mut Token,
        board: &Board,
        plan: &Plan,
        registry: &Registry,
        now: u64,
    ) -> Pass
        requires role { IsRxRole board.now plan.now token.old self.old }
        requires registry { registry.now ≡ plan.now }
        ensures promise { (setting : Setting) (moment : ℕ → ℕ)
            → FitsRole board.now.layout plan.now token.old.role self.new setting
            → IsInOrder setting token.old.role moment token.old.log self.old
            → IsReceivePromise setting token.old.role now moment token.old.log token.new.log (keeps_of self.new) result }
        ensures in_order { (setting : Setting) (moment : ℕ → ℕ)
            → FitsRole board.now.layout plan.now token.old.role self.new setting
            → IsInOrder setting token.old.role moment token.old.log self.old
            → IsInOrder setting token.old.role (moment_then moment (length token.old.log) now) token.new.log self.new }
        ensures role { IsRxRole board.now plan.now token.new self.new }
        ensures same { (token.new.board ≡ token.old.board) × (token.new.role ≡ token.old.role) }
        ensures since { (left : Option (List ℕ)) (takes : Amounts)
            → IsTakenFrom I.left I.takes left takes self.old.intake.feed self.old.intake.standing
            → IsTakenFrom I.left I.takes left takes self.new.intake.feed self.new.intake.standing }
        ensures feed { StaysFeed I.name self.old.intake.feed self.new.intake.feed }
        ensures more { (frames : List Frame)
            × (self.new.intake.standing.pulled ≡ self.old.intake.standing.pulled ++ frames) }
        ensures ended { HasStopped self.old.intake.standing → self.new.intake.standing ≡ self.old.intake.standing }
        ensures stopped { result ≢ Wanting → (result ≡ Stopped) ↔ IsSome self.new.intake.standing.fault }

        // Each frame pulled has its block, and at most a burst of them has it in this pass, but where memory
        // was wanting: then nothing was stepped, and at most a burst waits.
        ensures blocks { result ≢ Wanting → waiting_of self.new ≡ [] }
        ensures burst { done_of self.new ≤ done_of self.old + plan.now.burst }
        ensures unstepped { result ≡ Wanting → token.new ≡ token.old }
        ensures unchanged { result ≡ Wanting → keeps_of self.new ≡ keeps_of self.old }
    {
        if self.prepare(alloc, plan.burst as usize).is_err() {
            return Pass::Wanting;
        }
        marks_pass(&mut self.inlet.feeder, board, token, now);
        let received = self.receive_all(board, token, plan, registry, now);
        if self.intake.fault().is_some() {
            Pass::Stopped
        } else if received == 0 {
            Pass::Idle
        } else {
            Pass::Did(received)
        }
    }

    // Makes room for a post and a burst of records and sent frames, and pulls.
    fn prepare(&mut self, alloc: Global, burst: usize) -> Result<(), NoMemory>
        requires frames { IsPulledOf self.old.intake.feed self.old.intake.standing }
        requires few { length (waiting_of self.old) ≤ burst }
        ensures queue { IsQueue self.old → IsQueue self.new }
        ensures done { done_of self.new ≡ done_of self.old }
        ensures few { length (waiting_of self.new) ≤ burst }
        ensures full { OnOk result ((length (waiting_of self.new) ≡ burst) ⊎ HasStopped self.new.intake.standing) }
        ensures frames { IsPulledOf self.new.intake.feed self.new.intake.standing }
        ensures since { (left : Option (List ℕ)) (takes : Amounts)
            → IsTakenFrom I.left I.takes left takes self.old.intake.feed self.old.intake.standing
            → IsTakenFrom I.left I.takes left takes self.new.intake.feed self.new.intake.standing }
        ensures feed { StaysFeed I.name self.old.intake.feed self.new.intake.feed }
        ensures more { (frames : List Frame)
            × (self.new.intake.standing.pulled ≡ self.old.intake.standing.pulled ++ frames) }
        ensures ended { HasStopped self.old.intake.standing → self.new.intake.standing ≡ self.old.intake.standing }
        ensures kept { keeps_of self.new ≡ keeps_of self.old }
        ensures feeder { self.new.inlet.feeder ≡ record self.old.inlet.feeder { room = self.new.inlet.feeder.room } }
        ensures post { OnOk result (1 ≤ self.new.inlet.feeder.room) }
        ensures room { OnOk result (HasRoom burst self.new.inlet.kept) }
        ensures ends { (self.new.inlet.lanes ≡ self.old.inlet.lanes) × (self.new.inlet.part ≡ self.old.inlet.part)
            × (self.new.flows ≡ self.old.flows) }
    {
        self.pull(alloc, burst)?;
        self.inlet.feeder.reserve()?;
        self.inlet.kept.reserve(burst)?;
        Ok(())
    }

    // Pulls frames until a burst waits, or no more come. Where memory is wanting, those that were pulled
    // go on waiting.
    fn pull(&mut self, alloc: Global, burst: usize) -> Result<(), NoMemory>
        requires frames { IsPulledOf self.old.intake.feed self.old.intake.standing }
        requires few { length (waiting_of self.old) ≤ burst }
        ensures queue { IsQueue self.old → IsQueue self.new }
        ensures done { done_of self.new ≡ done_of self.old }
        ensures few { length (waiting_of self.new) ≤ burst }
        ensures full { OnOk result ((length (waiting_of self.new) ≡ burst) ⊎ HasStopped self.new.intake.standing) }
        ensures frames { IsPulledOf self.new.intake.feed self.new.intake.standing }
        ensures since { (left : Option (List ℕ)) (takes : Amounts)
            → IsTakenFrom I.left I.takes left takes self.old.intake.feed self.old.intake.standing
            → IsTakenFrom I.left I.takes left takes self.new.intake.feed self.new.intake.standing }
        ensures feed { StaysFeed I.name self.old.intake.feed self.new.intake.feed }
        ensures more { (frames : List Frame)
            × (self.new.intake.standing.pulled ≡ self.old.intake.standing.pulled ++ frames) }
        ensures ended { HasStopped self.old.intake.standing → self.new.intake.standing ≡ self.old.intake.standing }
        ensures same { (self.new.flows ≡ self.old.flows) × (self.new.inlet ≡ self.old.inlet) }
    {
        'frames: loop {
            if self.waiting.len() == burst {
                return Ok(());
            }
            self.waiting.reserve(1)?;
            let Some(frame) = self.intake.next(alloc)? else {
                return Ok(());
            };
            if self.waiting.push_back(frame).is_err() {
                unreachable!()
            }
        }
    }
}

impl<I> RxRole<I> {
    ghost use Rattle.rx_pass.specs.Roles.{FitsRole, IsQueue, done_of, waiting_of};
    ghost use Rattle.rx_pass.specs.Turns.{IsInletOf, IsTurn};

    // The frame with this number as it enters: with its chain and its flow hash.
    fn entry_of(&mut self, plan: &Plan, frame: Frame, number: u32) -> Entry
        requires flows { self.old.flows ≡ table_of plan.now self.old.inlet.part.port }
        ensures entry { result ≡ entry_of plan.now self.old.inlet.part.port number frame }
        ensures chain { IsChainOfPlan plan.now result.chain }
        ensures same { self.new ≡ self.old }
    {
        let heads = parse(frame.packet.bytes());
        let chain = self.flows.chain(plan, &heads);
        Entry {
            frame: FrameId {
                port: self.inlet.part.port,
                number,
            },
            stamp: frame.stamp,
            packet: frame.packet,
            chain,
            hash: flow_hash(&heads),
        }
    }

    // The blocks of the frames that wait, in order. Says how many they were.
    fn receive_all(
        &mut self,
        board: &Board,
        token: &mut Token,
        plan: &Plan,
        registry: &Registry,
        now: u64,
    ) -> u32
        requires plan { IsLayoutOf plan.now board.now.layout }
        requires registry { registry.now ≡ plan.now }
        requires empty_handed { token.old.hand ≡ [] }
        requires inlet { IsInletOf board.now self.old.inlet token.old }
        requires flows { self.old.flows ≡ table_of plan.now self.old.inlet.part.port }
        requires queue { IsQueue self.old }
        requires room { HasRoom (length (waiting_of self.old)) self.old.inlet.kept }
        ensures turn { (setting : Setting) → FitsRole board.now.layout plan.now token.old.role self.old setting
            → IsTurn setting token.old.role now (Between (done_of self.old)) (Between (done_of self.new)) token.old
            token.new self.old.inlet self.new.inlet }
        ensures empty { waiting_of self.new ≡ [] }
        ensures count { result ≡ length (waiting_of self.old) }
        ensures hand { token.new.hand ≡ [] }
        ensures same { (token.new.role ≡ token.old.role) × (token.new.board ≡ token.old.board) }
        ensures inlet { IsInletOf board.now self.new.inlet token.new }
        ensures intake { (self.new.intake ≡ self.old.intake) × (self.new.flows ≡ self.old.flows) }
    {
        let pulled = self.intake.pulled();
        let count = self.waiting.len() as u32;
        'frames: while let Some(frame) = self.waiting.pop_front() {
            let number = pulled - self.waiting.len() as u32;
            let entry = self.entry_of(plan, frame, number);
            self.inlet.receive(board, token, plan, registry, entry, now);
        }
        count
    }
}

impl<I> RxRole<I> {
    ghost use Rattle.rx_pass.specs.Roles.{keeps_of};

    /// Why no more frames come, where something stopped the port.
    pub fn fault(&self) -> Option<FeedFault>
        ensures { result ≡ self.now.intake.standing.fault }
    {
        self.intake.fault()
    }

    /// How many frames were pulled.
    pub fn pulled(&self) -> u32
        ensures { result ≡ length self.now.intake.standing.pulled }
    {
        self.intake.pulled()
    }

    /// Whether all frames were pulled and the end was seen.
    pub fn done(&self) -> bool
        ensures { result ≡ self.now.intake.standing.ended }
    {
        self.intake.done()
    }

    /// How many records it has made.
    pub fn recorded(&self) -> u64
        ensures { result ≡ length (keeps_of self.now).outcomes.records }
    {
        self.inlet.kept.records.len() as u64
    }
}

impl<I: Source> RxRole<I> {
    ghost use Rattle.rx_pass.specs.Roles.{keeps_of};

    /// Reads the rest, and keeps no frame: no pass comes after it. After want of memory it may have read
    /// a part of the rest, and the next call goes on from there.
    pub fn drain(&mut self, alloc: Global) -> Result<(), NoMemory>
        ensures ok { OnOk result (HasStopped self.new.intake.standing) }
        ensures more { (frames : List Frame)
            × (self.new.intake.standing.pulled ≡ self.old.intake.standing.pulled ++ frames) }
        ensures stopped { HasStopped self.old.intake.standing → IsOk result × (self.new ≡ self.old) }
        ensures frames { IsPulledOf self.new.intake.feed self.new.intake.standing }
        ensures since { (left : Option (List ℕ)) (takes : Amounts)
            → IsTakenFrom I.left I.takes left takes self.old.intake.feed self.old.intake.standing
            → IsTakenFrom I.left I.takes left takes self.new.intake.feed self.new.intake.standing }
        ensures feed { StaysFeed I.name self.old.intake.feed self.new.intake.feed }
        ensures kept { keeps_of self.new ≡ keeps_of self.old }
    {
        self.intake.drain(alloc)
    }
}

impl<I: Drop> RxRole<I> {
    ghost use Rattle.rx_pass.specs.Roles.{keeps_of};

    /// Its feed, and what it has kept.
    pub fn end(self) -> RxKept<I>
        ensures feed { result.feed ≡ self.intake.feed }
        ensures records { result.records ≡ (keeps_of self).outcomes.records }
        ensures sent { result.sent ≡ (keeps_of self).outcomes.sent }
        ensures posts { result.posts ≡ (keeps_of self).posts }
    {
        let inlet = self.inlet;
        let Kept { records, sent } = inlet.kept;
        RxKept {
            feed: self.intake.into_feed(),
            records: Records::from_vec(records),
            sent: SentFrames::from_vec(sent),
            posts: inlet.feeder.end(),
        }
    }
}

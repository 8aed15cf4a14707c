//! A transmit role.
ghost use Rattle.std.specs.Prelude.{◌≡◌, ◌≢◌, ◌+◌, ◌*◌, ◌<◌, ◌≤◌, List, [], ℕ, OnOk, length, nat_lt};
ghost use Rattle.onvm_base.specs.declared.ids.RingId.TheVariants.{Output};
ghost use Rattle.onvm_core.specs.declared.entry.Entry.{Entry};
ghost use Rattle.onvm_core.specs.Layouts.{IsLayoutOf, consumer};
ghost use Rattle.desc_ring.specs.Arrays.{AreHeads};
ghost use Rattle.onvm_promises.specs.declared.pass.Pass.TheVariants.{Wanting, Stopped};
ghost use Rattle.onvm_promises.specs.Kept.{moment_then};
ghost use Rattle.onvm_promises.specs.Roles.{IsSendPromise, setting_of};
ghost use Rattle.tx_pass.specs.Keeping.{HasRoom};
ghost use Rattle.tx_pass.specs.Moving.{IsOutletOf};
ghost use Rattle.tx_pass.specs.Passing.{AreDrained, IsDrain};

use crate::kept::Kept;
use crate::outlet::Outlet;
use crate::room::TxKept;
use desc_ring::Head;
use entry_throttle::marks_pass;
use nf_registry::Registry;
use onvm_base::{FnId, NoMemory, Plan, Records, SentFrames};
use onvm_board::{Board, Token};
use onvm_promises::Pass;

/// The role that moves what functions have handled.
#[derive(Drop)]
pub struct TxRole {
    pub(crate) number: u8,
    // The heads of all output rings, by function. The role uses those that it reads.
    pub(crate) heads: Vec<Head>,
    pub(crate) outlet: Outlet,
}

impl TxRole {
    ghost use Rattle.tx_pass.specs.Roles.{IsInOrder, IsTxRole, keeps_of};

    /// One pass at the moment `now`, in nanoseconds: a marks pass, and then moves of a burst of frames of
    /// each output ring that the role reads, and of fewer only up to where it was empty.
    ///
    /// Wanting comes before the first step: then nothing was done, and the next pass goes on from there.
    pub fn pass(
        &mut self,
        token: &mut Token,
        board: &Board,
        plan: &Plan,
        registry: &Registry,
        now: u64,
    ) -> Pass
        requires role { IsTxRole board.now plan.now token.old self.old }
        requires registry { registry.now ≡ plan.now }
        ensures promise { (entries : List Entry) (moment : ℕ → ℕ)
            → IsInOrder (setting_of board.now.layout plan.now entries) token.old.role moment token.old.log self.old
            → IsSendPromise (setting_of board.now.layout plan.now entries) token.old.role now moment
            token.old.log token.new.log (keeps_of self.new) result }
        ensures in_order { (entries : List Entry) (moment : ℕ → ℕ)
            → IsInOrder (setting_of board.now.layout plan.now entries) token.old.role moment token.old.log self.old
            → IsInOrder (setting_of board.now.layout plan.now entries) token.old.role
            (moment_then moment (length token.old.log) now) token.new.log self.new }
        ensures role { IsTxRole board.now plan.now token.new self.new }
        ensures same { (token.new.board ≡ token.old.board) × (token.new.role ≡ token.old.role) }

        // Where memory is wanting, nothing was stepped and nothing came to the lists.
        ensures unstepped { result ≡ Wanting → token.new ≡ token.old }
        ensures unchanged { result ≡ Wanting → keeps_of self.new ≡ keeps_of self.old }
        ensures never_stopped { result ≢ Stopped }
    {
        let rings = self.heads.len();
        if self.reserve(rings * plan.burst as usize).is_err() {
            return Pass::Wanting;
        }
        marks_pass(&mut self.outlet.feeder, board, token, now);
        let moved = self.drain_all(token, board, plan, registry, now);
        if moved == 0 {
            Pass::Idle
        } else {
            Pass::Did(moved)
        }
    }

    // Makes room for a post, and for so many more records and sent frames.
    fn reserve(&mut self, most: usize) -> Result<(), NoMemory>
        ensures kept { keeps_of self.new ≡ keeps_of self.old }
        ensures feeder { self.new.outlet.feeder ≡ record self.old.outlet.feeder { room = self.new.outlet.feeder.room } }
        ensures post { OnOk result (1 ≤ self.new.outlet.feeder.room) }
        ensures room { OnOk result (HasRoom most self.new.outlet.kept) }
        ensures ends { (self.new.heads ≡ self.old.heads) × (self.new.outlet.lanes ≡ self.old.outlet.lanes)
            × (self.new.number ≡ self.old.number) }
    {
        self.outlet.feeder.reserve()?;
        self.outlet.kept.reserve(most)?;
        Ok(())
    }

    // Drains the output ring of a function that the role reads.
    fn drain_at(
        &mut self,
        token: &mut Token,
        board: &Board,
        plan: &Plan,
        registry: &Registry,
        f: u8,
        now: u64,
    ) -> u16
        requires plan { IsLayoutOf plan.now board.now.layout }
        requires registry { registry.now ≡ plan.now }
        requires known { f < board.now.layout.functions }
        requires own { consumer board.now.layout (Output (record { 0 = f })) ≡ token.old.role }
        requires heads { AreHeads board.now self.old.heads.items token.old }
        requires outlet { IsOutletOf board.now self.old.outlet token.old }
        requires empty_handed { token.old.hand ≡ [] }
        requires room { HasRoom plan.now.burst self.old.outlet.kept }
        ensures moved { IsDrain board.now plan.now now (record { 0 = f }) result (nat_lt result plan.now.burst)
            token.old token.new self.old.outlet self.new.outlet }
        ensures few { result ≤ plan.now.burst }
        ensures heads { AreHeads board.now self.new.heads.items token.new }
        ensures outlet { IsOutletOf board.now self.new.outlet token.new }
        ensures room { (n : ℕ) → HasRoom (n + plan.now.burst) self.old.outlet.kept → HasRoom n self.new.outlet.kept }
        ensures number { self.new.number ≡ self.old.number }
    {
        let head = &mut self.heads[f as usize];
        self.outlet
            .drain(head, board, token, plan, registry, FnId(f), now)
    }

    // Drains the output rings that the role reads, in order. Says how many parcels were moved.
    fn drain_all(
        &mut self,
        token: &mut Token,
        board: &Board,
        plan: &Plan,
        registry: &Registry,
        now: u64,
    ) -> u32
        requires plan { IsLayoutOf plan.now board.now.layout }
        requires registry { registry.now ≡ plan.now }
        requires number { token.old.role ≡ self.old.number }
        requires heads { AreHeads board.now self.old.heads.items token.old }
        requires outlet { IsOutletOf board.now self.old.outlet token.old }
        requires empty_handed { token.old.hand ≡ [] }
        requires room { HasRoom (board.now.layout.functions * plan.now.burst) self.old.outlet.kept }
        ensures drained { AreDrained board.now plan.now now board.now.layout.functions result token.old token.new
            self.old.outlet self.new.outlet }
        ensures heads { AreHeads board.now self.new.heads.items token.new }
        ensures outlet { IsOutletOf board.now self.new.outlet token.new }
        ensures number { self.new.number ≡ self.old.number }
    {
        let rings = plan.functions.len() as u8;
        let mut moved = 0;
        for f in 0..rings {
            if plan.ports + f % plan.transmit != self.number {
                continue;
            }
            moved += u32::from(self.drain_at(token, board, plan, registry, f, now));
        }
        moved
    }

    /// How many records it has made.
    pub fn recorded(&self) -> u64
        ensures { result ≡ length (keeps_of self.now).outcomes.records }
    {
        self.outlet.kept.records.len() as u64
    }

    /// What it has kept.
    pub fn end(self) -> TxKept
        ensures records { result.records ≡ (keeps_of self).outcomes.records }
        ensures sent { result.sent ≡ (keeps_of self).outcomes.sent }
        ensures posts { result.posts ≡ (keeps_of self).posts }
    {
        let outlet = self.outlet;
        let Kept { records, sent } = outlet.kept;
        TxKept {
            records: Records::from_vec(records),
            sent: SentFrames::from_vec(sent),
            posts: outlet.feeder.end(),
        }
    }
}

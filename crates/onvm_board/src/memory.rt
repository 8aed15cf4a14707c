//! The words and slots of a board, and one atomic operation on one word.
ghost use Rattle.std.specs.Prelude.{◌≡◌, ℕ, ◌+◌, ◌*◌, ◌/◌, ◌%◌, ◌^◌, ◌==◌, ◌<◌, []};
ghost use Rattle.std.specs.Prelude.{bit_and, bit_or};
ghost use Rattle.std.specs.Int.{bit_not, w64};
ghost use prog.Atomic.{either};
ghost use Rattle.atomic_table.specs.Table.{Allows as TableAllows, Joins, Splits};
ghost use Rattle.onvm_core.specs.Layouts.{IsBuffer, IsLayout, IsRing, IsWord, bit_of, word_of};
ghost use Rattle.onvm_core.specs.declared.layout.Word.TheVariants.{Cell};
ghost use Rattle.onvm_core.specs.declared.step.Act.TheVariants.{Split as SplitAct};
ghost use Rattle.onvm_board.specs.Addresses.{address, cell_address, word_count, slot_count};
ghost use Rattle.onvm_board.specs.Regions.{IsRegions};
ghost use Rattle.onvm_board.specs.Rule.{HasHistory, view_after_join, view_after, spent_view, split_view};

use crate::ask::Ask;
use crate::regions::Regions;
use crate::rule::{BoardRule, JoinViews, SplitRole, SplitView, StepFact, TellsFact};
use crate::spot::Spot;
use crate::view::View;
use atomic_table::{Seat, Table};
use onvm_base::{BufId, FrameId, Outcome, PortId, RingId, WORD_BITS};
use onvm_core::{Layout, Parcel, Word};
use std::alloc::Global;

/// A board as its steps see it.
#[derive(Drop)]
pub(crate) struct Memory {
    pub(crate) layout: Layout,
    pub(crate) regions: Regions,
    pub(crate) table: Table<Option<Parcel>, View, Layout, BoardRule, Global>,
    ghost ranges: { IsLayout layout },
    ghost placed: { IsRegions layout regions },
    ghost keyed: { table.shared.key ≡ layout },
    ghost worded: { table.shared.table_id.words ≡ word_count layout },
    ghost slotted: { table.shared.table_id.slots ≡ slot_count layout },
}

impl Memory {
    // The word of the table that stands for a word of the board.
    fn word(&self, word: Word) -> usize
        requires known { IsWord self.now.layout word }
        ensures at { result ≡ address self.now.layout word }
        ensures within { result < self.now.table.shared.table_id.words }
    {
        self.regions.word(&self.layout, word)
    }

    // The word of a cell.
    fn cell(&self, spot: Spot) -> usize
        requires known { IsWord self.now.layout (Cell spot.ring spot.cell) }
        requires based { spot.base ≡ cell_address self.now.layout spot.ring 0 }
        ensures at { result ≡ address self.now.layout (Cell spot.ring spot.cell) }
        ensures within { result < self.now.table.shared.table_id.words }
    {
        spot.base as usize + spot.cell as usize
    }

    /// The word of a ring's first cell.
    pub(crate) fn base(&self, ring: RingId) -> u32
        requires known { IsRing self.now.layout ring }
        ensures { result ≡ cell_address self.now.layout ring 0 }
    {
        self.regions.cell(&self.layout, ring, 0) as u32
    }

    /// A pop: the cell becomes 0.
    pub(crate) fn swap<F: StepFact>(&self, seat: &mut Seat<Option<Parcel>, View>, spot: Spot) -> u64
        requires table { seat.old.table_id ≡ self.now.table.shared.table_id }
        requires known { IsWord self.now.layout (Cell spot.ring spot.cell) }
        requires based { spot.base ≡ cell_address self.now.layout spot.ring 0 }
        requires allowed { TableAllows (HasHistory self.now.layout) self.now.table.shared.table_id.slots
            seat.old.id seat.old.me (address self.now.layout (Cell spot.ring spot.cell))
            (λ _. 0) (F.tells seat.old.me) }
        ensures table { seat.new.table_id ≡ seat.old.table_id }
        ensures told { F.tells seat.old.me result seat.new.me }
    {
        let word = self.cell(spot);
        self.table.shared.swap::<TellsFact<F>>(seat, word, 0)
    }

    /// A push of a number: the cell becomes the number where it is 0.
    pub(crate) fn exchange_number<F: StepFact>(
        &self,
        seat: &mut Seat<Option<Parcel>, View>,
        spot: Spot,
        value: u64,
    ) -> u64
        requires table { seat.old.table_id ≡ self.now.table.shared.table_id }
        requires known { IsWord self.now.layout (Cell spot.ring spot.cell) }
        requires based { spot.base ≡ cell_address self.now.layout spot.ring 0 }
        requires allowed { TableAllows (HasHistory self.now.layout) self.now.table.shared.table_id.slots
            seat.old.id seat.old.me (address self.now.layout (Cell spot.ring spot.cell))
            (λ n. either (n == 0) value n)
            (F.tells seat.old.me) }
        ensures table { seat.new.table_id ≡ seat.old.table_id }
        ensures told { F.tells seat.old.me result seat.new.me }
    {
        let word = self.cell(spot);
        self.table
            .shared
            .compare_exchange::<TellsFact<F>>(seat, word, 0, value)
    }

    /// A push of a buffer: the cell becomes the buffer's number plus 1 where it is 0.
    pub(crate) fn exchange_buffer<F: StepFact>(
        &self,
        seat: &mut Seat<Option<Parcel>, View>,
        spot: Spot,
        buf: BufId,
    ) -> u64
        requires table { seat.old.table_id ≡ self.now.table.shared.table_id }
        requires known { IsWord self.now.layout (Cell spot.ring spot.cell) }
        requires based { spot.base ≡ cell_address self.now.layout spot.ring 0 }
        requires allowed { TableAllows (HasHistory self.now.layout) self.now.table.shared.table_id.slots
            seat.old.id seat.old.me (address self.now.layout (Cell spot.ring spot.cell))
            (λ n. either (n == 0) (buf.0 + 1) n)
            (F.tells seat.old.me) }
        ensures table { seat.new.table_id ≡ seat.old.table_id }
        ensures told { F.tells seat.old.me result seat.new.me }
    {
        let word = self.cell(spot);
        self.table
            .shared
            .compare_exchange::<TellsFact<F>>(seat, word, 0, buf.0 as u64 + 1)
    }

    /// A look.
    pub(crate) fn load<F: StepFact>(&self, seat: &mut Seat<Option<Parcel>, View>, word: Word) -> u64
        requires table { seat.old.table_id ≡ self.now.table.shared.table_id }
        requires known { IsWord self.now.layout word }
        requires allowed { TableAllows (HasHistory self.now.layout) self.now.table.shared.table_id.slots
            seat.old.id seat.old.me (address self.now.layout word) (λ n. n) (F.tells seat.old.me) }
        ensures table { seat.new.table_id ≡ seat.old.table_id }
        ensures told { F.tells seat.old.me result seat.new.me }
    {
        let at = self.word(word);
        self.table.shared.load::<TellsFact<F>>(seat, at)
    }

    /// A look that may record a frame. What it asks is the step's.
    pub(crate) fn load_judged<F: StepFact>(
        &self,
        seat: &mut Seat<Option<Parcel>, View>,
        word: Word,
        frame: FrameId,
        ask: Ask,
    ) -> u64
        requires table { seat.old.table_id ≡ self.now.table.shared.table_id }
        requires known { IsWord self.now.layout word }
        requires allowed { TableAllows (HasHistory self.now.layout) self.now.table.shared.table_id.slots
            seat.old.id seat.old.me (address self.now.layout word) (λ n. n) (F.tells seat.old.me) }
        ensures table { seat.new.table_id ≡ seat.old.table_id }
        ensures told { F.tells seat.old.me result seat.new.me }
    {
        let _ = frame;
        let _ = ask;
        let at = self.word(word);
        self.table.shared.load::<TellsFact<F>>(seat, at)
    }

    /// A post: the word becomes `value`.
    pub(crate) fn store<F: StepFact>(
        &self,
        seat: &mut Seat<Option<Parcel>, View>,
        word: Word,
        value: u64,
    )
        requires table { seat.old.table_id ≡ self.now.table.shared.table_id }
        requires known { IsWord self.now.layout word }
        requires allowed { TableAllows (HasHistory self.now.layout) self.now.table.shared.table_id.slots
            seat.old.id seat.old.me (address self.now.layout word)
            (λ _. value) (λ _. F.tells seat.old.me value) }
        ensures table { seat.new.table_id ≡ seat.old.table_id }
        ensures told { F.tells seat.old.me value seat.new.me }
    {
        let at = self.word(word);
        self.table.shared.store::<TellsFact<F>>(seat, at, value)
    }

    // The bit of a buffer in its word of the pool.
    fn bit(&self, buf: BufId) -> u32
        requires known { IsBuffer self.now.layout buf.0 }
        ensures { result ≡ bit_of self.now.layout buf.0 }
    {
        let (_, left) = parted(buf.0, self.layout.buffers);
        (left % WORD_BITS) as u32
    }

    // The word of the pool that has a buffer's bit.
    fn pool_word(&self, buf: BufId) -> usize
        requires known { IsBuffer self.now.layout buf.0 }
        ensures at { result ≡ address self.now.layout (word_of self.now.layout buf.0) }
        ensures within { result < self.now.table.shared.table_id.words }
    {
        let (port, left) = parted(buf.0, self.layout.buffers);
        let port = PortId(port as u8);
        let index = (left / WORD_BITS) as u8;
        self.word(Word::Pool { port, index })
    }

    /// A take: the buffer's bit goes out of its word.
    pub(crate) fn clear_bit<F: StepFact>(&self, seat: &mut Seat<Option<Parcel>, View>, buf: BufId)
        requires table { seat.old.table_id ≡ self.now.table.shared.table_id }
        requires known { IsBuffer self.now.layout buf.0 }
        requires allowed { TableAllows (HasHistory self.now.layout) self.now.table.shared.table_id.slots
            seat.old.id seat.old.me (address self.now.layout (word_of self.now.layout buf.0))
            (λ n. bit_and n (bit_not w64 (1 * 2 ^ bit_of self.now.layout buf.0 % 2 ^ 64)))
            (F.tells seat.old.me) }
        ensures table { seat.new.table_id ≡ seat.old.table_id }
        ensures told { (found : ℕ) × F.tells seat.old.me found seat.new.me }
    {
        let word = self.pool_word(buf);
        let bit = self.bit(buf);
        self.table
            .shared
            .fetch_and::<TellsFact<F>>(seat, word, !(1 << bit));
    }

    /// A give: the buffer's bit comes into its word. The outcome and the parcel are the step's.
    pub(crate) fn set_bit<F: StepFact>(
        &self,
        seat: &mut Seat<Option<Parcel>, View>,
        buf: BufId,
        outcome: Outcome,
        parcel: &Parcel,
    )
        requires table { seat.old.table_id ≡ self.now.table.shared.table_id }
        requires known { IsBuffer self.now.layout buf.0 }
        requires allowed { TableAllows (HasHistory self.now.layout) self.now.table.shared.table_id.slots
            seat.old.id seat.old.me (address self.now.layout (word_of self.now.layout buf.0))
            (λ n. bit_or n (1 * 2 ^ bit_of self.now.layout buf.0 % 2 ^ 64))
            (F.tells seat.old.me) }
        ensures table { seat.new.table_id ≡ seat.old.table_id }
        ensures told { (found : ℕ) × F.tells seat.old.me found seat.new.me }
    {
        let _ = outcome;
        let _ = parcel;
        let word = self.pool_word(buf);
        let bit = self.bit(buf);
        self.table
            .shared
            .fetch_or::<TellsFact<F>>(seat, word, 1 << bit);
    }

    /// A split: word 0, and a new seat.
    pub(crate) fn split<F: SplitRole>(
        &self,
        seat: &mut Seat<Option<Parcel>, View>,
        role: u32,
    ) -> Seat<Option<Parcel>, View>
        requires named { F.role ≡ role }
        requires table { seat.old.table_id ≡ self.now.table.shared.table_id }
        requires allowed { Splits (HasHistory self.now.layout) seat.old.id seat.old.me.0
            (view_after (SplitAct role) seat.old.me.0) (split_view role seat.old.me.0) }
        ensures table { (seat.new.table_id ≡ seat.old.table_id) × (result.table_id ≡
            seat.old.table_id) }
        ensures first { seat.new.me ≡ (view_after (SplitAct role) seat.old.me.0, seat.old.me.1) }
        ensures other { result.me ≡ (split_view role seat.old.me.0, []) }
    {
        let _ = role;
        self.table.shared.split_seat::<SplitView<F>>(seat)
    }

    /// A join: word 0, and one seat less.
    pub(crate) fn join(
        &self,
        seat: &mut Seat<Option<Parcel>, View>,
        other: Seat<Option<Parcel>, View>,
    )
        requires table { (seat.old.table_id ≡ self.now.table.shared.table_id)
            × (other.table_id ≡ self.now.table.shared.table_id) }
        requires empty { other.me.1 ≡ [] }
        requires allowed { Joins (HasHistory self.now.layout) seat.old.id seat.old.me.0 other.id
            other.me.0
            (view_after_join seat.old.me.0 other.me.0) spent_view }
        ensures table { seat.new.table_id ≡ seat.old.table_id }
        ensures first { seat.new.me ≡ (view_after_join seat.old.me.0 other.me.0, seat.old.me.1) }
    {
        self.table.shared.join_seat::<JoinViews>(seat, other);
    }
}

// The port of a buffer and the buffer's number there, without a division where there are few ports.
fn parted(buf: u16, buffers: u16) -> (u16, u16)
    requires some { 0 < buffers }
    ensures port { result.0 ≡ buf / buffers }
    ensures left { result.1 ≡ buf % buffers }
{
    if buf < buffers {
        return (0, buf);
    }
    let second = buf - buffers;
    if second < buffers {
        return (1, second);
    }
    let third = second - buffers;
    if third < buffers {
        return (2, third);
    }
    let fourth = third - buffers;
    if fourth < buffers {
        return (3, fourth);
    }
    (buf / buffers, buf % buffers)
}

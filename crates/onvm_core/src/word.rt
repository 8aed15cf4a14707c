//! The values of words.
ghost use Rattle.std.specs.Prelude.{◌≡◌, ◌↔◌, ◌<◌, ◌≤◌, IsTrue, length, reverse};
ghost use Rattle.onvm_base.specs.declared.limits.TheConstants.{WORD_BITS};
ghost use Rattle.onvm_core.specs.Layouts.{IsLayout, IsWord};
ghost use Rattle.onvm_core.specs.History.{content_of, popped_from};
ghost use Rattle.onvm_core.specs.Words.{is_free, pool_bits, number_in_cell, value_of};

use crate::item::{item_at, number_of};
use crate::layout::{Layout, Word};
use crate::place::Place;
use crate::rings::{is_ring, ring_size};
use crate::scan::{place_of, posted_on, ring_counts};
use crate::step::Step;
use onvm_base::{BufId, PortId, RingId, WORD_BITS};

pub fn is_word(layout: &Layout, word: Word) -> bool
    ensures { IsTrue result ↔ IsWord layout.now word }
{
    match word {
        Word::Pool { port, index } => port.0 < layout.ports
            && WORD_BITS * (index as u16) < layout.buffers,
        Word::Cell { ring, at } => is_ring(layout, ring) && at < ring_size(layout, ring),
        Word::Post(feeder) => (feeder as u16) < layout.ports as u16 + layout.transmit as u16,
        Word::Weight(f) => f.0 < layout.functions,
    }
}

// Whether the pool has the buffer of this bit of a word of its part.
fn is_free(layout: &Layout, steps: &[Step], port: PortId, index: u8, bit: u16) -> bool
    requires ranges { IsLayout layout.now }
    requires known { IsWord layout.now (Word.Pool port index) }
    requires within { bit < WORD_BITS }
    ensures { result ≡ is_free layout.now (reverse steps.now) port.0 index bit }
{
    let at = WORD_BITS * index as u16 + bit;
    let buf = BufId(port.0 as u16 * layout.buffers + at);
    at < layout.buffers && matches!(place_of(steps, buf), Place::Pool)
}

// The bits of a pool word.
#[tactic(auto, unfolding(crate::specs::Words::pool_bits))]
fn pool_value(layout: &Layout, steps: &[Step], port: PortId, index: u8) -> u64
    requires ranges { IsLayout layout.now }
    requires known { IsWord layout.now (Word.Pool port index) }
    ensures { result ≡ pool_bits layout.now (reverse steps.now) port.0 index }
{
    let mut value: u64 = 0;
    for bit in 0..WORD_BITS {
        if is_free(layout, steps, port, index, bit) {
            value += 1 << bit;
        }
    }
    value
}

// What stands in a cell.
fn cell_value(steps: &[Step], ring: RingId, size: u16, at: u16) -> u64
    requires { 1 ≤ size }
    ensures { result ≡ number_in_cell size at
        (length (popped_from ring (reverse steps.now))) (content_of ring (reverse steps.now)) }
{
    let (pushed, popped) = ring_counts(steps, ring);
    for k in popped..pushed {
        if k % size as usize == at as usize {
            return match item_at(steps, ring, k) {
                Some(item) => number_of(item),
                None => 0,
            };
        }
    }
    0
}

pub fn value_of(layout: &Layout, steps: &[Step], word: Word) -> u64
    requires ranges { IsLayout layout.now }
    requires known { IsWord layout.now word }
    ensures { result ≡ value_of layout.now (reverse steps.now) word }
{
    match word {
        Word::Pool { port, index } => pool_value(layout, steps, port, index),
        Word::Cell { ring, at } => cell_value(steps, ring, ring_size(layout, ring), at),
        Word::Post(_) => posted_on(steps, word),
        Word::Weight(_) => posted_on(steps, word),
    }
}

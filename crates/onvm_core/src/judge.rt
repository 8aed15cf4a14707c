//! Which step a list of steps allows next.
ghost use Rattle.std.specs.Prelude.{◌≡◌, ◌↔◌, IsTrue, reverse};
ghost use Rattle.onvm_core.specs.History.{is_live};
ghost use Rattle.onvm_core.specs.Layouts.{IsBuffer, IsLayout, IsRing, first_role};
ghost use Rattle.onvm_core.specs.Lawful.{Allows, AllowsAct, AllowsEmpty, AllowsFull, AllowsGive, AllowsJoin, AllowsLook, AllowsPop, AllowsPost, AllowsPush, AllowsSplit, AllowsTake, Holds, HoldsNothing, NamesRing, NamesRingIn, Showed, Suits, part_of};

use crate::item::{item_at, same_item};
use crate::layout::{Layout, Word};
use crate::place::Place;
use crate::rings::{consumer, is_ring, producer, ring_size, tick_role};
use crate::scan::{is_split, latest_look, place_of, post_count, ring_counts, same_word};
use crate::step::{Act, Item, Step};
use crate::word::{is_word, value_of};
use onvm_base::{BufId, MAX_HOPS, Outcome, PortId, Record, RingId, WORD_BITS};

fn first_role(layout: &Layout) -> u32
    ensures { result ≡ first_role layout.now }
{
    tick_role(layout) + 1
}

pub fn is_live(layout: &Layout, steps: &[Step], role: u32) -> bool
    ensures { result ≡ is_live layout.now role (reverse steps.now) }
{
    role == first_role(layout) || is_split(steps, role)
}

pub fn is_buffer(layout: &Layout, buf: BufId) -> bool
    ensures { IsTrue result ↔ IsBuffer layout.now buf.0 }
{
    (buf.0 as u32) < layout.ports as u32 * layout.buffers as u32
}

fn is_role(place: Place, role: u32) -> bool
    ensures { IsTrue result ↔ (place ≡ Place.Role role) }
{
    match place {
        Place::Role(holder) => holder == role,
        _ => false,
    }
}

fn holds(layout: &Layout, steps: &[Step], role: u32, buf: BufId) -> bool
    ensures { IsTrue result ↔ Holds layout.now (reverse steps.now) role buf.0 }
{
    is_buffer(layout, buf) && is_role(place_of(steps, buf), role)
}

fn holds_nothing(layout: &Layout, steps: &[Step], role: u32) -> bool
    requires { IsLayout layout.now }
    ensures { IsTrue result ↔ HoldsNothing layout.now (reverse steps.now) role }
{
    for buf in 0..layout.ports as u16 * layout.buffers {
        if is_role(place_of(steps, BufId(buf)), role) {
            return false;
        }
    }
    true
}

fn allows_split(layout: &Layout, steps: &[Step], role: u32, other: u32) -> bool
    ensures { IsTrue result ↔ AllowsSplit layout.now (reverse steps.now) role other }
{
    role == first_role(layout) && other < first_role(layout) && !is_live(layout, steps, other)
}

fn allows_join(layout: &Layout, steps: &[Step], role: u32, other: u32) -> bool
    requires { IsLayout layout.now }
    ensures { IsTrue result ↔ AllowsJoin layout.now (reverse steps.now) role other }
{
    role == first_role(layout)
        && other != first_role(layout)
        && is_live(layout, steps, other)
        && holds_nothing(layout, steps, other)
}

fn showed(layout: &Layout, buf: BufId, look: Option<(Word, u64)>) -> bool
    requires ranges { IsLayout layout.now }
    requires known { IsBuffer layout.now buf.0 }
    ensures { IsTrue result ↔ Showed layout.now buf.0 look }
{
    let Some((word, seen)) = look else {
        return false;
    };
    let port = PortId((buf.0 / layout.buffers) as u8);
    let at = buf.0 % layout.buffers;
    let own = Word::Pool {
        port,
        index: (at / WORD_BITS) as u8,
    };
    same_word(word, own) && seen & (1 << (at % WORD_BITS)) != 0
}

fn allows_take(layout: &Layout, steps: &[Step], role: u32, buf: BufId) -> bool
    requires { IsLayout layout.now }
    ensures { IsTrue result ↔ AllowsTake layout.now (reverse steps.now) role buf.0 }
{
    is_buffer(layout, buf)
        && matches!(place_of(steps, buf), Place::Pool)
        && role == (buf.0 / layout.buffers) as u32
        && showed(layout, buf, latest_look(steps, role))
}

// Whether a ring that the outcome names is the layout's.
fn names_ring(layout: &Layout, outcome: &Outcome) -> bool
    ensures { IsTrue result ↔ NamesRing layout.now outcome.now }
{
    match outcome {
        Outcome::RingFull { ring } => is_ring(layout, *ring),
        _ => true,
    }
}

fn allows_give(layout: &Layout, steps: &[Step], role: u32, buf: BufId, outcome: &Outcome) -> bool
    ensures { IsTrue result ↔ AllowsGive layout.now (reverse steps.now) role buf.0 outcome.now }
{
    holds(layout, steps, role, buf) && names_ring(layout, outcome)
}

// Whether the ring takes the item from the role.
fn suits(layout: &Layout, steps: &[Step], role: u32, ring: RingId, item: &Item) -> bool
    ensures { IsTrue result ↔ Suits layout.now (reverse steps.now) role ring item.now }
{
    match (ring, item) {
        (RingId::Lane(_, _), Item::Buffer(buf, parcel)) => holds(layout, steps, role, *buf)
            && parcel.trail.len() < MAX_HOPS,
        (RingId::Output(_), Item::Buffer(buf, parcel)) => holds(layout, steps, role, *buf)
            && 1 <= parcel.trail.len(),
        (RingId::Mail(_), Item::Number(_)) => true,
        _ => false,
    }
}

fn allows_push(layout: &Layout, steps: &[Step], role: u32, ring: RingId, item: &Item) -> bool
    requires { IsLayout layout.now }
    ensures { IsTrue result ↔ AllowsPush layout.now (reverse steps.now) role ring item.now }
{
    if !is_ring(layout, ring) {
        return false;
    }
    let (pushed, popped) = ring_counts(steps, ring);
    role == producer(layout, ring)
        && pushed.saturating_sub(popped) < ring_size(layout, ring) as usize
        && suits(layout, steps, role, ring, item)
}

fn allows_full(layout: &Layout, steps: &[Step], role: u32, ring: RingId) -> bool
    requires { IsLayout layout.now }
    ensures { IsTrue result ↔ AllowsFull layout.now (reverse steps.now) role ring }
{
    if !is_ring(layout, ring) {
        return false;
    }
    let (pushed, popped) = ring_counts(steps, ring);
    role == producer(layout, ring)
        && pushed.saturating_sub(popped) == ring_size(layout, ring) as usize
}

fn allows_pop(layout: &Layout, steps: &[Step], role: u32, ring: RingId, item: &Item) -> bool
    requires { IsLayout layout.now }
    ensures { IsTrue result ↔ AllowsPop layout.now (reverse steps.now) role ring item.now }
{
    if !is_ring(layout, ring) {
        return false;
    }
    let (_, popped) = ring_counts(steps, ring);
    match item_at(steps, ring, popped) {
        Some(first) => role == consumer(layout, ring) && same_item(first, item),
        None => false,
    }
}

#[tactic(auto, using(crate::proofs::Scanned::nothing_left))]
fn allows_empty(layout: &Layout, steps: &[Step], role: u32, ring: RingId) -> bool
    requires { IsLayout layout.now }
    ensures { IsTrue result ↔ AllowsEmpty layout.now (reverse steps.now) role ring }
{
    if !is_ring(layout, ring) {
        return false;
    }
    let (pushed, popped) = ring_counts(steps, ring);
    role == consumer(layout, ring) && pushed <= popped
}

fn names_ring_in(layout: &Layout, told: &Option<Record>) -> bool
    ensures { IsTrue result ↔ NamesRingIn layout.now told.now }
{
    match told {
        Some(told) => names_ring(layout, &told.outcome),
        None => true,
    }
}

fn allows_look(
    layout: &Layout,
    steps: &[Step],
    word: Word,
    seen: u64,
    told: &Option<Record>,
) -> bool
    requires { IsLayout layout.now }
    ensures { IsTrue result ↔ AllowsLook layout.now (reverse steps.now) word seen told.now }
{
    is_word(layout, word) && seen == value_of(layout, steps, word) && names_ring_in(layout, told)
}

fn allows_post(layout: &Layout, steps: &[Step], role: u32, word: Word, new: u64) -> bool
    ensures { IsTrue result ↔ AllowsPost layout.now (reverse steps.now) role word new }
{
    match word {
        Word::Post(feeder) => is_word(layout, word)
            && role == feeder as u32
            && ((new >> 32) as usize).checked_sub(1) == Some(post_count(steps, word)),
        Word::Weight(_) => is_word(layout, word) && role == tick_role(layout),
        _ => false,
    }
}

fn allows_act(layout: &Layout, steps: &[Step], role: u32, act: &Act) -> bool
    requires { IsLayout layout.now }
    ensures { IsTrue result ↔ AllowsAct layout.now (reverse steps.now) role act.now }
{
    match act {
        Act::Split(other) => allows_split(layout, steps, role, *other),
        Act::Join(other) => allows_join(layout, steps, role, *other),
        Act::Take(buf) => allows_take(layout, steps, role, *buf),
        Act::Give(buf, outcome, _) => allows_give(layout, steps, role, *buf, outcome),
        Act::Push(ring, item) => allows_push(layout, steps, role, *ring, item),
        Act::Full(ring) => allows_full(layout, steps, role, *ring),
        Act::Pop(ring, item) => allows_pop(layout, steps, role, *ring, item),
        Act::Empty(ring) => allows_empty(layout, steps, role, *ring),
        Act::Look(word, seen, told) => allows_look(layout, steps, *word, *seen, told),
        Act::Post(word, new) => allows_post(layout, steps, role, *word, *new),
    }
}

pub fn allows(layout: &Layout, steps: &[Step], step: &Step) -> bool
    requires { IsLayout layout.now }
    ensures { IsTrue result ↔ Allows layout.now (reverse steps.now) step.now }
{
    is_live(layout, steps, step.role) && allows_act(layout, steps, step.role, &step.act)
}

// The part of the rules that an act falls under.
pub fn part_of(act: &Act) -> u8
    ensures { result ≡ part_of act.now }
{
    match act {
        Act::Split(_) | Act::Join(_) => 1,
        Act::Take(_) => 2,
        Act::Give(_, _, _) => 3,
        Act::Push(_, _) | Act::Full(_) => 4,
        Act::Pop(_, _) | Act::Empty(_) => 5,
        Act::Look(_, _, _) => 6,
        Act::Post(_, _) => 7,
    }
}

//! What a list of steps, the oldest first, leaves.
ghost use Rattle.std.specs.Prelude.{◌≡◌, length, reverse};
ghost use Rattle.onvm_core.specs.Layouts.{same_ring, same_word};
ghost use Rattle.onvm_core.specs.History.{is_split, latest_look, place_of, popped_from, post_count, posted_on, pushed_on, place_by, split_after};

use crate::layout::Word;
use crate::place::Place;
use crate::step::{Act, Item, Step};
use onvm_base::{BufId, RingId};

pub fn same_ring(one: RingId, other: RingId) -> bool
    ensures { result ≡ same_ring one other }
{
    match (one, other) {
        (RingId::Lane(f, p), RingId::Lane(g, q)) => f.0 == g.0 && p == q,
        (RingId::Output(f), RingId::Output(g)) => f.0 == g.0,
        (RingId::Mail(f), RingId::Mail(g)) => f.0 == g.0,
        _ => false,
    }
}

pub fn same_word(one: Word, other: Word) -> bool
    ensures { result ≡ same_word one other }
{
    match (one, other) {
        (Word::Pool { port: p, index: i }, Word::Pool { port: q, index: j }) => p.0 == q.0
            && i == j,
        (Word::Cell { ring: r, at: a }, Word::Cell { ring: s, at: b }) => same_ring(r, s) && a == b,
        (Word::Post(m), Word::Post(n)) => m == n,
        (Word::Weight(f), Word::Weight(g)) => f.0 == g.0,
        _ => false,
    }
}

// Where a step puts the buffer, if it names it.
fn place_by(step: &Step, buf: BufId) -> Option<Place>
    ensures { result ≡ place_by buf.0 step.now.role step.now.act }
{
    let (named, there) = match &step.act {
        Act::Take(b) => (b, Place::Role(step.role)),
        Act::Give(b, _, _) => (b, Place::Pool),
        Act::Push(ring, Item::Buffer(b, _)) => (b, Place::Ring(*ring)),
        Act::Pop(_, Item::Buffer(b, _)) => (b, Place::Role(step.role)),
        _ => return None,
    };
    if named.0 == buf.0 { Some(there) } else { None }
}

// Where a buffer is after these steps.
pub fn place_of(steps: &[Step], buf: BufId) -> Place
    ensures { result ≡ place_of buf.0 (reverse steps.now) }
{
    let mut there = Place::Pool;
    for step in steps {
        if let Some(next) = place_by(step, buf) {
            there = next;
        }
    }
    there
}

// Whether an act leaves the role split, where it was so or not.
fn split_by(act: &Act, role: u32, was: bool) -> bool
    ensures { result ≡ split_after role act.now was }
{
    match act {
        Act::Split(r) if *r == role => true,
        Act::Join(r) if *r == role => false,
        _ => was,
    }
}

pub fn is_split(steps: &[Step], role: u32) -> bool
    ensures { result ≡ is_split role (reverse steps.now) }
{
    let mut split = false;
    for step in steps {
        split = split_by(&step.act, role, split);
    }
    split
}

// The word and the value of a role's latest look.
pub fn latest_look(steps: &[Step], role: u32) -> Option<(Word, u64)>
    ensures { result ≡ latest_look role (reverse steps.now) }
{
    let mut latest = None;
    for step in steps {
        if step.role == role {
            if let Act::Look(word, seen, _) = &step.act {
                latest = Some((*word, *seen));
            }
        }
    }
    latest
}

// The value of a word's last post, 0 at first.
pub fn posted_on(steps: &[Step], word: Word) -> u64
    ensures { result ≡ posted_on word (reverse steps.now) }
{
    let mut last = 0;
    for step in steps {
        if let Act::Post(w, value) = &step.act {
            if same_word(*w, word) {
                last = *value;
            }
        }
    }
    last
}

// How many posts a word had.
pub fn post_count(steps: &[Step], word: Word) -> usize
    ensures { result ≡ post_count word (reverse steps.now) }
{
    let mut count: usize = 0;
    for step in steps {
        if let Act::Post(w, _) = &step.act {
            if same_word(*w, word) {
                count += 1;
            }
        }
    }
    count
}

// How many items were pushed on a ring, and how many were popped from it.
pub fn ring_counts(steps: &[Step], ring: RingId) -> (usize, usize)
    ensures pushed { result.0 ≡ length (pushed_on ring (reverse steps.now)) }
    ensures popped { result.1 ≡ length (popped_from ring (reverse steps.now)) }
{
    let mut pushed: usize = 0;
    let mut popped: usize = 0;
    for step in steps {
        match &step.act {
            Act::Push(r, _) if same_ring(*r, ring) => pushed += 1,
            Act::Pop(r, _) if same_ring(*r, ring) => popped += 1,
            _ => {}
        }
    }
    (pushed, popped)
}

//! Items of rings.
ghost use Rattle.std.specs.Prelude.{◌≡◌, ◌↔◌, ◌≤◌, IsTrue, IsNone, IfSome, length, reverse, slice_get};
ghost use Rattle.onvm_core.specs.History.{pushed_on};
ghost use Rattle.onvm_core.specs.Words.{number_of};

use crate::parcel::{Parcel, Trail};
use crate::scan::same_ring;
use crate::step::{Act, Item, Step};
use onvm_base::RingId;

fn same_trail(one: &Trail, other: &Trail) -> bool
    ensures { IsTrue result ↔ (one.now ≡ other.now) }
{
    if one.len() != other.len() {
        return false;
    }
    for at in 0..one.len() {
        if one.get(at) != other.get(at) {
            return false;
        }
    }
    true
}

fn same_parcel(one: &Parcel, other: &Parcel) -> bool
    ensures { IsTrue result ↔ (one.now ≡ other.now) }
{
    one.frame == other.frame
        && one.stamp == other.stamp
        && one.packet.bytes() == other.packet.bytes()
        && one.chain == other.chain
        && one.cursor == other.cursor
        && one.hash == other.hash
        && same_trail(&one.trail, &other.trail)
}

pub fn same_item(one: &Item, other: &Item) -> bool
    ensures { IsTrue result ↔ (one.now ≡ other.now) }
{
    match (one, other) {
        (Item::Buffer(b, p), Item::Buffer(c, q)) => *b == *c && same_parcel(p, q),
        (Item::Number(m), Item::Number(n)) => *m == *n,
        _ => false,
    }
}

// The item that was pushed on a ring after so many others.
pub fn item_at(steps: &[Step], ring: RingId, at: usize) -> Option<&Item>
    ensures none { IsNone result ↔ (length (pushed_on ring (reverse steps.now)) ≤ at) }
    ensures found { IfSome result (λ item.
        slice_get (pushed_on ring (reverse steps.now)) at ≡ Some item.now) }
{
    let mut seen: usize = 0;
    for step in steps {
        if let Act::Push(r, item) = &step.act {
            if same_ring(*r, ring) {
                if seen == at {
                    return Some(item);
                }
                seen += 1;
            }
        }
    }
    None
}

// What a cell shows of an item.
pub fn number_of(item: &Item) -> u64
    ensures { result ≡ number_of item.now }
{
    match item {
        Item::Buffer(b, _) => b.0 as u64 + 1,
        Item::Number(n) => *n,
    }
}

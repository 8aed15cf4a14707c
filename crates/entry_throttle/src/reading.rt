//! What a marks pass finds in the lanes.
ghost use Rattle.std.specs.Prelude.{◌≡◌, ◌≤◌, ◌<◌, IsTrue, length};
ghost use Rattle.std.specs.Bool.{OnFalse, OnTrue};
ghost use Rattle.onvm_base.specs.declared.limits.TheConstants.{MAX_FUNCTIONS};
ghost use Rattle.onvm_core.specs.Logs.{Setting};
ghost use Rattle.desc_ring.specs.Ends.{Finds, LeavesEnds};
ghost use Rattle.watermark.specs.Moments.{age_of};
ghost use Rattle.entry_throttle.specs.Feeders.{AreEach};
ghost use Rattle.entry_throttle.specs.Lanes.{AreOwnEnds, HasMarks, HasReadLanes, IsOwnEnd, KeepsEnough, OnlyLooked};
ghost use Rattle.entry_throttle.specs.Looks.{lane};
ghost use Rattle.entry_throttle.specs.Throttles.{ThrottleOthers, ThrottleTheSame};

use crate::throttles::differs_or;
use desc_ring::Tail;
use onvm_base::FnId;
use onvm_board::{Board, Spot, Token};
use watermark::{Ages, Mark, next};

// The marks of a plan, and how many cells its lanes have.
#[derive(Clone, Copy, Debug)]
pub(crate) struct Limits {
    pub(crate) high: u16,
    pub(crate) low: u16,
    // Nanoseconds.
    pub(crate) age: u64,
    pub(crate) ring: u16,
}

// Whether the lane of a function holds k. Before its first push it holds none, and is not looked at.
fn holds(
    function: FnId,
    end: Option<Spot>,
    size: u16,
    board: &Board,
    token: &mut Token,
    k: u16,
) -> bool
    requires size { size ≡ board.now.layout.ring }
    requires end { IsOwnEnd board.now (lane function.0 token.old.role) end token.old }
    requires k { (1 ≤ k) × (k ≤ size) }
    ensures finds { Finds board.now (lane function.0 token.old.role) k token.old token.new result }
    ensures ends { LeavesEnds board.now token.old token.new }
{
    // The contract alone names the lane: a spot knows its own.
    let _ = function;
    match end {
        Some(spot) => Tail { spot, size }.at_least(board, token, k),
        None => false,
    }
}

// The queuing time of a lane that holds the high mark.
fn age_if(high: bool, ages: &Ages, now: u64) -> u64
    requires { IsTrue high → length ages.now.moments ≡ ages.now.high }
    ensures { IsTrue high → result ≡ age_of now ages.now }
{
    if high { ages.age(now) } else { 0 }
}

// Reads each lane, and takes its mark on. Whether another set of functions is throttled then.
pub(crate) fn read_lanes(
    ends: &[Option<Spot>],
    ages: &[Ages],
    marks: &mut [Mark],
    limits: Limits,
    board: &Board,
    token: &mut Token,
    now: u64,
) -> bool
    requires limits { (1 ≤ limits.low) × (limits.low ≤ limits.high) × (limits.high ≤ limits.ring) }
    requires ring { limits.ring ≡ board.now.layout.ring }
    requires few { length ends.now ≤ MAX_FUNCTIONS }
    requires long { (length ends.now ≡ board.now.layout.functions)
        × (length ages.now ≡ board.now.layout.functions)
        × (length marks.old ≡ board.now.layout.functions) }
    requires ends { AreOwnEnds board.now ends.now token.old }
    requires enough { AreEach (λ f kept. KeepsEnough token.old f limits.high kept) ages.now }
    ensures read { (setting : Setting)
        → HasMarks setting board.now.layout limits.high limits.low limits.age
        → HasReadLanes setting token.old.role ages.now now board.now.layout.functions marks.old marks.new
        token.old.log token.new.log }
    ensures others { OnTrue result (ThrottleOthers marks.old marks.new) }
    ensures alike { OnFalse result (ThrottleTheSame marks.old marks.new) }
    ensures looked { OnlyLooked token.old token.new }
    ensures ends { AreOwnEnds board.now ends.now token.new }
    ensures leaves { LeavesEnds board.now token.old token.new }
{
    let mut changed = false;
    for f in 0..ends.len() {
        let function = FnId(f as u8);
        let high = holds(function, ends[f], limits.ring, board, token, limits.high);
        let low = holds(function, ends[f], limits.ring, board, token, limits.low);
        let age = age_if(high, &ages[f], now);
        let mark = next(marks[f], high, low, age, limits.age);
        changed = differs_or(changed, marks[f], mark);
        marks[f] = mark;
    }
    changed
}

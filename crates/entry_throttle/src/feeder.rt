//! A role that pushes on lanes, and its marks.
ghost use Rattle.std.specs.Prelude.{◌≡◌, ◌≤◌, ◌<◌, ◌⊎◌, false, true, length, IfOk, OnOk};
ghost use Rattle.std.specs.Bool.{OnFalse, OnTrue};
ghost use Rattle.onvm_base.specs.declared.limits.TheConstants.{LAST_POST};
ghost use Rattle.onvm_core.specs.declared.step.Act.TheVariants.{Push};
ghost use Rattle.onvm_core.specs.declared.step.Item.{Item};
ghost use Rattle.onvm_core.specs.Logs.{Setting};
ghost use Rattle.onvm_core.specs.Marks.{Ages as Answers};
ghost use Rattle.onvm_board.specs.Tokens.{BoardView, IsTail, MakesStep, TokenView};
ghost use Rattle.desc_ring.specs.Ends.{LeavesEnds};
ghost use Rattle.entry_throttle.specs.Looks.{lane};
ghost use Rattle.entry_throttle.specs.Feeders.{IsFeederOf, IsNewFeeder, IsReady, MadeMarksPass, pushed_on_lane};
ghost use Rattle.entry_throttle.specs.Throttles.{posted_bits};

use crate::post_word::value_of;
use crate::reading::{Limits, read_lanes};
use crate::throttles::set_of;
use onvm_base::{FnId, LAST_POST, NoMemory, Plan, Post, Posts};
use onvm_board::{Board, Spot, Token};
use onvm_core::Word;
use std::alloc::Global;
use std::marker::Model;
use watermark::{Ages, Mark};

/// What a feeder knows of its lanes, and its posts.
#[derive(Drop)]
pub struct Feeder {
    number: u8,
    limits: Limits,
    // By function: the lane's end, where something was pushed on it.
    ends: Vec<Option<Spot>>,
    ages: Vec<Ages>,
    marks: Vec<Mark>,
    posts: Vec<Post>,
}

impl Model for Feeder {
    ghost use Rattle.std.specs.Prelude.{◌-◌, length, vec_capacity};
    ghost use Rattle.entry_throttle.specs.Feeders.{AreFeederParts, FeederView};

    ghost Value = { FeederView };

    ghost view = { λ feeder. record {
      number = feeder.number;
      high = feeder.limits.high;
      low = feeder.limits.low;
      age = feeder.limits.age;
      ring = feeder.limits.ring;
      spots = feeder.ends.items;
      ages = feeder.ages.items;
      marks = feeder.marks.items;
      posts = feeder.posts.items;
      room = vec_capacity feeder.posts - length feeder.posts.items;
    } };

    ghost invariant = { λ feeder.
        AreFeederParts feeder.limits.high feeder.limits.low feeder.limits.ring feeder.ends.items feeder.ages.items
        feeder.marks.items feeder.posts.items };
}

impl Feeder {
    /// A feeder that has pushed and posted nothing. All room is taken here but that for posts.
    pub fn make(alloc: Global, plan: &Plan, number: u8) -> Result<Feeder, NoMemory>
        ensures { IfOk result (λ feeder. IsNewFeeder plan.now number feeder) }
    {
        let functions = plan.functions.len();
        let mut ends = Vec::with_capacity(alloc, functions)?;
        let mut ages = Vec::with_capacity(alloc, functions)?;
        let mut marks = Vec::with_capacity(alloc, functions)?;
        for _ in 0..functions {
            ends.push_reserved(None);
            ages.push_reserved(Ages::make(alloc, plan.high)?);
            marks.push_reserved(Mark::Calm);
        }
        Ok(Feeder {
            number,
            limits: Limits {
                high: plan.high,
                low: plan.low,
                age: plan.age,
                ring: plan.ring,
            },
            ends,
            ages,
            marks,
            posts: Vec::new(alloc),
        })
    }

    /// Takes note of a push on a function's lane: where the next one is, and its moment in
    /// nanoseconds. It takes no memory.
    pub fn pushed(&mut self, function: FnId, spot: Spot, now: u64)
        requires { function.0 < length self.old.spots }
        ensures noted { self.new ≡ pushed_on_lane function.0 spot now self.old }
        ensures feeder { (board : BoardView) (item : Item) (before after : TokenView)
            → IsFeederOf board self.old before
            → MakesStep board (Push (lane function.0 self.old.number) item) before after
            → IsTail board spot after → spot.ring ≡ lane function.0 self.old.number
            → IsFeederOf board self.new after }
    {
        self.note(function, spot, now);
    }

    fn note(&mut self, function: FnId, spot: Spot, now: u64)
        requires { function.0 < length self.old.spots }
        ensures noted { self.new ≡ pushed_on_lane function.0 spot now self.old }
        ensures long { length self.old.ages ≡ length self.old.spots }
    {
        let at = usize::from(function.0);
        self.ends[at] = Some(spot);
        self.ages[at].pushed(now);
    }

    /// Makes room for one post more.
    pub fn reserve(&mut self) -> Result<(), NoMemory>
        ensures room { OnOk result (1 ≤ self.new.room) }
        ensures same { self.new ≡ record self.old { room = self.new.room } }
    {
        self.posts.reserve(1)?;
        Ok(())
    }

    /// Its posts in order.
    pub fn end(self) -> Posts
        ensures { result ≡ self.posts }
    {
        Posts::from_vec(self.posts)
    }
}

/// Reads each lane, and makes the post that is owed. It takes no memory: the post has its room.
pub fn marks_pass(feeder: &mut Feeder, board: &Board, token: &mut Token, now: u64)
    requires feeder { IsFeederOf board.now feeder.old token.old }
    requires room { 1 ≤ feeder.old.room }
    ensures passed { (setting : Setting) (aged : Answers)
        → IsReady setting aged board.now now feeder.old token.old
        → MadeMarksPass setting aged now feeder.old feeder.new token.old token.new }
    ensures feeder { IsFeederOf board.now feeder.new token.new }
    ensures hand { token.new.hand ≡ token.old.hand }
    ensures ends { LeavesEnds board.now token.old token.new }
    ensures same { feeder.new ≡ record feeder.old {
      marks = feeder.new.marks;
      posts = feeder.new.posts;
      room = feeder.new.room;
    } }
{
    let changed = read_lanes(
        &feeder.ends,
        &feeder.ages,
        &mut feeder.marks,
        feeder.limits,
        board,
        token,
        now,
    );
    let made = feeder.posts.len();
    if !is_owed(changed, made) {
        return;
    }
    let number = made as u32 + 1;
    let bits = bits_of_post(number, set_of(&feeder.marks));
    board.post(token, Word::Post(feeder.number), value_of(number, bits));
    feeder.posts.push_reserved(Post {
        feeder: feeder.number,
        number,
        moment: now,
        bits,
    });
}

// Whether a post is owed: the set changed, and the last number isn't used.
fn is_owed(changed: bool, made: usize) -> bool
    ensures owed { OnTrue result ((changed ≡ true) × (made < LAST_POST)) }
    ensures quiet { OnFalse result ((changed ≡ false) ⊎ (LAST_POST ≤ made)) }
{
    changed && made < LAST_POST as usize
}

// The bits of a post with this number: the last one has none, and so holds back nothing.
fn bits_of_post(number: u32, set: u32) -> u32
    ensures { result ≡ posted_bits number set }
{
    if number == LAST_POST { 0 } else { set }
}

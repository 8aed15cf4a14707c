//! How roles keep pace with each other in a phase, outside the board.
//!
//! Whatever the pace, what roles do is right, and no contract speaks of it. But roles that only race
//! each other lose most frames: a core that finds no frame uses up its passes while a receive role
//! reads, and a receive role that nobody follows fills the rings. So no more frames are on their way
//! than lanes and pools have room for, and a role makes no pass where nothing came since its last one.
//!
//! Each wait is bounded: a role that waited for long goes on.

use crate::role::Role;
use crossbeam_utils::CachePadded;
use onvm_base::Plan;
use onvm_promises::Pass;
use std::sync::Wait;
use std::sync::atomic::{AtomicBool, AtomicU64, Ordering};
use std::time::Duration;
use std::{thread, time};

/// The most passes of a role in a phase.
pub const MOST_PASSES: u32 = 1024;

// A role that has nothing to do lets others run so often between its looks for something. To look
// without a rest in between is worse wherever roles outnumber processors.
const YIELDS: u32 = 4096;

// Then it sleeps until a bell rings, at most so often and so long, in microseconds.
const SLEEPS: u32 = 1000;

const NAP: u64 = 1000;

// Where the system gave too few threads, a role that sleeps would keep another one from its passes. So it
// leaves the phase where not all roles are there after so many sleeps, or after more of them where threads
// begin late since others want the processors.
const PATIENCE: u32 = 2;

const CROWDED_PATIENCE: u32 = 50;

// Where to let others run took longer than this, in microseconds, programs beside this one want the
// processor, and each yield would give them a whole slice of its time. Who sleeps gets it back at once
// where a bell rings: so the role's next waits, so many of them, begin with sleep.
const SLICE: u64 = 500;

const CROWDED_WAITS: u32 = 1024;

// How long the tick role sleeps between two looks, in microseconds. Nobody waits for it, and a mail ring
// holds 64 samples.
const TICK_NAP: u64 = 200;

// Each on cache lines of its own, since roles count beside each other.
type Counter = CachePadded<AtomicU64>;

/// What roles tell each other of how far they are.
#[derive(Drop)]
pub struct Pace {
    // As many frames may be on their way.
    window: u64,
    burst: u64,
    ports: u64,
    // The phase's number, from 1, and how many roles it has.
    phase: u64,
    roles: u64,
    // How many of them are there.
    present: Counter,
    // The frames that were pulled and have no record, and those that receive roles are about to pull.
    under_way: Counter,
    // How many receive roles have pulled all their frames.
    ended: Counter,
    over: CachePadded<AtomicBool>,
    // How many passes receive roles made, and how many frames came into lanes, were handled, and were
    // taken from output rings.
    receives: Counter,
    fed: Counter,
    handled: Counter,
    moved: Counter,
    // There are fewer frames on their way.
    room: Bell,
    // There may be frames in lanes, or room in output rings.
    work: Bell,
    // There may be frames in output rings, or a mark to lower.
    output: Bell,
}

// What wakes roles that sleep.
#[derive(Drop)]
struct Bell {
    // How often it rang.
    rung: Counter,
    sleepers: Counter,
}

/// What a role knew before its last pass of this phase.
#[derive(Drop)]
pub struct Stride {
    pulled: u64,
    recorded: u64,
    // So many frames it may pull.
    reserved: u64,
    // It made no pass in this phase.
    fresh: bool,
    // What others had done that may give it something to do.
    seen: u64,
    // Its last pass moved frames, so there may be more of them.
    busy: bool,
    ended: bool,
    // So many of its next waits begin with sleep.
    crowded: u32,
}

impl Pace {
    /// No frame is on its way.
    pub fn make(plan: &Plan) -> Pace {
        let burst = u64::from(plan.burst);
        let lanes = u64::from(plan.high).saturating_sub(1);
        Pace {
            window: lanes.min(u64::from(plan.buffers)).max(burst),
            burst,
            ports: u64::from(plan.ports),
            phase: 0,
            roles: 0,
            present: counter(),
            under_way: counter(),
            ended: counter(),
            over: CachePadded::new(AtomicBool::new(false)),
            receives: counter(),
            fed: counter(),
            handled: counter(),
            moved: counter(),
            room: Bell::make(),
            work: Bell::make(),
            output: Bell::make(),
        }
    }

    /// Another phase begins, of so many roles.
    pub fn begin_phase(&mut self, roles: usize) {
        self.phase = self.phase.saturating_add(1);
        self.roles = roles as u64;
        self.present.store(0, Ordering::SeqCst);
        self.ended.store(0, Ordering::SeqCst);
        self.over.store(false, Ordering::SeqCst);
    }

    /// No role begins another pass of this phase.
    pub fn end_phase(&self) {
        self.over.store(true, Ordering::SeqCst);
        self.wake_all();
    }

    fn wake_all(&self) {
        self.room.ring();
        self.work.ring();
        self.output.ring();
    }

    /// The number of the pass with this number in its phase. Each phase begins with another multiple
    /// of 1,024.
    pub fn pass_number(&self, number: u32) -> u64 {
        self.phase
            .saturating_sub(1)
            .saturating_mul(u64::from(MOST_PASSES))
            .saturating_add(u64::from(number))
    }

    /// Of a role that is there, and has made no pass in this phase.
    pub fn stride_of<I, N>(&self, role: &Role<I, N>) -> Stride {
        let ended = match role {
            Role::Receive(role) => role.done(),
            Role::Send(_) | Role::Handle(_) | Role::Tick(_) => false,
        };
        if ended {
            self.ended.fetch_add(1, Ordering::SeqCst);
        }
        self.present.fetch_add(1, Ordering::SeqCst);
        Stride {
            pulled: u64::from(role.pulled()),
            recorded: role.recorded(),
            reserved: 0,
            fresh: true,
            seen: 0,
            busy: false,
            ended,
            crowded: 0,
        }
    }

    /// Waits until the role's next pass may find something to do. Says whether it goes on in this phase.
    pub fn admits<R: Wait + time::Clock, I, N>(
        &self,
        rt: &R,
        role: &Role<I, N>,
        stride: &mut Stride,
    ) -> bool {
        stride.crowded = stride.crowded.saturating_sub(1);
        for _ in 0..YIELDS {
            if let Some(goes_on) = self.decides(role, stride) {
                return goes_on;
            }
            if stride.crowded > 0 || is_tick(role) {
                break;
            }
            if is_crowded(rt) {
                stride.crowded = CROWDED_WAITS;
            }
        }
        self.sleeps(rt, role, stride)
    }

    // Whether the role goes on, where that is known. Its first pass it makes also where the phase is
    // over, so that no role is left behind; but a receive role makes none without room for a burst.
    fn decides<I, N>(&self, role: &Role<I, N>, stride: &mut Stride) -> Option<bool> {
        let is_over = self.is_over();
        if (stride.fresh || !is_over) && self.has_work(role, stride) {
            return Some(true);
        }
        if is_over { Some(false) } else { None }
    }

    // Sleeps between its looks. Says whether the role goes on in this phase.
    fn sleeps<R: Wait + time::Clock, I, N>(
        &self,
        rt: &R,
        role: &Role<I, N>,
        stride: &mut Stride,
    ) -> bool {
        let patience = if stride.crowded > 0 {
            CROWDED_PATIENCE
        } else {
            PATIENCE
        };
        for turn in 0..SLEEPS {
            // What rings from here on is not slept over.
            let bell = self.bell_of(role, stride);
            let heard = bell.rung.load(Ordering::SeqCst);
            if let Some(goes_on) = self.decides(role, stride) {
                return goes_on;
            }
            if turn >= patience && self.present.load(Ordering::SeqCst) < self.roles {
                self.leave();
                return false;
            }
            if is_tick(role) {
                thread::sleep(rt, Duration::from_micros(TICK_NAP));
            } else {
                bell.wait(rt, heard);
            }
        }
        true
    }

    // A role leaves the phase, which goes on for the others while they have something to do.
    fn leave(&self) {
        self.present.fetch_sub(1, Ordering::SeqCst);
    }

    // What rings where the role's next pass may find something to do.
    fn bell_of<I, N>(&self, role: &Role<I, N>, stride: &Stride) -> &Bell {
        match role {
            Role::Receive(_) if !stride.ended => &self.room,
            Role::Handle(_) => &self.work,
            Role::Receive(_) | Role::Send(_) | Role::Tick(_) => &self.output,
        }
    }

    // No frame is on its way and none will come, or a role has ended the phase.
    fn is_over(&self) -> bool {
        self.over.load(Ordering::SeqCst)
            || (self.ended.load(Ordering::SeqCst) == self.ports
                && self.under_way.load(Ordering::SeqCst) == 0)
    }

    // Whether the next pass may find something to do. A receive role may pull a burst then.
    fn has_work<I, N>(&self, role: &Role<I, N>, stride: &mut Stride) -> bool {
        let fed = self.fed.load(Ordering::SeqCst);
        let handled = self.handled.load(Ordering::SeqCst);
        let moved = self.moved.load(Ordering::SeqCst);
        match role {
            Role::Receive(_) if !stride.ended => self.reserve(stride),
            Role::Handle(_) => {
                let came = stride.notices(fed.wrapping_add(moved));
                stride.fresh || (is_behind(handled, fed) && (stride.busy || came))
            }
            Role::Receive(_) | Role::Send(_) | Role::Tick(_) => {
                // Also where nothing was handled: a feeder's mark is lowered in its passes alone.
                let received = self.receives.load(Ordering::SeqCst);
                let came = stride.notices(handled.wrapping_add(received));
                stride.fresh || came || (stride.busy && is_behind(moved, handled))
            }
        }
    }

    // Whether there is room for a burst.
    fn reserve(&self, stride: &mut Stride) -> bool {
        let now = self.under_way.load(Ordering::SeqCst);
        let then = now.saturating_add(self.burst);
        if then > self.window {
            return false;
        }
        let reserved = self
            .under_way
            .compare_exchange(now, then, Ordering::SeqCst, Ordering::SeqCst)
            .is_ok();
        if reserved {
            stride.reserved = self.burst;
        }
        reserved
    }

    /// What the role's pass did, which answered this.
    pub fn note<I, N>(&self, role: &Role<I, N>, answer: Pass, stride: &mut Stride) {
        let did = match answer {
            Pass::Did(did) => u64::from(did),
            Pass::Idle | Pass::Wanting | Pass::Stopped => 0,
        };
        let gone = self.note_frames(role, stride);
        stride.fresh = false;
        stride.busy = did > 0;
        match role {
            Role::Receive(_) => {
                stride.busy = false;
                self.feed(did.saturating_sub(gone));
                self.receives.fetch_add(1, Ordering::SeqCst);
                self.output.ring();
            }
            Role::Send(_) => {
                self.moved.fetch_add(did, Ordering::SeqCst);
                self.feed(did.saturating_sub(gone));
                self.work.ring();
            }
            Role::Handle(_) => {
                self.handled.fetch_add(did, Ordering::SeqCst);
                self.output.ring();
            }
            Role::Tick(_) => stride.busy = false,
        }
        self.note_end(role, stride);
    }

    // Counts the frames that the role pulled, and those that it recorded, which it answers.
    fn note_frames<I, N>(&self, role: &Role<I, N>, stride: &mut Stride) -> u64 {
        let pulled = u64::from(role.pulled());
        let recorded = role.recorded();
        let came = pulled.saturating_sub(stride.pulled);
        let gone = recorded.saturating_sub(stride.recorded);
        let fewer = gone.saturating_add(stride.reserved);
        if came > 0 {
            self.under_way.fetch_add(came, Ordering::SeqCst);
        }
        if fewer > 0 {
            self.under_way.fetch_sub(fewer, Ordering::SeqCst);
        }
        stride.pulled = pulled;
        stride.recorded = recorded;
        stride.reserved = 0;
        if came < fewer {
            self.room.ring();
        }
        gone
    }

    // So many frames came into lanes.
    fn feed(&self, count: u64) {
        if count > 0 {
            self.fed.fetch_add(count, Ordering::SeqCst);
            self.work.ring();
        }
    }

    // Tells of a receive role that has pulled all its frames, and wakes all where that was the phase's end.
    fn note_end<I, N>(&self, role: &Role<I, N>, stride: &mut Stride) {
        if let Role::Receive(role) = role
            && !stride.ended
            && role.done()
        {
            stride.ended = true;
            self.ended.fetch_add(1, Ordering::SeqCst);
        }
        if self.is_over() {
            self.wake_all();
        }
    }
}

impl Bell {
    fn make() -> Bell {
        Bell {
            rung: counter(),
            sleepers: counter(),
        }
    }

    fn ring(&self) {
        self.rung.fetch_add(1, Ordering::SeqCst);
        if self.sleepers.load(Ordering::SeqCst) > 0 {
            self.rung.wake_all();
        }
    }

    // Sleeps until the bell rings, unless it rang more often than this already.
    fn wait<R: Wait>(&self, rt: &R, heard: u64) {
        self.sleepers.fetch_add(1, Ordering::SeqCst);
        // The system compares the low half of the word.
        let low = (heard % (1 << 32)) as u32;
        self.rung.park_timeout(rt, low, Duration::from_micros(NAP));
        self.sleepers.fetch_sub(1, Ordering::SeqCst);
    }
}

impl Stride {
    // Whether this isn't what the role saw before. It is what it has seen from now on.
    fn notices(&mut self, now: u64) -> bool {
        let is_new = now != self.seen;
        self.seen = now;
        is_new
    }
}

fn is_tick<I, N>(role: &Role<I, N>) -> bool {
    matches!(role, Role::Tick(_))
}

fn counter() -> Counter {
    CachePadded::new(AtomicU64::new(0))
}

// Whether a count is below another one, where they differ by less than 2^63. What is counted at the end
// of a pass may be counted behind what comes of it.
fn is_behind(count: u64, other: u64) -> bool {
    let ahead = other.wrapping_sub(count);
    ahead > 0 && ahead < 1 << 63
}

// Lets others run. Says whether they took the processor for long.
fn is_crowded<T: time::Clock>(rt: &T) -> bool {
    let before = rt.monotonic();
    thread::yield_now();
    match (before, rt.monotonic()) {
        (Ok(before), Ok(after)) => after.saturating_sub(before) > Duration::from_micros(SLICE),
        _ => false,
    }
}

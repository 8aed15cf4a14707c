//! A port's frames, one after another.
ghost use Rattle.std.specs.Prelude.{◌≡◌, ◌≢◌, ◌+◌, ◌<◌, ◌≤◌, ◌∷◌, ◌++◌, [], ℕ, List, Option, true, false, IfOk, IsOk, IsSome, IsTrue, ◌↔◌, None, OnErr, OnOk, Ok, Some, length, option_to_list};
ghost use Rattle.onvm_base.specs.declared.frame.Frame.{Frame};
ghost use Rattle.onvm_host.specs.Deeds.{Amounts};
ghost use Rattle.rx_feed.specs.Feeds.{IsFreshFeed, IsPulledOf, IsTakenFrom, StaysFeed, WasLeft, fresh_standing};
ghost use Rattle.rx_feed.specs.Rooms.{IsRoom};
ghost use Rattle.rx_feed.specs.Standing.{HasStopped};

use crate::fault::FeedFault;
use crate::feed::{Feed, Kind};
use crate::stream::Stream;
use onvm_base::{Frame, NoMemory};
use onvm_host::Source;
use std::alloc::Global;
use std::marker::Model;

/// The memory of an intake.
#[derive(Drop)]
pub struct IntakeRoom {
    stream: Stream,
}

/// What a port takes in: its feed, what was taken of it and pulled of that, and what stopped it.
#[derive(Drop)]
pub struct Intake<I> {
    kind: Kind<I>,
}

impl<I> Model for Intake<I> {
    ghost use Rattle.rx_feed.specs.Feeds.{IsKind, feed_in, standing_in};
    ghost use Rattle.rx_feed.specs.Intakes.{IntakeView};
    ghost use Rattle.rx_feed.specs.declared.feed.Feed.{Feed};

    ghost Value = { IntakeView (Feed I) };

    ghost view = { λ i. record { feed = feed_in i.kind; standing = standing_in i.kind } };

    ghost invariant = { λ i. IsKind i.kind };
}

impl IntakeRoom {
    /// All memory of an intake but that of its frames and of the bytes that its reader keeps.
    pub fn make(alloc: Global) -> Result<IntakeRoom, NoMemory>
        ensures fresh { IfOk result IsRoom }
    {
        Ok(IntakeRoom {
            stream: Stream::make(alloc)?,
        })
    }

    /// An intake of a feed, or of none: then its port has no frame and is at its end. It takes no
    /// memory.
    pub fn start<I: Source + Drop>(self, feed: Option<Feed<I>>) -> Intake<I>
        requires room { IsRoom self }
        requires fresh { IsFreshFeed feed }
        ensures feed { result.feed ≡ feed }
        ensures standing { result.standing ≡ fresh_standing feed }
        ensures frames { IsPulledOf result.feed result.standing }
        ensures since { (left : Option (List ℕ)) (takes : Amounts)
            → WasLeft I.left I.takes left takes feed
            → IsTakenFrom I.left I.takes left takes result.feed result.standing }
    {
        let kind = match feed {
            None => Kind::Nothing,
            Some(Feed::Live(source)) => Kind::Live {
                source,
                stream: self.stream,
            },
            Some(Feed::Made(generator)) => Kind::Made {
                generator,
                ended: false,
            },
        };
        Intake { kind }
    }
}

impl<I: Source> Intake<I> {
    /// The next frame. None exactly where the end was seen or something stopped the port, and then
    /// ever after. After want of memory nothing is lost: the next call goes on with the bytes that
    /// were taken.
    pub fn next(&mut self, alloc: Global) -> Result<Option<Frame>, NoMemory>
        ensures frame { IfOk result (λ frame.
            self.new.standing.pulled ≡ self.old.standing.pulled ++ option_to_list frame) }
        ensures some { IfOk result (λ frame. IsSome frame → ¬ (HasStopped self.new.standing)) }
        ensures none { result ≡ Ok None → HasStopped self.new.standing }
        ensures err { OnErr result ((self.new.standing.pulled ≡ self.old.standing.pulled)
            × ¬ (HasStopped self.new.standing)) }
        ensures stopped { HasStopped self.old.standing → (result ≡ Ok None) × (self.new ≡ self.old) }
        ensures frames { IsPulledOf self.new.feed self.new.standing }
        ensures since { (left : Option (List ℕ)) (takes : Amounts)
            → IsTakenFrom I.left I.takes left takes self.old.feed self.old.standing
            → IsTakenFrom I.left I.takes left takes self.new.feed self.new.standing }
        ensures same { StaysFeed I.name self.old.feed self.new.feed }
    {
        self.kind.next(alloc)
    }

    /// Reads the rest, and keeps no frame. After want of memory it may have read a part of the rest,
    /// and the next call goes on from there.
    pub fn drain(&mut self, alloc: Global) -> Result<(), NoMemory>
        ensures ok { OnOk result (HasStopped self.new.standing) }
        ensures more { (frames : List Frame) × (self.new.standing.pulled ≡ self.old.standing.pulled ++ frames) }
        ensures stopped { HasStopped self.old.standing → IsOk result × (self.new ≡ self.old) }
        ensures frames { IsPulledOf self.new.feed self.new.standing }
        ensures since { (left : Option (List ℕ)) (takes : Amounts)
            → IsTakenFrom I.left I.takes left takes self.old.feed self.old.standing
            → IsTakenFrom I.left I.takes left takes self.new.feed self.new.standing }
        ensures same { StaysFeed I.name self.old.feed self.new.feed }
    {
        'frames: loop {
            let Some(frame) = self.next(alloc)? else {
                return Ok(());
            };
            drop(frame);
        }
    }
}

impl<I> Intake<I> {
    /// Why no more frames come, where something stopped the port.
    pub fn fault(&self) -> Option<FeedFault>
        ensures { result ≡ self.now.standing.fault }
    {
        match &self.kind {
            Kind::Live { stream, .. } => stream.fault,
            Kind::Nothing | Kind::Made { .. } => None,
        }
    }

    /// Whether all frames were pulled and the end was seen.
    pub fn done(&self) -> bool
        ensures { result ≡ self.now.standing.ended }
    {
        match &self.kind {
            Kind::Nothing => true,
            Kind::Live { stream, .. } => stream.ended,
            Kind::Made { ended, .. } => *ended,
        }
    }

    /// How many frames were pulled.
    pub fn pulled(&self) -> u32
        ensures { result ≡ length self.now.standing.pulled }
    {
        match &self.kind {
            Kind::Nothing => 0,
            Kind::Live { stream, .. } => stream.count,
            Kind::Made { generator, .. } => generator.given(),
        }
    }
}

impl<I: Drop> Intake<I> {
    /// The feed.
    pub fn into_feed(self) -> Option<Feed<I>>
        ensures { result ≡ self.feed }
    {
        match self.kind {
            Kind::Nothing => None,
            Kind::Live { source, .. } => Some(Feed::Live(source)),
            Kind::Made { generator, .. } => Some(Feed::Made(generator)),
        }
    }
}

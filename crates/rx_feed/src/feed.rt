//! What frames come from.
ghost use Rattle.std.specs.Prelude.{◌≡◌, ◌≢◌, ◌⊎◌, ◌+◌, ◌<◌, ◌≤◌, ◌∷◌, ◌++◌, [], ℕ, List, Option, true, false, IfOk, IsSome, None, OnErr, OnOk, Ok, Some, length, option_to_list};
ghost use Rattle.onvm_host.specs.Deeds.{Amounts};
ghost use Rattle.onvm_base.specs.declared.limits.TheConstants.{MAX_PORT_FRAMES};
ghost use Rattle.rx_feed.specs.Feeds.{IsAllGiven, IsKind, IsPulledOf, IsTakenFrom, StaysFeed, feed_in, standing_in};
ghost use Rattle.rx_feed.specs.Made.{made_frames};
ghost use Rattle.rx_feed.specs.Standing.{HasStopped};

use crate::generator::Generator;
use crate::stream::Stream;
use onvm_base::{Frame, NoMemory};
use onvm_host::Source;
use std::alloc::Global;

/// What the frames of a port come from: a capture that is read of a source, or a generator.
#[derive(Drop)]
pub enum Feed<I> {
    Live(I),
    Made(Generator),
}

/// A feed with what is known of it so far.
#[derive(Drop)]
pub(crate) enum Kind<I> {
    Nothing,
    Live { source: I, stream: Stream },
    Made { generator: Generator, ended: bool },
}

impl<I: Source> Kind<I> {
    pub(crate) fn next(&mut self, alloc: Global) -> Result<Option<Frame>, NoMemory>
        requires kind { IsKind self.old }
        ensures kind { IsKind self.new }
        ensures frames { IsPulledOf (feed_in self.new) (standing_in self.new) }
        ensures frame { IfOk result (λ frame. (standing_in self.new).pulled
            ≡ (standing_in self.old).pulled ++ option_to_list frame) }
        ensures some { IfOk result (λ frame. IsSome frame → ¬ (HasStopped (standing_in self.new))) }
        ensures none { result ≡ Ok None → HasStopped (standing_in self.new) }
        ensures err { OnErr result (((standing_in self.new).pulled ≡ (standing_in self.old).pulled)
            × ¬ (HasStopped (standing_in self.new))) }
        ensures stopped { HasStopped (standing_in self.old) → (result ≡ Ok None) × (self.new ≡ self.old) }
        ensures since { (left : Option (List ℕ)) (takes : Amounts)
            → IsTakenFrom I.left I.takes left takes (feed_in self.old) (standing_in self.old)
            → IsTakenFrom I.left I.takes left takes (feed_in self.new) (standing_in self.new) }
        ensures same { StaysFeed I.name (feed_in self.old) (feed_in self.new) }
    {
        match self {
            Kind::Nothing => Ok(None),
            Kind::Live { source, stream } => stream.next(alloc, source),
            Kind::Made { generator, ended } => next_made(alloc, generator, ended),
        }
    }
}

// The next frame of a generator. The end is seen where one frame more is asked for.
fn next_made(
    alloc: Global,
    generator: &mut Generator,
    ended: &mut bool,
) -> Result<Option<Frame>, NoMemory>
    requires ended { ended.old ≡ true → IsAllGiven generator.old }
    ensures ended { ended.new ≡ true → IsAllGiven generator.new }
    ensures few { (generator.new.given ≤ generator.new.count) × (generator.new.count ≤ MAX_PORT_FRAMES) }
    ensures frame { IfOk result (λ frame. made_frames generator.new.seed generator.new.given
        ≡ made_frames generator.old.seed generator.old.given ++ option_to_list frame) }
    ensures some { IfOk result (λ frame. IsSome frame → ended.new ≡ false) }
    ensures none { result ≡ Ok None → ended.new ≡ true }
    ensures err { OnErr result ((generator.new ≡ generator.old) × (ended.new ≡ false)) }
    ensures stopped { ended.old ≡ true
        → (result ≡ Ok None) × (generator.new ≡ generator.old) × (ended.new ≡ true) }
    ensures same { (generator.new.seed ≡ generator.old.seed) × (generator.new.count ≡ generator.old.count) }
{
    if *ended {
        return Ok(None);
    }
    let frame = generator.next(alloc)?;
    *ended = frame.is_none();
    Ok(frame)
}

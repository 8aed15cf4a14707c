//! A capture that is read while its frames are wanted.
ghost use Rattle.std.specs.Prelude.{◌≡◌, ◌≢◌, ◌⊎◌, ◌+◌, ◌<◌, ◌≤◌, ◌∷◌, ◌++◌, [], ℕ, List, Option, true, false, IfOk, IfSome, IsSome, None, OnErr, OnOk, Ok, Some, length, option_to_list};
ghost use Rattle.std.specs.Io.KnownBytes.{ReadConsumes};
ghost use Rattle.std.specs.Result.{result_ok};
ghost use Rattle.std.specs.Bool.{OnFalse, OnTrue};
ghost use Rattle.onvm_base.specs.declared.limits.TheConstants.{MAX_PORT_BYTES, MAX_PORT_FRAMES};
ghost use Rattle.onvm_host.specs.Deeds.{Amounts};
ghost use Rattle.rx_feed.specs.Streams.{WantsMore};
ghost use Rattle.rx_feed.specs.History.{bytes_in, frames_in};
ghost use Rattle.rx_feed.specs.Standing.{HasStopped, IsTakenSince, StandsSoFar};
ghost use Rattle.rx_feed.specs.Streams.{GoesOn, IsAnswer, IsFlowing, IsStream, SameFrames, failed, standing_of, waiting_of};

use crate::fault::FeedFault;
use crate::history::{PulledFrames, TakenBytes};
use onvm_base::{Failed, Frame, MAX_PORT_BYTES, MAX_PORT_FRAMES, NoMemory};
use onvm_host::Source;
use pcap_in::{Pull, Reader};
use std::alloc::Global;

/// The most bytes that are taken of a source at once.
pub const PIECE_LEN: usize = 65_536;

/// A capture on its way from a source: bytes are taken only where the reader wants more.
#[derive(Drop)]
pub(crate) struct Stream {
    pub(crate) reader: Reader,
    // The piece that was taken last. The first `waiting` bytes of it weren't fed yet.
    pub(crate) piece: Vec<u8>,
    pub(crate) waiting: usize,
    // Of the frames pulled.
    pub(crate) count: u32,
    pub(crate) bytes: u64,
    pub(crate) ended: bool,
    pub(crate) fault: Option<FeedFault>,
    // As contracts see it.
    pub(crate) taken: TakenBytes,
    pub(crate) pulled: PulledFrames,
}

/// What stands next in a capture.
#[derive(Drop)]
pub(crate) enum Answer {
    Frame(Frame),
    End,
    Stop(FeedFault),
}

impl Stream {
    /// A stream of which nothing was taken. All its memory but that of frames and the reader's is
    /// taken here.
    pub(crate) fn make(alloc: Global) -> Result<Stream, NoMemory>
        ensures stream { IfOk result (λ stream. IsStream stream) }
        ensures fresh { IfOk result (λ stream. standing_of stream ≡ record {
          taken = [];
          complete = false;
          pulled = [];
          ended = false;
          fault = None;
        }) }
    {
        Ok(Stream {
            reader: Reader::make(alloc),
            piece: vec![in alloc; 0; PIECE_LEN]?,
            waiting: 0,
            count: 0,
            bytes: 0,
            ended: false,
            fault: None,
            taken: TakenBytes::None,
            pulled: PulledFrames::None,
        })
    }

    /// The next frame. None where the end was seen or something stopped the stream, and then ever
    /// after.
    pub(crate) fn next<S: Source>(
        &mut self,
        alloc: Global,
        source: &mut S,
    ) -> Result<Option<Frame>, NoMemory>
        requires stream { IsStream self.old }
        ensures stream { IsStream self.new }
        ensures frame { IfOk result (λ frame. frames_in self.new.pulled
            ≡ frames_in self.old.pulled ++ option_to_list frame) }
        ensures some { IfOk result (λ frame. IsSome frame → ¬ (HasStopped (standing_of self.new))) }
        ensures none { result ≡ Ok None → HasStopped (standing_of self.new) }
        ensures err { OnErr result ((frames_in self.new.pulled ≡ frames_in self.old.pulled)
            × ¬ (HasStopped (standing_of self.new))) }
        ensures stopped { HasStopped (standing_of self.old)
            → (result ≡ Ok None) × (self.new ≡ self.old) × (source.new ≡ source.old) }
        ensures since { (left : Option (List ℕ)) (takes : Amounts)
            → IsTakenSince left (S.left source.old) takes (S.takes source.old) (standing_of self.old)
            → IsTakenSince left (S.left source.new) takes (S.takes source.new) (standing_of self.new) }
        ensures named { S.name source.new ≡ S.name source.old }
    {
        if self.ended || self.fault.is_some() {
            return Ok(None);
        }
        match self.pull(alloc, source)? {
            Answer::Frame(frame) => Ok(self.admit(frame)),
            Answer::End => {
                self.ended = true;
                Ok(None)
            }
            Answer::Stop(fault) => {
                self.fault = Some(fault);
                Ok(None)
            }
        }
    }

    // Counts a frame that was given, unless it passes a limit of a port.
    fn admit(&mut self, frame: Frame) -> Option<Frame>
        requires flowing { IsFlowing (frames_in self.old.pulled ++ frame ∷ []) self.old }
        requires so_far { StandsSoFar (bytes_in self.old.taken) (frames_in self.old.pulled) }
        ensures stream { IsStream self.new }
        ensures frame { frames_in self.new.pulled ≡ frames_in self.old.pulled ++ option_to_list result }
        ensures some { IsSome result → self.new.fault ≡ None }
        ensures none { result ≡ None → self.new.fault ≡ Some FeedFault.TooMany }
        ensures same { (self.new.ended ≡ false) × (self.new.taken ≡ self.old.taken)
            × (self.new.reader ≡ self.old.reader) }
    {
        let count = self.count + 1;
        let bytes = self.bytes + frame.packet.bytes().len() as u64;
        if !are_within(count, bytes) {
            self.fault = Some(FeedFault::TooMany);
            return None;
        }
        self.count = count;
        self.bytes = bytes;
        self.pulled.add(&frame);
        Some(frame)
    }

    // What stands next: takes pieces until the reader wants no more.
    fn pull<S: Source>(&mut self, alloc: Global, source: &mut S) -> Result<Answer, NoMemory>
        requires flowing { IsFlowing (frames_in self.old.pulled) self.old }
        ensures answer { IfOk result (λ answer. IsAnswer answer self.new) }
        ensures flowing { OnErr result (IsFlowing (frames_in self.old.pulled) self.new) }
        ensures so_far { StandsSoFar (bytes_in self.new.taken) (frames_in self.new.pulled) }
        ensures same { SameFrames self.old self.new }
        ensures since { result ≢ Ok (Answer.Stop FeedFault.Read) → (left : Option (List ℕ)) (takes : Amounts)
            → IsTakenSince left (S.left source.old) takes (S.takes source.old) (standing_of self.old)
            → IsTakenSince left (S.left source.new) takes (S.takes source.new) (standing_of self.new) }
        ensures failed { result ≡ Ok (Answer.Stop FeedFault.Read) → (left : Option (List ℕ)) (takes : Amounts)
            → IsTakenSince left (S.left source.old) takes (S.takes source.old) (standing_of self.old)
            → IsTakenSince left (S.left source.new) takes (S.takes source.new) (failed (standing_of self.new)) }
        ensures named { S.name source.new ≡ S.name source.old }
    {
        self.feed_waiting()?;
        'pulls: loop {
            match self.reader.next(alloc)? {
                Pull::Frame(frame) => return Ok(Answer::Frame(frame)),
                Pull::End => return Ok(Answer::End),
                Pull::Bad(fault) => return Ok(Answer::Stop(FeedFault::Capture(fault))),
                Pull::More => {}
            }
            if !self.feed_more(source)? {
                return Ok(Answer::Stop(FeedFault::Read));
            }
        }
    }

    // Takes a piece and feeds it, or says to the reader that no more bytes come. False where the
    // take failed.
    fn feed_more<S: Source>(&mut self, source: &mut S) -> Result<bool, NoMemory>
        requires flowing { IsFlowing (frames_in self.old.pulled) self.old }
        requires none_waits { self.old.waiting ≡ 0 }
        requires wants { WantsMore self.old.reader }
        ensures flowing { IsFlowing (frames_in self.old.pulled) self.new }
        ensures same { SameFrames self.old self.new }
        ensures failed { result ≡ Ok false → (self.new.reader ≡ self.old.reader)
            × (self.new.taken ≡ self.old.taken) × (self.new.waiting ≡ 0) }
        ensures on { result ≡ Ok true → (self.new.waiting ≡ 0) × GoesOn self.old.reader self.new.reader }
        ensures since { result ≢ Ok false → (left : Option (List ℕ)) (takes : Amounts)
            → IsTakenSince left (S.left source.old) takes (S.takes source.old) (standing_of self.old)
            → IsTakenSince left (S.left source.new) takes (S.takes source.new) (standing_of self.new) }
        ensures failed_since { result ≡ Ok false → (left : Option (List ℕ)) (takes : Amounts)
            → IsTakenSince left (S.left source.old) takes (S.takes source.old) (standing_of self.old)
            → IsTakenSince left (S.left source.new) takes (S.takes source.new) (failed (standing_of self.new)) }
        ensures named { S.name source.new ≡ S.name source.old }
    {
        let Ok(count) = take_piece(source, &mut self.piece) else {
            return Ok(false);
        };
        if count == 0 {
            self.reader.finish();
            return Ok(true);
        }
        self.taken.add(&self.piece, count);
        self.waiting = count;
        self.feed_waiting()?;
        Ok(true)
    }

    // Feeds the bytes that wait. Where there is no memory they go on waiting.
    fn feed_waiting(&mut self) -> Result<(), NoMemory>
        requires flowing { IsFlowing (frames_in self.old.pulled) self.old }
        ensures flowing { IsFlowing (frames_in self.old.pulled) self.new }
        ensures same { SameFrames self.old self.new }
        ensures taken { self.new.taken ≡ self.old.taken }
        ensures fed { OnOk result ((self.new.waiting ≡ 0) × (self.new.reader
            ≡ record self.old.reader { rest = self.old.reader.rest ++ waiting_of self.old })) }
        ensures err { OnErr result (self.new ≡ self.old) }
    {
        if self.waiting == 0 {
            return Ok(());
        }
        self.reader.feed(&self.piece[..self.waiting])?;
        self.waiting = 0;
        Ok(())
    }
}

// Whether a port takes so many frames with so many bytes.
fn are_within(count: u32, bytes: u64) -> bool
    ensures within { OnTrue result ((count ≤ MAX_PORT_FRAMES) × (bytes ≤ MAX_PORT_BYTES)) }
    ensures large { OnFalse result ((MAX_PORT_FRAMES < count) ⊎ (MAX_PORT_BYTES < bytes)) }
{
    count as usize <= MAX_PORT_FRAMES && bytes <= MAX_PORT_BYTES
}

// Takes the next bytes of a source.
fn take_piece<S: Source>(source: &mut S, piece: &mut Vec<u8>) -> Result<usize, Failed>
    requires long { length piece.old.items ≡ PIECE_LEN }
    ensures long { length piece.new.items ≡ PIECE_LEN }
    ensures bound { IfOk result (λ count. count ≤ PIECE_LEN) }
    ensures bytes { ReadConsumes (S.left source.old) (S.left source.new) result piece.new.items }
    ensures told { S.takes source.new ≡ S.takes source.old ++ result_ok result ∷ [] }
    ensures named { S.name source.new ≡ S.name source.old }
{
    source.take(piece.as_mut_slice())
}

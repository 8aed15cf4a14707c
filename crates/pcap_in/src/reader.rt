//! A reader of captures, in whatever pieces they come.
ghost use Rattle.std.specs.Prelude.{◌≡◌, ◌+◌, ◌^◌, ◌<◌, ◌≤◌, ◌++◌, true, false, length, drop, OnOk, OnErr, IfOk};

use crate::judge::{
    CaptureHeader, CaptureRecord, HEAD_LEN, HEADER_LEN, judge_header, judge_record,
};
use crate::pull::{PcapFault, Pull};
use crate::spelling::Spelling;
use onvm_base::{Frame, NoMemory, Packet};
use std::alloc::Global;
use std::marker::Model;

/// A reader of one capture. It keeps the bytes that no frame has used.
#[derive(Debug, Drop)]
pub struct Reader {
    // The bytes kept, of which the first `used` belong to frames that were given.
    buffer: Vec<u8>,
    used: usize,
    // Of the header, once a frame was given.
    spelling: Option<Spelling>,
    place: u64,
    finished: bool,
}

impl Model for Reader {
    ghost use Rattle.std.specs.Prelude.{ℕ, ◌+◌, ◌≤◌, ◌<◌, ◌^◌, length, drop};
    ghost use Rattle.pcap_in.specs.Reading.{Reading};

    ghost Value = { Reading };

    ghost view = { λ r.
        record {
          spelling = r.spelling;
          place = r.place;
          rest = drop r.used r.buffer.items;
          finished = r.finished;
        } };

    ghost invariant = { λ r.
        (r.used ≤ length r.buffer.items)
        × (r.place + length (drop r.used r.buffer.items) < 2 ^ 64) };
}

impl Reader {
    ghost use Rattle.pcap_in.specs.Reading.{IsKept, Pulls, unfed_reading};
    ghost use Rattle.pcap_in.specs.Judged.{PullsRecord};

    /// A reader that has been fed nothing. It takes no memory.
    pub fn make(alloc: Global) -> Reader
        ensures { result ≡ unfed_reading }
    {
        Reader {
            buffer: Vec::new(alloc),
            used: 0,
            spelling: None,
            place: 0,
            finished: false,
        }
    }

    /// Takes the next bytes of the capture.
    pub fn feed(&mut self, piece: &[u8]) -> Result<(), NoMemory>
        requires open { self.old.finished ≡ false }
        requires fits { self.old.place + length self.old.rest + length piece.now < 2 ^ 64 }
        ensures ok { OnOk result
            (self.new ≡ record self.old { rest = self.old.rest ++ piece.now }) }
        ensures err { OnErr result (self.new ≡ self.old) }
    {
        self.make_room();
        self.buffer.extend_from_slice(piece)?;
        Ok(())
    }

    // Lets go of the bytes that frames have used, once they are at least as many as the others: so
    // each byte is moved at most once on average.
    fn make_room(&mut self)
        ensures { self.new ≡ self.old }
    {
        let kept = self.buffer.len() - self.used;
        if self.used >= kept {
            keep_from(&mut self.buffer, self.used);
            self.used = 0;
        }
    }

    /// Says that no more bytes come.
    pub fn finish(&mut self)
        ensures { self.new ≡ record self.old { finished = true } }
    {
        self.finished = true;
    }

    /// Pulls the next frame, or says why there is none. After Bad it answers the same Bad again.
    pub fn next(&mut self, alloc: Global) -> Result<Pull, NoMemory>
        ensures pull { IfOk result (λ pull. Pulls self.old pull self.new) }
        ensures err { OnErr result (self.new ≡ self.old) }
    {
        if let Some(spelling) = self.spelling {
            return self.next_record(alloc, spelling, 0);
        }
        match judge_header(self.rest_behind(0)) {
            CaptureHeader::Part if self.finished => Ok(Pull::Bad(PcapFault::Torn {
                at: self.place,
            })),
            CaptureHeader::Part => Ok(Pull::More),
            CaptureHeader::Broken(fault) => Ok(Pull::Bad(fault)),
            CaptureHeader::Whole(spelling) => self.next_record(alloc, spelling, HEADER_LEN),
        }
    }

    /// How many of the bytes fed belong neither to the header nor to a frame that was given. As long as
    /// no frame was given, the header is judged anew.
    pub fn kept(&self) -> usize
        ensures { IsKept self.now result }
    {
        let rest = self.rest_behind(0);
        if self.spelling.is_some() {
            return rest.len();
        }
        match judge_header(rest) {
            CaptureHeader::Whole(_) => rest.len() - HEADER_LEN,
            CaptureHeader::Part => rest.len(),
            CaptureHeader::Broken(_) => rest.len(),
        }
    }

    // What stands so many bytes behind the reader's place.
    fn rest_behind(&self, skipped: usize) -> &[u8]
        requires { skipped ≤ length self.now.rest }
        ensures { result.now ≡ drop skipped self.now.rest }
    {
        &self.buffer[self.used + skipped..]
    }

    // Pulls the record that stands so many bytes behind the reader's place. As a call of its own it
    // would cost a short frame a tenth of its time.
    #[inline]
    fn next_record(
        &mut self,
        alloc: Global,
        spelling: Spelling,
        skipped: usize,
    ) -> Result<Pull, NoMemory>
        requires { skipped ≤ length self.old.rest }
        ensures pull { IfOk result (λ pull. PullsRecord spelling (self.old.place + skipped)
            (drop skipped self.old.rest) self.old pull self.new) }
        ensures err { OnErr result (self.new ≡ self.old) }
    {
        let at = self.place + skipped as u64;
        let rest = self.rest_behind(skipped);
        match judge_record(spelling, at, rest) {
            CaptureRecord::Part if !self.finished => Ok(Pull::More),
            CaptureRecord::Part if rest.is_empty() => Ok(Pull::End),
            CaptureRecord::Part => Ok(Pull::Bad(PcapFault::Torn { at })),
            CaptureRecord::Broken(fault) => Ok(Pull::Bad(fault)),
            CaptureRecord::Whole { stamp, len } => {
                let packet = Packet::from_slice(alloc, &rest[HEAD_LEN..HEAD_LEN + len])?;
                self.used += skipped + HEAD_LEN + len;
                self.spelling = Some(spelling);
                self.place = at + (HEAD_LEN + len) as u64;
                Ok(Pull::Frame(Frame { stamp, packet }))
            }
        }
    }
}

// Takes out the bytes before `used`.
fn keep_from(bytes: &mut Vec<u8>, used: usize)
    requires within { used ≤ length bytes.old.items }
    requires half { length bytes.old.items ≤ used + used }
    ensures { bytes.new.items ≡ drop used bytes.old.items }
{
    let kept = bytes.len() - used;
    let (front, behind) = bytes.split_at_mut(used);
    front[..kept].copy_from_slice(behind);
    bytes.truncate(kept);
}

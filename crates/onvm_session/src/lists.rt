//! The lists of a run, put together of what its roles kept.
ghost use Rattle.std.specs.Prelude.{◌≡◌, ◌+◌, ◌*◌, ◌^◌, ◌++◌, [], IfOk, OnOk};
ghost use Rattle.onvm_promises.specs.Kept.{at_most_64_bits};
ghost use Rattle.onvm_session.specs.Gathering.{IsByFrame, frame_key};

use onvm_base::{NoMemory, Post, Posts, Record, Records, SentFrame, SentFrames};
use std::alloc::Global;

/// What roles kept, one role after another.
#[derive(Debug, Drop)]
pub struct Gathered {
    records: Vec<Record>,
    sent: Vec<SentFrame>,
    posts: Vec<Post>,
    yields: u64,
    lost: u64,
}

/// What a run hands back of its frames and feeders, and what its cores counted.
#[derive(Debug, Drop)]
pub struct RunLists {
    /// By port, then by number.
    pub records: Records,
    /// By port, then by number.
    pub sent: SentFrames,
    /// Feeder by feeder, each feeder's in the order in which they were made.
    pub posts: Posts,
    /// How often a core found an output ring full.
    pub yields: u64,
    /// How many samples met a full mail ring.
    pub lost: u64,
}

impl Gathered {
    /// Of no role. It takes no memory.
    pub fn make(alloc: Global) -> Gathered
        ensures records { result.records.items ≡ [] }
        ensures sent { result.sent.items ≡ [] }
        ensures posts { result.posts.items ≡ [] }
        ensures yields { result.yields ≡ 0 }
        ensures lost { result.lost ≡ 0 }
    {
        Gathered {
            records: Vec::new(alloc),
            sent: Vec::new(alloc),
            posts: Vec::new(alloc),
            yields: 0,
            lost: 0,
        }
    }

    /// Appends what a receive or a transmit role kept. No packet is copied.
    pub fn add_feeder(
        &mut self,
        records: Records,
        sent: SentFrames,
        posts: Posts,
    ) -> Result<(), NoMemory>
        ensures records { OnOk result (self.new.records.items ≡ self.old.records.items ++ records) }
        ensures sent { OnOk result (self.new.sent.items ≡ self.old.sent.items ++ sent) }
        ensures posts { OnOk result (self.new.posts.items ≡ self.old.posts.items ++ posts) }
        ensures yields { self.new.yields ≡ self.old.yields }
        ensures lost { self.new.lost ≡ self.old.lost }
    {
        append(&mut self.records, records.into_vec())?;
        append(&mut self.sent, sent.into_vec())?;
        append(&mut self.posts, posts.into_vec())?;
        Ok(())
    }

    /// Adds what a core counted, up to 2^64 - 1.
    pub fn add_core(&mut self, yields: u64, lost: u64)
        ensures records { self.new.records ≡ self.old.records }
        ensures sent { self.new.sent ≡ self.old.sent }
        ensures posts { self.new.posts ≡ self.old.posts }
        ensures yields { self.new.yields ≡ at_most_64_bits (self.old.yields + yields) }
        ensures lost { self.new.lost ≡ at_most_64_bits (self.old.lost + lost) }
    {
        self.yields = self.yields.saturating_add(yields);
        self.lost = self.lost.saturating_add(lost);
    }

    /// The lists of the run: records and sent frames in the order of their frames.
    pub fn into_lists(self) -> Result<RunLists, NoMemory>
        ensures records { IfOk result (λ lists. IsByFrame (λ told. told.frame) self.records.items lists.records) }
        ensures sent { IfOk result (λ lists. IsByFrame (λ sent. sent.frame) self.sent.items lists.sent) }
        ensures posts { IfOk result (λ lists. lists.posts ≡ self.posts.items) }
        ensures yields { IfOk result (λ lists. lists.yields ≡ self.yields) }
        ensures lost { IfOk result (λ lists. lists.lost ≡ self.lost) }
    {
        let mut records = Records::from_vec(self.records);
        records.sort_by_key(record_key)?;
        let mut sent = SentFrames::from_vec(self.sent);
        sent.sort_by_key(sent_key)?;
        Ok(RunLists {
            records,
            sent,
            posts: Posts::from_vec(self.posts),
            yields: self.yields,
            lost: self.lost,
        })
    }
}

fn record_key(told: &Record) -> u64
    ensures { result ≡ frame_key told.now.frame }
{
    key(told.frame.port.0, told.frame.number)
}

fn sent_key(sent: &SentFrame) -> u64
    ensures { result ≡ frame_key sent.now.frame }
{
    key(sent.frame.port.0, sent.frame.number)
}

// By port, then by number.
fn key(port: u8, number: u32) -> u64
    ensures { result ≡ port * 2 ^ 32 + number }
{
    u64::from(port) * (1 << 32) + u64::from(number)
}

// Appends a list. One that is empty takes the other over, so that the lists of a run with one port
// aren't copied.
fn append<T: Drop>(list: &mut Vec<T>, mut more: Vec<T>) -> Result<(), NoMemory>
    ensures { OnOk result (list.new.items ≡ list.old.items ++ more.items) }
{
    if list.is_empty() {
        *list = more;
        return Ok(());
    }
    list.append(&mut more)?;
    Ok(())
}

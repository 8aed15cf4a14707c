//! Records and sent frames.
ghost use Rattle.std.specs.Prelude.{◌≡◌, ◌≤◌, ◌+◌, ◌∷◌, ◌++◌, [], ℕ, suc, OnOk, vec_capacity, vec_len};
ghost use Rattle.tx_pass.specs.Keeping.{HasRoom};

use onvm_base::{NoMemory, Outcome, Record, SentFrame};
use std::alloc::Global;

/// What a role keeps of the frames that left by it, in order.
#[derive(Drop)]
pub(crate) struct Kept {
    pub(crate) records: Vec<Record>,
    pub(crate) sent: Vec<SentFrame>,
}

impl Kept {
    pub(crate) fn make(alloc: Global) -> Kept
        ensures records { result.records.items ≡ [] }
        ensures sent { result.sent.items ≡ [] }
    {
        Kept {
            records: Vec::new(alloc),
            sent: Vec::new(alloc),
        }
    }

    /// Makes room for so many more records and sent frames.
    pub(crate) fn reserve(&mut self, more: usize) -> Result<(), NoMemory>
        ensures records { self.new.records.items ≡ self.old.records.items }
        ensures sent { self.new.sent.items ≡ self.old.sent.items }
        ensures room { OnOk result (HasRoom more self.new) }
    {
        reserve(&mut self.records, more)?;
        reserve(&mut self.sent, more)?;
        Ok(())
    }

    /// Keeps a record.
    pub(crate) fn record(&mut self, told: Record)
        requires room { HasRoom 1 self.old }
        ensures records { self.new.records.items ≡ self.old.records.items ++ told ∷ [] }
        ensures sent { self.new.sent ≡ self.old.sent }
        ensures room { (n : ℕ) → HasRoom (suc n) self.old → HasRoom n self.new }
    {
        self.records.push_reserved(told);
    }

    /// Keeps a frame that was sent by a port, and its record.
    pub(crate) fn send(&mut self, sent: SentFrame, port: u8)
        requires room { HasRoom 1 self.old }
        ensures records { self.new.records.items
            ≡ self.old.records.items ++ record { frame = sent.frame; outcome = Outcome.Sent port } ∷ [] }
        ensures sent { self.new.sent.items ≡ self.old.sent.items ++ sent ∷ [] }
        ensures room { (n : ℕ) → HasRoom (suc n) self.old → HasRoom n self.new }
    {
        self.record(Record {
            frame: sent.frame,
            outcome: Outcome::Sent(port),
        });
        self.sent.push_reserved(sent);
    }
}

// Makes room for so many more. A list that grows is copied, and both lists grow to hundreds of thousands
// of items: so where it must grow, it grows to eight times its length, and to what is wanted where there
// is no memory for that.
fn reserve<T>(list: &mut Vec<T>, more: usize) -> Result<(), NoMemory>
    ensures items { list.new.items ≡ list.old.items }
    ensures room { OnOk result (vec_len list.new + more ≤ vec_capacity list.new) }
{
    let much = list.len().saturating_mul(7).max(more);
    if list.capacity() - list.len() < more && list.reserve(much).is_ok() {
        return Ok(());
    }
    list.reserve(more)?;
    Ok(())
}

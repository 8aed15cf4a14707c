//! The mappings of one protocol.
ghost use Rattle.std.specs.Prelude.{◌≡◌, ◌≤◌, [], IfOk, OnOk, OnErr, MatchOption, slice_get};
ghost use Rattle.nf_state.specs.Mappings.{IsFree, IsUnmapped, Assigns, Maps, Opens, Refuses};
ghost use Rattle.nf_state.specs.Kept.{IsNext, with_mapping};

use onvm_base::NoMemory;
use std::alloc::Global;
use std::collections::BTreeMap;
use std::marker::Model;

/// A sender inside.
#[derive(Clone, Copy, Debug, PartialEq, Eq, PartialOrd, Ord)]
pub struct Endpoint {
    pub address: u32,
    pub port: u16,
}

/// Which outside port stands for which sender inside. A mapping stays, so ports are assigned in order,
/// and each is a place in a list.
#[derive(Drop)]
pub struct Mappings {
    first: u16,
    last: u16,
    insides: Vec<Endpoint>,
    outsides: BTreeMap<Endpoint, u16>,
}

impl Model for Mappings {
    ghost use Rattle.std.specs.BTreeMap.{get};
    ghost use Rattle.nf_state.specs.Kept.{AreKept, PortTable, endpoint_cmp, mappings_from};

    ghost Value = { PortTable };

    ghost view = { λ kept. record {
      ports = (kept.first, kept.last);
      mappings = mappings_from kept.first kept.insides.items;
    } };

    ghost invariant = { λ kept.
        AreKept kept.first kept.last kept.insides.items (get endpoint_cmp kept.outsides) };
}

impl Mappings {
    /// No mapping, and outside ports from the first to the last. It takes no memory.
    pub fn make(alloc: Global, ports: (u16, u16)) -> Mappings
        requires { ports.0 ≤ ports.1 }
        ensures ports { result.ports ≡ ports }
        ensures none { result.mappings ≡ [] }
    {
        Mappings {
            first: ports.0,
            last: ports.1,
            insides: Vec::new(alloc),
            outsides: BTreeMap::new(alloc),
        }
    }

    /// The sender inside for which an outside port stands.
    pub fn inside(&self, outside: u16) -> Option<Endpoint>
        ensures { MatchOption result (IsFree self.now.mappings outside)
            (λ inside. Maps self.now.mappings inside outside) }
    {
        if outside < self.first {
            return None;
        }
        inside_at(&self.insides, usize::from(outside - self.first))
    }

    /// The outside port for a sender inside, which is assigned where there is none yet. None where no
    /// port is left.
    pub fn assign(&mut self, inside: Endpoint) -> Result<Option<u16>, NoMemory>
        ensures assigned { IfOk result (λ outside.
            Assigns self.old.ports self.old.mappings inside outside self.new.mappings) }
        ensures ports { self.new.ports ≡ self.old.ports }
        ensures unchanged { OnErr result (self.new ≡ self.old) }
        ensures unmapped { OnErr result (IsUnmapped self.old.mappings inside) }
    {
        if let Some(outside) = self.find(inside) {
            return Ok(Some(outside));
        }
        self.open(inside)
    }

    // The outside port that stands for a sender inside.
    fn find(&self, inside: Endpoint) -> Option<u16>
        ensures { MatchOption result (IsUnmapped self.now.mappings inside)
            (λ outside. Maps self.now.mappings inside outside) }
    {
        self.outsides.get(&inside).copied()
    }

    // Assigns a port to a sender that has none.
    fn open(&mut self, inside: Endpoint) -> Result<Option<u16>, NoMemory>
        requires { IsUnmapped self.old.mappings inside }
        ensures opened { IfOk result (λ outside. MatchOption outside
            (Refuses self.old.ports self.old.mappings inside self.new.mappings)
            (λ outside. Opens self.old.ports self.old.mappings inside outside self.new.mappings)) }
        ensures ports { self.new.ports ≡ self.old.ports }
        ensures unchanged { OnErr result (self.new ≡ self.old) }
    {
        let next = usize::from(self.first) + self.insides.len();
        if next > usize::from(self.last) {
            return Ok(None);
        }
        let outside = next as u16;
        self.add(inside, outside)?;
        Ok(Some(outside))
    }

    // Appends a mapping to the next port.
    fn add(&mut self, inside: Endpoint, outside: u16) -> Result<(), NoMemory>
        requires new { IsUnmapped self.old.mappings inside }
        requires next { IsNext self.old outside }
        ensures ok { OnOk result (self.new ≡ with_mapping inside outside self.old) }
        ensures err { OnErr result (self.new ≡ self.old) }
    {
        self.insides.reserve(1)?;
        self.outsides.insert(inside, outside)?;
        let _ = self.insides.push(inside);
        Ok(())
    }
}

fn inside_at(insides: &[Endpoint], at: usize) -> Option<Endpoint>
    ensures { result ≡ slice_get insides.now at }
{
    insides.get(at).copied()
}

//! Steady functions.
ghost use Rattle.std.specs.Prelude.{◌≡◌, IsTrue, IfOk, OnErr};
ghost use Rattle.nf_api.specs.Answers.{IsAnswer, is_steady};
ghost use Rattle.nf_steady.specs.Kinds.{does_grow, keeps_tests, kind_of};

use crate::filters::filter;
use crate::macs::rewrite_macs;
use crate::tags::{tag, untag};
use crate::ttl::decrement_ttl;
use nf_api::{Meta, NetFunction};
use onvm_base::{Kind, MAX_FRAME_BYTES, NoMemory, Packet, PortId, TestsList, Verdict};
use std::alloc::Global;

/// A function that keeps nothing between packets.
#[derive(Debug, Drop)]
pub enum Steady {
    Forward,
    Drop,
    Out { port: u8 },
    To { to_service: u8 },
    Filter { tests: TestsList },
    Ttl,
    Tag { vlan: u16, tag_priority: u8 },
    Untag,
    Macs { target: [u8; 6], source: [u8; 6] },
}

impl Steady {
    /// The function of a kind. Only a filter takes memory: it keeps a copy of its tests.
    pub fn make(alloc: Global, kind: &Kind) -> Result<Steady, NoMemory>
        requires steady { IsTrue (is_steady kind.now) }
        ensures made { IfOk result (λ steady. kind_of steady ≡ kind.now) }
        ensures copies { OnErr result (IsTrue (keeps_tests kind.now)) }
    {
        Ok(match kind {
            Kind::Forward => Steady::Forward,
            Kind::Drop => Steady::Drop,
            Kind::Out { port } => Steady::Out { port: *port },
            Kind::To { to_service } => Steady::To {
                to_service: *to_service,
            },
            Kind::Filter { tests } => Steady::Filter {
                tests: TestsList::from_slice(alloc, tests.as_slice())?,
            },
            Kind::Ttl => Steady::Ttl,
            Kind::Tag { vlan, tag_priority } => Steady::Tag {
                vlan: *vlan,
                tag_priority: *tag_priority,
            },
            Kind::Untag => Steady::Untag,
            Kind::Macs { target, source } => Steady::Macs {
                target: *target,
                source: *source,
            },
            Kind::Route { .. }
            | Kind::Balance { .. }
            | Kind::Count
            | Kind::Police { .. }
            | Kind::Nat { .. }
            | Kind::Guest { .. } => unreachable!(),
        })
    }

    /// Answers for a packet that this port received. Only a packet that grows takes memory.
    pub fn answer(&self, packet: &mut Packet, port: PortId) -> Result<Verdict, NoMemory>
        ensures answer { IfOk result (λ verdict.
            IsAnswer (kind_of self.now) port packet.old verdict packet.new) }
        ensures unchanged { OnErr result (packet.new ≡ packet.old) }
        ensures grows { OnErr result (IsTrue (does_grow (kind_of self.now) packet.old)) }
    {
        match self {
            Steady::Forward => Ok(Verdict::Next),
            Steady::Drop => Ok(Verdict::Drop),
            Steady::Out { port: to } => Ok(Verdict::Out(*to)),
            Steady::To { to_service } => Ok(Verdict::ToService(*to_service)),
            Steady::Filter { tests } => Ok(filter(tests, packet.bytes(), port)),
            Steady::Ttl => Ok(decrement_ttl(packet)),
            Steady::Tag { vlan, tag_priority } => tag(packet, *vlan, *tag_priority),
            Steady::Untag => {
                untag(packet);
                Ok(Verdict::Next)
            }
            Steady::Macs { target, source } => {
                rewrite_macs(packet, *target, *source);
                Ok(Verdict::Next)
            }
        }
    }
}

impl NetFunction for Steady {
    ghost use Rattle.std.specs.Prelude.{IsTrue};
    ghost use Rattle.nf_api.specs.Answers.{ActsStatelessly};
    ghost use Rattle.nf_api.specs.Tree.{nothing};
    ghost use Rattle.nf_steady.specs.Kinds.{does_grow, kind_of};

    ghost state = { λ steady. nothing };

    ghost acts = { λ steady. ActsStatelessly (kind_of steady) };

    ghost wants = { λ steady bytes. IsTrue (does_grow (kind_of steady) bytes) };

    fn handle(&mut self, packet: &mut Packet, meta: &Meta) -> Result<Verdict, NoMemory> {
        let answer = self.answer(packet, meta.frame.port);
        // A packet is within the limit wherever it is.
        prove!(packet.bytes().len() <= MAX_FRAME_BYTES);
        answer
    }
}

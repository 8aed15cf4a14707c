//! The kinds that keep something between packets.
ghost use Rattle.std.specs.Prelude.{◌≡◌, ◌≤◌, ℕ, IfOk, IsOk, IsTrue, OnErr};
ghost use Rattle.onvm_base.specs.declared.function.Kind.TheVariants.{Nat as NatKind};
ghost use Rattle.onvm_base.specs.declared.rules.Prefix.{Prefix};
ghost use Rattle.nf_state.specs.Kinds.{ActsByState, Wants, first_state, is_keeping, kind_of, state_of};
ghost use Rattle.nf_api.specs.Acts.{WantsNoMore};
ghost use Rattle.nf_api.specs.declared.meta.Meta.{Meta};

use crate::counter::Counter;
use crate::nat::Nat;
use crate::policer::Policer;
use nf_api::{Meta, NetFunction};
use onvm_base::{Kind, MAX_FRAME_BYTES, NoMemory, Packet, Stamp, Verdict};
use std::alloc::Global;

/// A function that keeps something between packets.
#[derive(Drop)]
pub enum Keeper {
    /// Counts frames and bytes.
    Count { counter: Counter },
    /// A token bucket.
    Police { policer: Policer },
    /// Translates addresses and ports.
    Nat { nat: Nat },
}

impl Keeper {
    /// The function of a kind. It takes no memory.
    pub fn make(alloc: Global, kind: &Kind) -> Result<Keeper, NoMemory>
        requires keeping { IsTrue (is_keeping kind.now) }
        requires ports { (inside : Prefix) (outside : ℕ) (ports : ℕ × ℕ)
            → kind.now ≡ NatKind inside outside ports → ports.0 ≤ ports.1 }
        ensures made { IfOk result (λ keeper. kind_of keeper ≡ kind.now) }
        ensures fresh { IfOk result (λ keeper. state_of keeper ≡ first_state kind.now) }
        ensures always { IsOk result }
    {
        match kind {
            Kind::Count => Ok(Keeper::Count {
                counter: Counter {
                    frames: 0,
                    bytes: 0,
                },
            }),
            Kind::Police { rate, depth } => Ok(Keeper::Police {
                policer: Policer {
                    rate: *rate,
                    depth: *depth,
                    bucket: None,
                },
            }),
            Kind::Nat {
                inside,
                outside,
                ports,
            } => Ok(Keeper::Nat {
                nat: Nat::make(alloc, *inside, *outside, *ports),
            }),
            _ => unreachable!(),
        }
    }

    // Handles a packet with this stamp.
    fn act(&mut self, packet: &mut Packet, stamp: Stamp) -> Result<Verdict, NoMemory>
        ensures acts { (meta : Meta) → meta.stamp ≡ stamp → IfOk result (λ verdict.
            ActsByState (kind_of self.old) (state_of self.old) packet.old meta verdict packet.new (state_of self.new)) }
        ensures kind { kind_of self.new ≡ kind_of self.old }
        ensures no_more { WantsNoMore (Wants self.new) (Wants self.old) }
        ensures unchanged { OnErr result (state_of self.new ≡ state_of self.old) }
        ensures packet { OnErr result (packet.new ≡ packet.old) }
        ensures wanting { OnErr result (Wants self.old packet.old) }
    {
        match self {
            Keeper::Count { counter } => {
                counter.count(packet.bytes());
                Ok(Verdict::Next)
            }
            Keeper::Police { policer } => Ok(policer.admit(packet.bytes(), stamp)),
            Keeper::Nat { nat } => nat.translate(packet),
        }
    }
}

impl NetFunction for Keeper {
    ghost use Rattle.nf_state.specs.Kinds.{ActsByState, Wants, kind_of, state_of};

    ghost state = { λ keeper. state_of keeper };

    ghost acts = { λ keeper. ActsByState (kind_of keeper) };

    ghost wants = { λ keeper bytes. Wants keeper bytes };

    fn handle(&mut self, packet: &mut Packet, meta: &Meta) -> Result<Verdict, NoMemory> {
        let answer = self.act(packet, meta.stamp);
        // A packet is within the limit wherever it is.
        prove!(packet.bytes().len() <= MAX_FRAME_BYTES);
        answer
    }
}

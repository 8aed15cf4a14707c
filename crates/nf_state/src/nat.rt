//! Network address and port translation (after RFC 3022).
ghost use Rattle.std.specs.Prelude.{◌≡◌, ◌≤◌, IfOk, OnErr, MatchOption};
ghost use Rattle.onvm_packet.specs.Holding.{covers_ipv4};
ghost use Rattle.nf_state.specs.Mappings.{IsFree, Assigns, IsUnmapped, Maps};
ghost use Rattle.nf_state.specs.Rewriting.{IsIn};
ghost use Rattle.nf_state.specs.Segments.{segment_of};
ghost use Rattle.nf_state.specs.Translating.{Enters, Leaves, Translates, WantsFor, no_mappings, of_protocol, sender, with_protocol};

use crate::mappings::{Endpoint, Mappings};
use crate::rewriting::{set_source, set_target};
use crate::segment::{Segment, TCP, is_whole, segment_of};
use onvm_base::{NoMemory, Packet, Prefix, Verdict};
use std::alloc::Global;
use std::marker::Model;

/// Assigns ports of one outside address to senders inside.
#[derive(Drop)]
pub struct Nat {
    inside: Prefix,
    outside: u32,
    tcp: Mappings,
    udp: Mappings,
}

impl Model for Nat {
    ghost use Rattle.std.specs.Prelude.{◌≡◌};
    ghost use Rattle.nf_state.specs.Translating.{Translation};

    ghost Value = { Translation };

    ghost view = { λ nat. record {
      parameters = record { inside = nat.inside; outside = nat.outside; ports = nat.tcp.ports };
      held = record { tcp = nat.tcp.mappings; udp = nat.udp.mappings };
    } };

    ghost invariant = { λ nat. nat.udp.ports ≡ nat.tcp.ports };
}

impl Nat {
    /// NAT without mappings. It takes no memory.
    pub fn make(alloc: Global, inside: Prefix, outside: u32, ports: (u16, u16)) -> Nat
        requires { ports.0 ≤ ports.1 }
        ensures parameters { result.parameters ≡ record { inside = inside; outside = outside; ports = ports } }
        ensures none { result.held ≡ no_mappings }
    {
        Nat {
            inside,
            outside,
            tcp: Mappings::make(alloc, ports),
            udp: Mappings::make(alloc, ports),
        }
    }

    /// Translates a packet. Only one from a sender that has no port yet takes memory.
    pub fn translate(&mut self, packet: &mut Packet) -> Result<Verdict, NoMemory>
        ensures translated { IfOk result (λ verdict.
            Translates self.old.parameters self.old.held packet.old verdict packet.new self.new.held) }
        ensures parameters { self.new.parameters ≡ self.old.parameters }
        ensures unchanged { OnErr result (self.new ≡ self.old) }
        ensures packet { OnErr result (packet.new ≡ packet.old) }
        ensures wanting { OnErr result (WantsFor self.old.parameters self.old.held (segment_of packet.old)) }
    {
        let Some(segment) = segment_of(packet.bytes()) else {
            return Ok(Verdict::Next);
        };
        if !is_whole(&segment, packet.bytes()) {
            return Ok(Verdict::Drop);
        }
        if covers(self.inside, segment.source) {
            self.leave(packet, &segment)
        } else if segment.target == self.outside {
            Ok(self.enter(packet, &segment))
        } else {
            Ok(Verdict::Next)
        }
    }

    // Sends a packet from inside on from the outside address.
    fn leave(&mut self, packet: &mut Packet, segment: &Segment) -> Result<Verdict, NoMemory>
        requires { IsIn segment.now packet.old }
        ensures left { IfOk result (λ verdict.
            Leaves self.old.parameters segment.now packet.old self.old.held verdict packet.new self.new.held) }
        ensures parameters { self.new.parameters ≡ self.old.parameters }
        ensures unchanged { OnErr result (self.new ≡ self.old) }
        ensures packet { OnErr result (packet.new ≡ packet.old) }
        ensures unmapped { OnErr result (
            IsUnmapped (of_protocol segment.now.protocol self.old.held) (sender segment.now)) }
    {
        let inside = Endpoint {
            address: segment.source,
            port: segment.source_port,
        };
        let Some(port) = self.assign(segment.protocol, inside)? else {
            return Ok(Verdict::Drop);
        };
        set_source(packet, segment, self.outside, port);
        Ok(Verdict::Next)
    }

    // Sends a packet to the outside address on to the sender that has its port.
    fn enter(&self, packet: &mut Packet, segment: &Segment) -> Verdict
        requires { IsIn segment.now packet.old }
        ensures { Enters segment.now packet.old self.now.held result packet.new self.now.held }
    {
        if let Some(inside) = self.inside(segment.protocol, segment.target_port) {
            set_target(packet, segment, inside.address, inside.port);
        }
        Verdict::Next
    }

    // The outside port for a sender inside.
    fn assign(&mut self, protocol: u8, inside: Endpoint) -> Result<Option<u16>, NoMemory>
        ensures assigned { IfOk result (λ port. Assigns self.old.parameters.ports (of_protocol protocol self.old.held)
            inside port (of_protocol protocol self.new.held)) }
        ensures held { self.new.held ≡ with_protocol protocol (of_protocol protocol self.new.held) self.old.held }
        ensures parameters { self.new.parameters ≡ self.old.parameters }
        ensures unchanged { OnErr result (self.new ≡ self.old) }
        ensures unmapped { OnErr result (IsUnmapped (of_protocol protocol self.old.held) inside) }
    {
        if protocol == TCP {
            self.tcp.assign(inside)
        } else {
            self.udp.assign(inside)
        }
    }

    // The sender inside that has an outside port.
    fn inside(&self, protocol: u8, outside: u16) -> Option<Endpoint>
        ensures { MatchOption result (IsFree (of_protocol protocol self.now.held) outside)
            (λ inside. Maps (of_protocol protocol self.now.held) inside outside) }
    {
        if protocol == TCP {
            self.tcp.inside(outside)
        } else {
            self.udp.inside(outside)
        }
    }
}

// Whether a prefix has an address.
fn covers(prefix: Prefix, address: u32) -> bool
    ensures { result ≡ covers_ipv4 prefix address }
{
    match prefix {
        Prefix::V4 {
            address: front,
            length,
        } => {
            let free = 32u8.saturating_sub(length);
            u64::from(address) >> free == u64::from(front) >> free
        }
        Prefix::V6 { .. } => false,
    }
}

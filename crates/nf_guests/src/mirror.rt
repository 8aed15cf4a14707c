//! Exchanged addresses.
ghost use Rattle.std.specs.Prelude.{◌≡◌, ◌≤◌, ◌+◌, drop, length, take};
ghost use Rattle.nf_guests.specs.Guests.{mirrored};

use nf_api::{Meta, NetFunction};
use onvm_base::{NoMemory, Packet, Verdict};
use onvm_packet::{ETHERNET_LEN, set_macs};

/// Sends each packet back to where it came from: exchanges the Ethernet addresses of a packet that
/// has an Ethernet head.
#[derive(Debug, Drop)]
pub struct Mirror;

impl NetFunction for Mirror {
    ghost use Rattle.nf_api.specs.Tree.{nothing};
    ghost use Rattle.nf_guests.specs.Guests.{ActsAsMirror};

    ghost state = { λ mirror. nothing };

    ghost acts = { λ mirror. ActsAsMirror };

    ghost wants = { λ mirror bytes. ⊥ };

    fn handle(&mut self, packet: &mut Packet, _meta: &Meta) -> Result<Verdict, NoMemory> {
        exchange_addresses(packet);
        Ok(Verdict::Next)
    }
}

// Exchanges the addresses of a packet with an Ethernet head.
fn exchange_addresses(packet: &mut Packet)
    ensures { packet.new ≡ mirrored packet.old }
{
    if packet.bytes().len() >= ETHERNET_LEN {
        let target = address_at(packet.bytes(), 0);
        let source = address_at(packet.bytes(), 6);
        set_macs(packet, source, target);
    }
}

fn address_at(bytes: &[u8], at: usize) -> [u8; 6]
    requires { at + 6 ≤ length bytes.now }
    ensures { result ≡ take 6 (drop at bytes.now) }
{
    let mut address = [0; 6];
    address.copy_from_slice(&bytes[at..at + 6]);
    address
}

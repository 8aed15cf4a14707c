//! Edits of a frame's bytes.
ghost use Rattle.std.specs.Prelude.{◌≡◌, ◌≢◌, ◌+◌, ◌≤◌, length, IsTrue, OnOk, OnErr};
ghost use Rattle.onvm_packet.specs.Bytes.{byte};
ghost use Rattle.onvm_packet.specs.Heads.{net_of, is_tagged};
ghost use Rattle.onvm_packet.specs.Edits.{with_bytes_at, with_ipv4_ttl, with_ttl, with_macs, with_tag, without_tag};
ghost use Rattle.onvm_base.specs.declared.limits.TheConstants.{MAX_FRAME_BYTES};
ghost use Rattle.onvm_packet.specs.declared.heads.Net.TheVariants as net;
ghost use Rattle.onvm_packet.specs.declared.heads.TheConstants.{ETHERNET_LEN, TAG_LEN};

use crate::checksum::swap_word;
use crate::heads::{HeadPlace, TAG_LEN, TYPE_AT, locate};
use crate::words::{u8_at, u16_at};
use onvm_base::{NoMemory, Packet};

/// Sets the TTL of an IPv4 head, with its checksum, or the hop limit of an IPv6 head.
pub fn set_ttl(packet: &mut Packet, ttl: u8)
    requires network { net_of packet.old ≢ net.None }
    ensures { packet.new ≡ with_ttl ttl packet.old }
{
    match locate(packet.bytes()) {
        HeadPlace::None => {}
        HeadPlace::V4(at) => set_ipv4_ttl(packet, at, ttl),
        HeadPlace::V6(at) => packet.overwrite(at + 7, &[ttl]),
    }
}

// Sets the TTL and the checksum of the IPv4 header that begins at an offset.
fn set_ipv4_ttl(packet: &mut Packet, at: usize, ttl: u8)
    requires { at + 20 ≤ length packet.old }
    ensures { packet.new ≡ with_ipv4_ttl ttl (byte (at + 9) packet.old) at packet.old }
{
    let protocol = u8_at(packet.bytes(), at + 9);
    let sum = u16_at(packet.bytes(), at + 10);
    let old = u16_at(packet.bytes(), at + 8);
    let new = u16::from_be_bytes([ttl, protocol]);
    let [high, low] = swap_word(sum, old, new).to_be_bytes();
    packet.overwrite(at + 8, &[ttl, protocol, high, low]);
}

/// Sets the addresses of the Ethernet head.
pub fn set_macs(packet: &mut Packet, target: [u8; 6], source: [u8; 6])
    requires { ETHERNET_LEN ≤ length packet.old }
    ensures { packet.new ≡ with_macs target source packet.old }
{
    packet.overwrite(0, &target);
    packet.overwrite(target.len(), &source);
}

/// Puts a tag of IEEE 802.1Q before the type. Its `tci` has the priority in its high three bits
/// and the VLAN in its low twelve.
pub fn push_tag(packet: &mut Packet, tci: u16) -> Result<(), NoMemory>
    requires typed { ETHERNET_LEN ≤ length packet.old }
    requires room { length packet.old + TAG_LEN ≤ MAX_FRAME_BYTES }
    ensures ok { OnOk result (packet.new ≡ with_tag tci packet.old) }
    ensures err { OnErr result (packet.new ≡ packet.old) }
{
    let [high, low] = tci.to_be_bytes();
    packet.replace(TYPE_AT, TYPE_AT, &[0x81, 0x00, high, low])?;
    Ok(())
}

/// Takes the outer tag out. It takes no memory.
pub fn pop_tag(packet: &mut Packet)
    requires { IsTrue (is_tagged packet.old) }
    ensures { packet.new ≡ without_tag packet.old }
{
    let len = packet.bytes().len();
    prove!(len >= TYPE_AT + TAG_LEN);
    packet.remove(TYPE_AT, TYPE_AT + TAG_LEN);
}

//! New Ethernet addresses.
ghost use Rattle.std.specs.Prelude.{◌≡◌};
ghost use Rattle.nf_api.specs.Answers.{with_macs_if_typed};

use onvm_base::Packet;
use onvm_packet::{ETHERNET_LEN, set_macs};

/// Writes both addresses of a frame that has an Ethernet head.
pub fn rewrite_macs(packet: &mut Packet, target: [u8; 6], source: [u8; 6])
    ensures { packet.new ≡ with_macs_if_typed target source packet.old }
{
    if packet.bytes().len() >= ETHERNET_LEN {
        set_macs(packet, target, source);
    }
}

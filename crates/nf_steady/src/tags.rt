//! Tags of IEEE 802.1Q.
ghost use Rattle.std.specs.Prelude.{◌≡◌, ◌%◌, ◌&&◌, ◌^◌, IfOk, IsTrue, OnErr};
ghost use Rattle.nf_api.specs.Answers.{GivesAndLeaves, has_room, has_type, tag_answer, tci_of, without_tag_if_any};

use onvm_base::{MAX_FRAME_BYTES, NoMemory, Packet, Verdict};
use onvm_packet::{ETHERNET_LEN, TAG_LEN, is_tagged, pop_tag, push_tag};

/// Puts a tag before the type. A frame without a type goes on as it is, and one that would be
/// too long is dropped.
pub fn tag(packet: &mut Packet, vlan: u16, priority: u8) -> Result<Verdict, NoMemory>
    ensures answer { IfOk result (λ verdict.
        GivesAndLeaves (tag_answer (tci_of vlan priority) packet.old) verdict packet.new) }
    ensures unchanged { OnErr result (packet.new ≡ packet.old) }
    ensures grows { OnErr result (IsTrue (has_type packet.old && has_room packet.old)) }
{
    let len = packet.bytes().len();
    if len < ETHERNET_LEN {
        return Ok(Verdict::Next);
    }
    if len > MAX_FRAME_BYTES - TAG_LEN {
        return Ok(Verdict::Drop);
    }
    push_tag(packet, tci_of(vlan, priority))?;
    Ok(Verdict::Next)
}

// The tag control information, of which two bytes are sent. The ranges of a plan leave nothing to
// wrap.
fn tci_of(vlan: u16, priority: u8) -> u16
    ensures { result ≡ tci_of vlan priority % 2 ^ 16 }
{
    u16::from(priority).wrapping_mul(8192).wrapping_add(vlan)
}

/// Takes the outer tag out, if there is one.
pub fn untag(packet: &mut Packet)
    ensures { packet.new ≡ without_tag_if_any packet.old }
{
    if is_tagged(packet.bytes()) {
        pop_tag(packet);
    }
}

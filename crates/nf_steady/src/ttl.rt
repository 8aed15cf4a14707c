//! TTL and hop limit.
ghost use Rattle.std.specs.Prelude.{◌≡◌};
ghost use Rattle.nf_api.specs.Answers.{GivesAndLeaves, ttl_answer};
ghost use Rattle.onvm_packet.specs.Heads.{net_of, ttl_of};

use onvm_base::{Packet, Verdict};
use onvm_packet::{set_ttl, ttl};

/// Takes one off a frame's TTL or hop limit, and drops a frame that has none left. A frame without a
/// network head goes on as it is.
pub fn decrement_ttl(packet: &mut Packet) -> Verdict
    ensures { GivesAndLeaves (ttl_answer (ttl_of (net_of packet.old)) packet.old) result packet.new }
{
    match ttl(packet.bytes()) {
        None => Verdict::Next,
        Some(0 | 1) => Verdict::Drop,
        Some(ttl) => {
            set_ttl(packet, ttl - 1);
            Verdict::Next
        }
    }
}

//! A changed bit.
ghost use Rattle.std.specs.Prelude.{◌≡◌};
ghost use Rattle.nf_guests.specs.Guests.{flipped};

use nf_api::{Meta, NetFunction};
use onvm_base::{NoMemory, Packet, Verdict};

/// Changes the lowest bit of the last byte of each packet that isn't empty. Two of them after each
/// other leave a packet as it came.
#[derive(Debug, Drop)]
pub struct Flip {
    /// The packets handled, the empty ones among them. The count stays at its greatest value.
    pub handled: u64,
}

impl NetFunction for Flip {
    ghost use Rattle.nf_api.specs.Tree.{leaf};
    ghost use Rattle.nf_guests.specs.Guests.{ActsAsFlip};

    ghost state = { λ flip. leaf flip.handled };

    ghost acts = { λ flip. ActsAsFlip };

    ghost wants = { λ flip bytes. ⊥ };

    fn handle(&mut self, packet: &mut Packet, _meta: &Meta) -> Result<Verdict, NoMemory> {
        change_last_bit(packet);
        self.handled = self.handled.saturating_add(1);
        Ok(Verdict::Next)
    }
}

// Changes the lowest bit of the last byte, if there is one.
fn change_last_bit(packet: &mut Packet)
    ensures { packet.new ≡ flipped packet.old }
{
    let len = packet.bytes().len();
    if len > 0 {
        let last = packet.bytes()[len - 1];
        packet.set(len - 1, last ^ 1);
    }
}

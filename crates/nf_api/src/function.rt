//! What handles a packet.

use crate::meta::Meta;
use onvm_base::{NoMemory, Packet, Verdict};

/// A network function.
///
/// What it does is a relation of its own, `acts`. Whoever calls it through this trait relies on the
/// clauses alone: so the packets that it handled are a journal through which `acts` leads, from the
/// state that it began with to the one that it has.
pub trait NetFunction: Drop {
    ghost use Rattle.std.specs.Prelude.{◌≡◌, ◌≤◌, ℕ, List, length, IfOk, OnErr, ⊤};
    ghost use Rattle.onvm_base.specs.declared.limits.TheConstants.{MAX_FRAME_BYTES};
    ghost use Rattle.nf_api.specs.Acts.{Acts, Narrows, WantsNoMore};
    ghost use Rattle.nf_api.specs.Tree.{Tree};

    /// What it keeps between packets.
    ghost state: { Self → Tree };

    /// What it may do.
    ghost acts: { Self → Acts };

    /// The packets for which it may want memory. Where nothing is said, these are all.
    ghost wants: { Self → List ℕ → Type 0 } = { λ function bytes. ⊤ };

    /// Handles a packet. Want of memory leaves the function and the packet as they were, and the
    /// packet may be handed in again.
    fn handle(&mut self, packet: &mut Packet, meta: &Meta) -> Result<Verdict, NoMemory>
        ensures acts { IfOk result (λ verdict.
            acts self.old (state self.old) packet.old meta.now verdict packet.new (state self.new)) }

        // What it may do later, it might have done before.
        ensures kept { Narrows (acts self.new) (acts self.old) }

        // What it may want memory for later, it might have wanted it for before.
        ensures no_more { WantsNoMore (wants self.new) (wants self.old) }
        ensures unchanged { OnErr result ((state self.new ≡ state self.old) × (packet.new ≡ packet.old)) }

        // What it might have done before a want of memory, it may do afterwards.
        ensures regained { OnErr result (Narrows (acts self.old) (acts self.new)) }
        ensures wanting { OnErr result (wants self.old packet.old) }
        ensures within { length packet.old ≤ MAX_FRAME_BYTES → length packet.new ≤ MAX_FRAME_BYTES };
}

//! Functions that the caller hands in.

use crate::function::NetFunction;
use crate::meta::Meta;
use onvm_base::{Name, NoMemory, Packet, Verdict};

/// A function that the caller hands in, under the name that a chain file gives it. It does what its
/// box does.
#[derive(Drop)]
pub struct Guest {
    pub name: Name,
    pub function: Box<dyn NetFunction + Send>,
}

impl NetFunction for Guest {
    ghost use Rattle.std.specs.Prelude.{◌≡◌, ◌≤◌, length, IfOk, OnErr};
    ghost use Rattle.onvm_base.specs.declared.limits.TheConstants.{MAX_FRAME_BYTES};
    ghost use Rattle.nf_api.specs.Acts.{Narrows, WantsNoMore};

    ghost state = { λ guest. (NetFunction-box guest.function).state guest.function.value };

    ghost acts = { λ guest. (NetFunction-box guest.function).acts guest.function.value };

    ghost wants = { λ guest. (NetFunction-box guest.function).wants guest.function.value };

    // The clauses of the trait, said of the box, and that the guest keeps its name.
    fn handle(&mut self, packet: &mut Packet, meta: &Meta) -> Result<Verdict, NoMemory>
        ensures acts { IfOk result (λ verdict.
            acts self.old.function (state self.old.function)
            packet.old meta.now verdict packet.new (state self.new.function)) }
        ensures kept { Narrows (acts self.new.function) (acts self.old.function) }
        ensures no_more { WantsNoMore (wants self.new.function) (wants self.old.function) }
        ensures unchanged { OnErr result (
            (state self.new.function ≡ state self.old.function) × (packet.new ≡ packet.old)) }
        ensures regained { OnErr result (Narrows (acts self.old.function) (acts self.new.function)) }
        ensures wanting { OnErr result (wants self.old.function packet.old) }
        ensures within { length packet.old ≤ MAX_FRAME_BYTES → length packet.new ≤ MAX_FRAME_BYTES }
        ensures name { self.new.name ≡ self.old.name }
    {
        self.function.handle(packet, meta)
    }
}

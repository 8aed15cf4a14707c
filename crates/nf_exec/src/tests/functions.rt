//! A function that wants memory for its first packet once.

use nf_api::{Meta, NetFunction};
use onvm_base::{NoMemory, Packet, Verdict};

/// Wants memory once, unless it did so before, and then counts its packets.
#[derive(Drop)]
pub struct WantsOnce {
    pub wanted: bool,
    pub handled: u64,
}

impl NetFunction for WantsOnce {
    ghost use Rattle.std.specs.Prelude.{◌≡◌, ◌+◌, min, ◌^◌, ◌-◌};
    ghost use Rattle.nf_api.specs.Tree.{leaf};
    ghost use Rattle.onvm_base.specs.declared.outcome.Verdict.TheVariants.{Next};

    ghost state = { λ function. leaf function.handled };

    ghost acts = { λ function before bytes meta verdict left after. (verdict ≡ Next) × (left ≡ bytes) };

    fn handle(&mut self, _packet: &mut Packet, _meta: &Meta) -> Result<Verdict, NoMemory> {
        if !self.wanted {
            self.wanted = true;
            return Err(NoMemory);
        }
        self.handled = self.handled.saturating_add(1);
        Ok(Verdict::Next)
    }
}

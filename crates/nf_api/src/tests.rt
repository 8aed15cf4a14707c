//! A guest in a box, called through the trait alone.

use crate::laws::two_packets_are_a_journal;
use crate::{Guest, Meta, NetFunction};
use onvm_base::{ChainId, FrameId, ListOf, NoMemory, Packet, PortId, Stamp, Verdict};
use std::test::Fail;

const META: Meta = Meta {
    frame: FrameId {
        port: PortId(0),
        number: 1,
    },
    stamp: Stamp {
        seconds: 1,
        nanos: 2000,
        tail: 0,
    },
    chain: ChainId(0),
    hops: 0,
    hash: 84_696_351,
};

// Asks to drop each packet but the first `left`, and counts them down.
#[derive(Debug, Drop)]
struct FirstFew {
    left: u64,
}

impl NetFunction for FirstFew {
    ghost use Rattle.std.specs.Prelude.{◌≡◌, ◌-◌, ◌==◌, if◌then◌else◌, ℕ};
    ghost use Rattle.nf_api.specs.Tree.{leaf};
    ghost use Rattle.onvm_base.specs.declared.outcome.Verdict.TheVariants.{Drop, Next};

    ghost state = { λ function. leaf function.left };

    ghost acts = { λ function before bytes meta verdict out after. (n : ℕ) × (before ≡ leaf n)
        × (after ≡ leaf (n - 1)) × (verdict ≡ (if n == 0 then Drop else Next)) × (out ≡ bytes) };

    fn handle(&mut self, _packet: &mut Packet, _meta: &Meta) -> Result<Verdict, NoMemory> {
        if self.left == 0 {
            return Ok(Verdict::Drop);
        }
        self.left -= 1;
        Ok(Verdict::Next)
    }
}

#[test]
fn a_boxed_guest_keeps_its_state_between_packets(rt: HostRuntime) -> Result<(), Fail> {
    let function: Box<dyn NetFunction + Send> = Box::new(rt.alloc(), FirstFew { left: 1 })?;
    let mut name = ListOf::make(rt.alloc());
    name.push(b'g')?;
    let mut guest = Guest { name, function };
    let mut first = Packet::from_slice(rt.alloc(), &[1, 2])?;
    let mut second = Packet::from_slice(rt.alloc(), &[3])?;
    let verdicts = two_packets_are_a_journal(&mut guest, &mut first, &mut second, &META);
    assert_eq!(rt; verdicts, Ok((Verdict::Next, Verdict::Drop)));
    assert_eq!(rt; first.bytes(), [1, 2].as_slice());
    assert_eq!(rt; second.bytes(), [3].as_slice());
    Ok(())
}

//! Guests are found by the names that they are handed in under.

use crate::{FileFault, Part, Place, read};
use nf_api::{Guest, Meta, NetFunction};
use onvm_base::{Kind, Name, NoMemory, Packet, Verdict};
use std::test::Fail;

// Answers Next, and keeps nothing.
#[derive(Debug, Drop)]
struct Idle {
    kept: u8,
}

impl NetFunction for Idle {
    ghost use Rattle.std.specs.Prelude.{◌≡◌};
    ghost use Rattle.nf_api.specs.Tree.{leaf};
    ghost use Rattle.onvm_base.specs.declared.outcome.Verdict.TheVariants.{Next};

    ghost state = { λ function. leaf function.kept };

    ghost acts = { λ function before bytes meta verdict out after.
        (after ≡ before) × (verdict ≡ Next) × (out ≡ bytes) };

    fn handle(&mut self, _packet: &mut Packet, _meta: &Meta) -> Result<Verdict, NoMemory> {
        Ok(Verdict::Next)
    }
}

const ONE: &[u8] =
    br#"{"version":1,"ports":1,"functions":[{"name":"f","service":1,"core":0,"kind":"guest","guest":"idle"}],"chains":[{"name":"a","steps":[{"to":1}]}],"default":"a"}"#;

const TWO: &[u8] =
    br#"{"version":1,"ports":1,"functions":[{"name":"f","service":1,"core":0,"kind":"guest","guest":"idle"},{"name":"g","service":2,"core":0,"kind":"guest","guest":"idle"}],"chains":[{"name":"a","steps":[{"to":1}]}],"default":"a"}"#;

#[test]
fn a_guest_is_found_by_its_name_and_once(rt: HostRuntime) -> Result<(), Fail> {
    let alloc = rt.alloc();
    let mut guests = Vec::new(alloc);
    guests.push(Guest {
        name: Name::from_slice(alloc, b"idle")?,
        function: Box::new(alloc, Idle { kept: 0 })?,
    })?;
    let plan = read(alloc, ONE, 1, guests.as_slice())?;
    match &plan.functions.as_slice()[0].kind {
        Kind::Guest { guest } => assert_eq!(rt; guest.as_slice(), b"idle".as_slice()),
        _ => assert!(rt; false, "no guest"),
    }
    let place = Place {
        part: Part::Function,
        item: 1,
        inner: 0,
    };
    assert_eq!(rt;
        read(alloc, TWO, 1, guests.as_slice()).err(),
        Some(FileFault::Twice { place })
    );
    Ok(())
}

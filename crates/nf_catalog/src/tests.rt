//! Units of plans, with guests that show by a count whether they are still there.
ghost use Rattle.std.specs.Prelude.{◌≡◌, ◌<◌, [], ◌∷◌, All, IfOk, length};
ghost use Rattle.onvm_base.specs.Plan.{IsChainPlan};
ghost use Rattle.onvm_base.specs.declared.function.Kind.TheVariants.{Guest as GuestKind};
ghost use Rattle.nf_catalog.specs.Examples.{function_of, two_guests};
ghost use Rattle.nf_catalog.specs.Units.{AreHandedIn};

use crate::{Unit, Units, units};
use nf_api::{Guest, Meta, NetFunction};
use onvm_base::{
    ChainId, ChainList, ChainPlan, ChainStep, FrameId, FunctionList, FunctionPlan, Kind, ListOf,
    Name, NoMemory, Packet, Plan, PortId, Stamp, Verdict,
};
use std::alloc::Global;
use std::sync::Arc;
use std::test::Fail;

const META: Meta = Meta {
    frame: FrameId {
        port: PortId(0),
        number: 1,
    },
    stamp: Stamp {
        seconds: 1,
        nanos: 2000,
        tail: 0,
    },
    chain: ChainId(0),
    hops: 0,
    hash: 84_696_351,
};

// Sends each packet out of one port. The token counts whether it is still there.
#[derive(Drop)]
struct Outward {
    port: u8,
    token: Arc<()>,
}

impl NetFunction for Outward {
    ghost use Rattle.std.specs.Prelude.{◌≡◌};
    ghost use Rattle.nf_api.specs.Tree.{nothing};
    ghost use Rattle.onvm_base.specs.declared.outcome.Verdict.TheVariants.{Out};

    ghost state = { λ function. nothing };

    ghost acts = { λ function before bytes meta verdict left after.
        (after ≡ before) × (verdict ≡ Out function.port) × (left ≡ bytes) };

    fn handle(&mut self, _packet: &mut Packet, _meta: &Meta) -> Result<Verdict, NoMemory> {
        Ok(Verdict::Out(self.port))
    }
}

fn guest(alloc: Global, name: u8, port: u8, token: &Arc<()>) -> Result<Guest, NoMemory>
    ensures { IfOk result (λ guest. guest.name ≡ name ∷ []) }
{
    let token = Arc::try_clone(token)?;
    let function: Box<dyn NetFunction + Send> = Box::new(alloc, Outward { port, token })?;
    let name = Name::from_slice(alloc, &[name])?;
    Ok(Guest { name, function })
}

// A guest c that the plan doesn't name, and behind it a and b.
fn guests(alloc: Global, spare: &Arc<()>, named: &Arc<()>) -> Result<Vec<Guest>, NoMemory>
    ensures { IfOk result (λ guests. AreHandedIn two_guests guests.items) }
{
    let mut guests = Vec::new(alloc);
    guests.push(guest(alloc, b'c', 7, spare)?)?;
    guests.push(guest(alloc, b'a', 8, named)?)?;
    guests.push(guest(alloc, b'b', 9, named)?)?;
    Ok(guests)
}

fn function(alloc: Global, service: u8, guest: u8) -> Result<FunctionPlan, NoMemory>
    requires { service < 10 }
    ensures { IfOk result (λ function. function ≡ function_of service (GuestKind (guest ∷ []))) }
{
    Ok(FunctionPlan {
        name: Name::from_slice(alloc, &[b'0' + service])?,
        service,
        core: 0,
        kind: Kind::Guest {
            guest: Name::from_slice(alloc, &[guest])?,
        },
        priority: 1,
        weight: 1024,
        cost: 100,
    })
}

fn functions(alloc: Global) -> Result<FunctionList, NoMemory>
    ensures { IfOk result (λ functions. functions ≡ two_guests) }
{
    let mut functions = ListOf::make(alloc);
    functions.push(function(alloc, 1, b'b')?)?;
    functions.push(function(alloc, 2, b'a')?)?;
    Ok(functions)
}

fn chains(alloc: Global) -> Result<ChainList, NoMemory>
    ensures count { IfOk result (λ chains. length chains ≡ 1) }
    ensures are { IfOk result (λ chains. All (IsChainPlan 1 two_guests) chains) }
{
    let mut chains = ListOf::make(alloc);
    chains.push(ChainPlan {
        name: Name::from_slice(alloc, b"c")?,
        steps: ListOf::from_slice(alloc, &[ChainStep::Out(0)])?,
    })?;
    Ok(chains)
}

fn plan(alloc: Global) -> Result<Plan, NoMemory>
    ensures { IfOk result (λ plan. plan.functions ≡ two_guests) }
{
    let functions = functions(alloc)?;
    let chains = chains(alloc)?;
    Ok(Plan {
        version: 1,
        ports: 1,
        transmit: 1,
        cores: 1,
        buffers: 1024,
        ring: 128,
        output: 128,
        burst: 32,
        high: 96,
        low: 32,
        age: 100_000,
        window: 100_000_000,
        tick: 10_000_000,
        functions,
        chains,
        rules: ListOf::make(alloc),
        default: ChainId(0),
    })
}

// A unit is handed to the thread of its core.
fn may_be_handed_over<T: Send>(_value: &T) {}

// What the unit of a function answers.
fn verdict_of(alloc: Global, units: &mut Units, at: usize) -> Result<Option<Verdict>, NoMemory> {
    let mut packet = Packet::from_slice(alloc, &[1, 2])?;
    match units.as_mut_slice().get_mut(at) {
        Some(unit) => Ok(Some(unit.handle(&mut packet, &META)?)),
        None => Ok(None),
    }
}

#[test]
fn each_guest_is_where_it_is_named_and_the_spare_one_is_dropped(
    rt: HostRuntime,
) -> Result<(), Fail> {
    let spare = Arc::new(rt.alloc(), ())?;
    let named = Arc::new(rt.alloc(), ())?;
    let guests = guests(rt.alloc(), &spare, &named)?;
    let plan = plan(rt.alloc())?;
    assert_eq!(rt;
        (Arc::strong_count(&spare), Arc::strong_count(&named)),
        (2, 3)
    );
    let Ok(mut units) = units(rt.alloc(), &plan, guests) else {
        // Comes only where an allocation is made to fail: then all guests are dropped.
        assert_eq!(rt;
            (Arc::strong_count(&spare), Arc::strong_count(&named)),
            (1, 1)
        );
        return Ok(());
    };
    may_be_handed_over(&units);
    assert_eq!(rt;
        (Arc::strong_count(&spare), Arc::strong_count(&named)),
        (1, 3)
    );
    assert_eq!(rt;
        verdict_of(rt.alloc(), &mut units, 0)?,
        Some(Verdict::Out(9))
    );
    assert_eq!(rt;
        verdict_of(rt.alloc(), &mut units, 1)?,
        Some(Verdict::Out(8))
    );
    assert_eq!(rt; verdict_of(rt.alloc(), &mut units, 2)?, None);
    drop(units);
    assert_eq!(rt;
        (Arc::strong_count(&spare), Arc::strong_count(&named)),
        (1, 1)
    );
    Ok(())
}

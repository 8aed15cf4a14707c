//! The registry of a plan of three functions, made by hand.
ghost use Rattle.std.specs.Prelude.{◌≡◌, [], ◌∷◌, IfOk};
ghost use Rattle.nf_registry.specs.Examples.{chain_of, function_of, three_functions, two_chains};

use crate::Registry;
use onvm_base::{
    ChainId, ChainList, ChainPlan, ChainStep, FnId, FunctionList, FunctionPlan, Kind, ListOf, Name,
    NoMemory, Plan,
};
use std::alloc::Global;
use std::test::Fail;

fn function(alloc: Global, letter: u8, service: u8, core: u8) -> Result<FunctionPlan, NoMemory>
    ensures { IfOk result (λ function. function ≡ function_of letter service core) }
{
    Ok(FunctionPlan {
        name: Name::from_slice(alloc, &[letter])?,
        service,
        core,
        kind: Kind::Forward,
        priority: 1,
        weight: 1024,
        cost: 100,
    })
}

fn functions(alloc: Global) -> Result<FunctionList, NoMemory>
    ensures { IfOk result (λ functions. functions ≡ three_functions) }
{
    let mut functions = ListOf::make(alloc);
    functions.push(function(alloc, b'a', 5, 0)?)?;
    functions.push(function(alloc, b'b', 6, 1)?)?;
    functions.push(function(alloc, b'c', 7, 0)?)?;
    Ok(functions)
}

fn chain(alloc: Global, letter: u8, steps: &[ChainStep]) -> Result<ChainPlan, NoMemory>
    ensures { IfOk result (λ chain. chain ≡ chain_of letter steps.now) }
{
    Ok(ChainPlan {
        name: Name::from_slice(alloc, &[letter])?,
        steps: ListOf::from_slice(alloc, steps)?,
    })
}

fn chains(alloc: Global) -> Result<ChainList, NoMemory>
    ensures { IfOk result (λ chains. chains ≡ two_chains) }
{
    let mut chains = ListOf::make(alloc);
    chains.push(chain(alloc, b'x', &[ChainStep::To(5), ChainStep::To(6)])?)?;
    chains.push(chain(
        alloc,
        b'y',
        &[ChainStep::Out(0), ChainStep::To(7), ChainStep::To(6)],
    )?)?;
    Ok(chains)
}

fn plan(alloc: Global) -> Result<Plan, NoMemory>
    ensures { IfOk result (λ plan. plan.cores ≡ 2) }
{
    let functions = functions(alloc)?;
    let chains = chains(alloc)?;
    Ok(Plan {
        version: 1,
        ports: 1,
        transmit: 2,
        cores: 2,
        buffers: 1024,
        ring: 128,
        output: 128,
        burst: 32,
        high: 96,
        low: 32,
        age: 100_000,
        window: 100_000_000,
        tick: 10_000_000,
        functions,
        chains,
        rules: ListOf::make(alloc),
        default: ChainId(0),
    })
}

#[test]
fn an_instance_is_found_by_its_service_whatever_the_hash(rt: HostRuntime) -> Result<(), Fail> {
    let registry = Registry::make(rt.alloc(), &plan(rt.alloc())?)?;
    let found = [
        (5, 0, Some(FnId(0))),
        (6, 0, Some(FnId(1))),
        (6, 4_294_967_295, Some(FnId(1))),
        (7, 3, Some(FnId(2))),
        (0, 3, None),
        (8, 3, None),
        (255, 3, None),
    ];
    for (service, hash, function) in found {
        assert_eq!(rt; registry.instance(service, hash), function);
    }
    Ok(())
}

#[test]
fn a_mask_has_the_functions_of_steps_behind_an_out(rt: HostRuntime) -> Result<(), Fail> {
    let registry = Registry::make(rt.alloc(), &plan(rt.alloc())?)?;
    assert_eq!(rt; registry.mask(ChainId(0)), 0b011);
    assert_eq!(rt; registry.mask(ChainId(1)), 0b110);
    assert_eq!(rt; registry.mask(ChainId(2)), 0);
    Ok(())
}

#[test]
fn functions_are_found_by_core_and_have_a_sender(rt: HostRuntime) -> Result<(), Fail> {
    let plan = plan(rt.alloc())?;
    let registry = Registry::make(rt.alloc(), &plan)?;
    assert_eq!(rt; registry.of_core(0), [FnId(0), FnId(2)].as_slice());
    assert_eq!(rt; registry.of_core(1), [FnId(1)].as_slice());
    let senders = [0, 1, 2].map(|number| registry.sender(FnId(number)));
    assert_eq!(rt; senders, [0, 1, 0]);
    Ok(())
}

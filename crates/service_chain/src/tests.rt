//! Moves in a plan of three functions, made by hand.
ghost use Rattle.std.specs.Prelude.{◌≡◌, [], ◌∷◌, IfOk};
ghost use Rattle.nf_registry.specs.Examples.{chain_of, function_of, three_functions, two_chains};

use crate::{Move, enter, step};
use nf_registry::Registry;
use onvm_base::{
    ChainId, ChainList, ChainPlan, ChainStep, FnId, FunctionList, FunctionPlan, Kind, ListOf, Name,
    NoMemory, Plan, Verdict, Why,
};
use std::alloc::Global;
use std::test::Fail;

fn function(alloc: Global, letter: u8, service: u8, core: u8) -> Result<FunctionPlan, NoMemory>
    ensures { IfOk result (λ function. function ≡ function_of letter service core) }
{
    Ok(FunctionPlan {
        name: Name::from_slice(alloc, &[letter])?,
        service,
        core,
        kind: Kind::Forward,
        priority: 1,
        weight: 1024,
        cost: 100,
    })
}

fn functions(alloc: Global) -> Result<FunctionList, NoMemory>
    ensures { IfOk result (λ functions. functions ≡ three_functions) }
{
    let mut functions = ListOf::make(alloc);
    functions.push(function(alloc, b'a', 5, 0)?)?;
    functions.push(function(alloc, b'b', 6, 1)?)?;
    functions.push(function(alloc, b'c', 7, 0)?)?;
    Ok(functions)
}

fn chain(alloc: Global, letter: u8, steps: &[ChainStep]) -> Result<ChainPlan, NoMemory>
    ensures { IfOk result (λ chain. chain ≡ chain_of letter steps.now) }
{
    Ok(ChainPlan {
        name: Name::from_slice(alloc, &[letter])?,
        steps: ListOf::from_slice(alloc, steps)?,
    })
}

fn chains(alloc: Global) -> Result<ChainList, NoMemory>
    ensures { IfOk result (λ chains. chains ≡ two_chains) }
{
    let mut chains = ListOf::make(alloc);
    chains.push(chain(alloc, b'x', &[ChainStep::To(5), ChainStep::To(6)])?)?;
    chains.push(chain(
        alloc,
        b'y',
        &[ChainStep::Out(0), ChainStep::To(7), ChainStep::To(6)],
    )?)?;
    Ok(chains)
}

fn plan(alloc: Global) -> Result<Plan, NoMemory> {
    let functions = functions(alloc)?;
    let chains = chains(alloc)?;
    Ok(Plan {
        version: 1,
        ports: 1,
        transmit: 2,
        cores: 2,
        buffers: 1024,
        ring: 128,
        output: 128,
        burst: 32,
        high: 96,
        low: 32,
        age: 100_000,
        window: 100_000_000,
        tick: 10_000_000,
        functions,
        chains,
        rules: ListOf::make(alloc),
        default: ChainId(0),
    })
}

#[test]
fn a_frame_enters_at_the_first_step_of_its_chain(rt: HostRuntime) -> Result<(), Fail> {
    let plan = plan(rt.alloc())?;
    let registry = Registry::make(rt.alloc(), &plan)?;
    let entered = [
        (ChainId(0), Move::To(FnId(0), 0)),
        (ChainId(1), Move::Leave(0)),
        (ChainId(2), Move::End(Why::ChainEnd)),
        (ChainId(255), Move::End(Why::ChainEnd)),
    ];
    for (chain, goes) in entered {
        assert_eq!(rt; enter(&plan, &registry, chain, 7), goes);
    }
    Ok(())
}

#[test]
fn a_frame_goes_on_by_its_verdict(rt: HostRuntime) -> Result<(), Fail> {
    let plan = plan(rt.alloc())?;
    let registry = Registry::make(rt.alloc(), &plan)?;
    let moves = [
        (0, 1, Verdict::Next, Move::To(FnId(1), 1)),
        (1, 2, Verdict::Next, Move::End(Why::ChainEnd)),
        (255, 2, Verdict::Next, Move::End(Why::ChainEnd)),
        (1, 2, Verdict::Drop, Move::End(Why::Asked)),
        (1, 2, Verdict::Out(0), Move::Leave(0)),
        (1, 2, Verdict::Out(1), Move::End(Why::NoPort)),
        (1, 2, Verdict::ToService(7), Move::To(FnId(2), 1)),
        (0, 31, Verdict::Next, Move::To(FnId(1), 1)),
        (0, 32, Verdict::Next, Move::End(Why::Hops)),
        (1, 32, Verdict::ToService(7), Move::End(Why::Hops)),
        (1, 32, Verdict::ToService(8), Move::End(Why::NoService)),
        (1, 32, Verdict::Out(0), Move::Leave(0)),
    ];
    for (cursor, hops, verdict, goes) in moves {
        assert_eq!(rt;
            step(&plan, &registry, ChainId(0), cursor, hops, verdict, 7),
            goes
        );
    }
    Ok(())
}

//! The plan of the tests: three functions on two cores.
ghost use Rattle.std.specs.Prelude.{◌≡◌, ◌≤◌, [], ◌∷◌, IfOk};
ghost use Rattle.nf_registry.specs.Examples.{chain_of, function_of, three_functions, two_chains};
ghost use Rattle.nf_exec.specs.Examples.{IsTestPlan};

use onvm_base::{
    ChainId, ChainList, ChainPlan, ChainStep, FunctionList, FunctionPlan, Kind, ListOf, Name,
    NoMemory, Plan,
};
use std::alloc::Global;

fn function(alloc: Global, letter: u8, service: u8, core: u8) -> Result<FunctionPlan, NoMemory>
    ensures { IfOk result (λ function. function ≡ function_of letter service core) }
{
    Ok(FunctionPlan {
        name: Name::from_slice(alloc, &[letter])?,
        service,
        core,
        kind: Kind::Forward,
        priority: 1,
        weight: 1024,
        cost: 100,
    })
}

fn functions(alloc: Global) -> Result<FunctionList, NoMemory>
    ensures { IfOk result (λ functions. functions ≡ three_functions) }
{
    let mut functions = ListOf::make(alloc);
    functions.push(function(alloc, b'a', 5, 0)?)?;
    functions.push(function(alloc, b'b', 6, 1)?)?;
    functions.push(function(alloc, b'c', 7, 0)?)?;
    Ok(functions)
}

fn chain(alloc: Global, letter: u8, steps: &[ChainStep]) -> Result<ChainPlan, NoMemory>
    ensures { IfOk result (λ chain. chain ≡ chain_of letter steps.now) }
{
    Ok(ChainPlan {
        name: Name::from_slice(alloc, &[letter])?,
        steps: ListOf::from_slice(alloc, steps)?,
    })
}

fn chains(alloc: Global) -> Result<ChainList, NoMemory>
    ensures { IfOk result (λ chains. chains ≡ two_chains) }
{
    let mut chains = ListOf::make(alloc);
    chains.push(chain(alloc, b'x', &[ChainStep::To(5), ChainStep::To(6)])?)?;
    chains.push(chain(
        alloc,
        b'y',
        &[ChainStep::Out(0), ChainStep::To(7), ChainStep::To(6)],
    )?)?;
    Ok(chains)
}

/// Two ports, bursts of 8, and output rings of so many cells.
pub fn plan(alloc: Global, output: u16) -> Result<Plan, NoMemory>
    requires output { (2 ≤ output) × (output ≤ 1024) }
    ensures { IfOk result (λ plan. IsTestPlan plan) }
{
    let functions = functions(alloc)?;
    let chains = chains(alloc)?;
    Ok(Plan {
        version: 1,
        ports: 2,
        transmit: 1,
        cores: 2,
        buffers: 16,
        ring: 16,
        output,
        burst: 8,
        high: 12,
        low: 4,
        age: 100_000,
        window: 100_000_000,
        tick: 10_000_000,
        functions,
        chains,
        rules: ListOf::make(alloc),
        default: ChainId(0),
    })
}

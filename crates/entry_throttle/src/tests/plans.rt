//! The plan of the tests.
ghost use Rattle.std.specs.Prelude.{◌≡◌, All, IfOk, length};
ghost use Rattle.onvm_base.specs.Plan.{IsChainPlan};
ghost use Rattle.entry_throttle.specs.Examples.{IsSmallPlan, one_function};

use onvm_base::{
    ChainId, ChainList, ChainPlan, ChainStep, FunctionList, FunctionPlan, Kind, ListOf, Name,
    NoMemory, Plan,
};
use std::alloc::Global;

fn functions(alloc: Global) -> Result<FunctionList, NoMemory>
    ensures { IfOk result (λ functions. functions ≡ one_function) }
{
    let mut functions = ListOf::make(alloc);
    functions.push(FunctionPlan {
        name: Name::from_slice(alloc, b"f")?,
        service: 1,
        core: 0,
        kind: Kind::Forward,
        priority: 1,
        weight: 1024,
        cost: 100,
    })?;
    Ok(functions)
}

fn chains(alloc: Global) -> Result<ChainList, NoMemory>
    ensures count { IfOk result (λ chains. length chains ≡ 1) }
    ensures are { IfOk result (λ chains. All (IsChainPlan 1 one_function) chains) }
{
    let mut chains = ListOf::make(alloc);
    chains.push(ChainPlan {
        name: Name::from_slice(alloc, b"c")?,
        steps: ListOf::from_slice(alloc, &[ChainStep::Out(0)])?,
    })?;
    Ok(chains)
}

/// High mark 4, low mark 2, and an age of 3000 nanoseconds.
pub fn plan(alloc: Global) -> Result<Plan, NoMemory>
    ensures { IfOk result (λ plan. IsSmallPlan plan) }
{
    let functions = functions(alloc)?;
    let chains = chains(alloc)?;
    Ok(Plan {
        version: 1,
        ports: 1,
        transmit: 1,
        cores: 1,
        buffers: 8,
        ring: 8,
        output: 8,
        burst: 8,
        high: 4,
        low: 2,
        age: 3000,
        window: 100_000_000,
        tick: 10_000_000,
        functions,
        chains,
        rules: ListOf::make(alloc),
        default: ChainId(0),
    })
}

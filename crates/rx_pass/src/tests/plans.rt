//! Plans of three functions and two chains.
ghost use Rattle.std.specs.Prelude.{◌≡◌, ◌≤◌, ◌<◌, [], ◌∷◌, IfOk};
ghost use Rattle.nf_registry.specs.Examples.{chain_of, function_of, three_functions, two_chains};

use onvm_base::{
    ChainId, ChainList, ChainPlan, ChainStep, FunctionList, FunctionPlan, Kind, ListOf, Name,
    NoMemory, Plan,
};
use std::alloc::Global;

fn function(alloc: Global, letter: u8, service: u8, core: u8) -> Result<FunctionPlan, NoMemory>
    ensures { IfOk result (λ function. function ≡ function_of letter service core) }
{
    Ok(FunctionPlan {
        name: Name::from_slice(alloc, &[letter])?,
        service,
        core,
        kind: Kind::Forward,
        priority: 1,
        weight: 1024,
        cost: 100,
    })
}

fn functions(alloc: Global) -> Result<FunctionList, NoMemory>
    ensures { IfOk result (λ functions. functions ≡ three_functions) }
{
    let mut functions = ListOf::make(alloc);
    functions.push(function(alloc, b'a', 5, 0)?)?;
    functions.push(function(alloc, b'b', 6, 1)?)?;
    functions.push(function(alloc, b'c', 7, 0)?)?;
    Ok(functions)
}

fn chain(alloc: Global, letter: u8, steps: &[ChainStep]) -> Result<ChainPlan, NoMemory>
    ensures { IfOk result (λ chain. chain ≡ chain_of letter steps.now) }
{
    Ok(ChainPlan {
        name: Name::from_slice(alloc, &[letter])?,
        steps: ListOf::from_slice(alloc, steps)?,
    })
}

// Chain 0 begins at function 0, chain 1 leaves at once.
fn chains(alloc: Global) -> Result<ChainList, NoMemory>
    ensures { IfOk result (λ chains. chains ≡ two_chains) }
{
    let mut chains = ListOf::make(alloc);
    chains.push(chain(alloc, b'x', &[ChainStep::To(5), ChainStep::To(6)])?)?;
    chains.push(chain(
        alloc,
        b'y',
        &[ChainStep::Out(0), ChainStep::To(7), ChainStep::To(6)],
    )?)?;
    Ok(chains)
}

/// How many frames a lane holds, its marks, and the most frames of a pass.
#[derive(Clone, Copy)]
pub struct Sizes {
    pub ring: u16,
    pub high: u16,
    pub low: u16,
    pub burst: u16,
}

pub const SIZES: Sizes = Sizes {
    ring: 16,
    high: 12,
    low: 4,
    burst: 8,
};

/// With so many buffers, an age of so many nanoseconds, and this chain for all frames.
pub fn plan(alloc: Global, buffers: u16, age: u64, chain: u8) -> Result<Plan, NoMemory>
    requires buffers { (1 ≤ buffers) × (buffers ≤ 1024) }
    requires age { age ≤ 1000000 }
    requires chain { chain < 2 }
{
    plan_of(alloc, SIZES, buffers, age, chain)
}

pub fn plan_of(
    alloc: Global,
    sizes: Sizes,
    buffers: u16,
    age: u64,
    chain: u8,
) -> Result<Plan, NoMemory>
    requires ring { (2 ≤ sizes.ring) × (sizes.ring ≤ 1024) }
    requires marks { (1 ≤ sizes.low) × (sizes.low < sizes.high) × (sizes.high ≤ sizes.ring) }
    requires burst { (1 ≤ sizes.burst) × (sizes.burst ≤ 1024) }
    requires buffers { (1 ≤ buffers) × (buffers ≤ 1024) }
    requires age { age ≤ 1000000 }
    requires chain { chain < 2 }
{
    let functions = functions(alloc)?;
    let chains = chains(alloc)?;
    Ok(Plan {
        version: 1,
        ports: 1,
        transmit: 2,
        cores: 2,
        buffers,
        ring: sizes.ring,
        output: 16,
        burst: sizes.burst,
        high: sizes.high,
        low: sizes.low,
        age,
        window: 100_000_000,
        tick: 10_000_000,
        functions,
        chains,
        rules: ListOf::make(alloc),
        default: ChainId(chain),
    })
}

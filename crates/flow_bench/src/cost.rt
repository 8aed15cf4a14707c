//! The time that the chain of a frame takes.
ghost use Rattle.std.specs.Prelude.{◌≡◌};

use crate::frames::{FRAMES, heads_of};
use flow_table::FlowTable;
use onvm_base::{ChainId, NoMemory, Plan, PortId};
use onvm_host::Clock;
use onvm_packet::Heads;
use rule_match::{Compiled, first};
use std::alloc::Global;

const PORT: PortId = PortId(0);

// Few enough flows to be remembered all, and so many that each frame pushes one out.
const FEW_FLOWS: u16 = 1_000;

const MANY_FLOWS: u16 = FRAMES;

/// The least times in nanoseconds that a batch of frames took.
#[derive(Clone, Copy, Debug)]
pub struct Cost {
    /// By the rules as they stand in the file.
    pub first: u64,
    /// By the rules made ready.
    pub compiled: u64,
    /// By a table that remembers each flow.
    pub known: u64,
    /// By a table that remembers none of them.
    pub new: u64,
    /// A sum over all chains. Since it is printed, the compiler can leave out no work that it depends
    /// on.
    pub sum: u64,
}

/// Of one frame of a batch, in tenths of a nanosecond.
pub fn tenths(batch: u64) -> u64 {
    batch.saturating_mul(10) / u64::from(FRAMES)
}

/// What the chain of a frame costs by this plan, measured in so many rounds.
pub fn cost_of<C: Clock>(
    alloc: Global,
    clock: &C,
    plan: &Plan,
    rounds: u32,
) -> Result<Cost, NoMemory> {
    let compiled = Compiled::make(alloc, &plan.rules)?;
    let mut few = FlowTable::make(alloc, plan, PORT)?;
    let mut many = FlowTable::make(alloc, plan, PORT)?;
    let few_heads = heads_of(alloc, FEW_FLOWS)?;
    let many_heads = heads_of(alloc, MANY_FLOWS)?;
    let mut cost = Cost {
        first: u64::MAX,
        compiled: u64::MAX,
        known: u64::MAX,
        new: u64::MAX,
        sum: by_table(&mut few, plan, &few_heads),
    };
    for _ in 0..rounds {
        let start = clock.now();
        let one = by_rules(plan, &few_heads);
        let ruled = clock.now();
        let two = by_lists(&compiled, &few_heads);
        let listed = clock.now();
        let three = by_table(&mut few, plan, &few_heads);
        let known = clock.now();
        let four = by_table(&mut many, plan, &many_heads);
        let end = clock.now();
        cost.first = cost.first.min(ruled.saturating_sub(start));
        cost.compiled = cost.compiled.min(listed.saturating_sub(ruled));
        cost.known = cost.known.min(known.saturating_sub(listed));
        cost.new = cost.new.min(end.saturating_sub(known));
        let sum = one.wrapping_add(two).wrapping_add(three).wrapping_add(four);
        cost.sum = cost.sum.wrapping_add(sum);
    }
    Ok(cost)
}

fn number(chain: Option<ChainId>) -> u64 {
    chain.map_or(100, |chain| u64::from(chain.0))
}

fn by_rules(plan: &Plan, heads: &[Heads]) -> u64 {
    let mut sum = 0u64;
    for one in heads {
        sum = sum.wrapping_add(number(first(&plan.rules, PORT, one)));
    }
    sum
}

fn by_lists(rules: &Compiled, heads: &[Heads]) -> u64 {
    let mut sum = 0u64;
    for one in heads {
        sum = sum.wrapping_add(number(rules.first(PORT, one)));
    }
    sum
}

fn by_table(table: &mut FlowTable, plan: &Plan, heads: &[Heads]) -> u64
    requires { table.old.rules ≡ plan.now.rules }
    ensures { table.new ≡ table.old }
{
    let mut sum = 0u64;
    for one in heads {
        sum = sum.wrapping_add(u64::from(table.chain(plan, one).0));
    }
    sum
}

//! The moves of a frame. None takes memory.
ghost use Rattle.std.specs.Prelude.{◌≡◌, ◌+◌};
ghost use Rattle.onvm_base.specs.Moves as spec;

use nf_registry::Registry;
use onvm_base::{ChainId, ChainStep, MAX_HOPS, Move, Plan, Verdict, Why};

/// Where a frame enters. The registry is the plan's.
pub fn enter(plan: &Plan, registry: &Registry, chain: ChainId, hash: u32) -> Move
    requires { registry.now ≡ plan.now }
    ensures { result ≡ spec.enter plan.now chain hash }
{
    to_step(step_at(plan, chain, 0), registry, 0, 0, hash)
}

/// Where a frame goes on a verdict, at this cursor of its chain and after so many hops. The registry is
/// the plan's.
pub fn step(
    plan: &Plan,
    registry: &Registry,
    chain: ChainId,
    cursor: u8,
    hops: u8,
    verdict: Verdict,
    hash: u32,
) -> Move
    requires { registry.now ≡ plan.now }
    ensures { result ≡ spec.step plan.now chain cursor hops verdict hash }
{
    match verdict {
        Verdict::Drop => Move::End(Why::Asked),
        Verdict::Next => after(plan, registry, chain, cursor, hops, hash),
        Verdict::ToService(service) => to_service(registry, service, cursor, hops, hash),
        Verdict::Out(port) if port < plan.ports => Move::Leave(port),
        Verdict::Out(_) => Move::End(Why::NoPort),
    }
}

// To the step behind the cursor. No chain is so long that its cursor could not be counted.
fn after(plan: &Plan, registry: &Registry, chain: ChainId, cursor: u8, hops: u8, hash: u32) -> Move
    requires { registry.now ≡ plan.now }
    ensures { result ≡ spec.to_step plan.now (spec.step_at plan.now chain (cursor + 1)) (cursor + 1) hops hash }
{
    let Some(next) = cursor.checked_add(1) else {
        return Move::End(Why::ChainEnd);
    };
    to_step(step_at(plan, chain, next), registry, next, hops, hash)
}

fn step_at(plan: &Plan, chain: ChainId, cursor: u8) -> Option<ChainStep>
    ensures { result ≡ spec.step_at plan.now chain cursor }
{
    match plan.chains.get(chain.0 as usize) {
        Some(chain) => chain.steps.get(cursor as usize).copied(),
        None => None,
    }
}

fn to_step(step: Option<ChainStep>, registry: &Registry, cursor: u8, hops: u8, hash: u32) -> Move
    ensures { result ≡ spec.to_step registry.now step cursor hops hash }
{
    match step {
        Some(ChainStep::To(service)) => to_service(registry, service, cursor, hops, hash),
        Some(ChainStep::Out(port)) => Move::Leave(port),
        None => Move::End(Why::ChainEnd),
    }
}

fn to_service(registry: &Registry, service: u8, cursor: u8, hops: u8, hash: u32) -> Move
    ensures { result ≡ spec.to_service registry.now service cursor hops hash }
{
    match registry.instance(service, hash) {
        None => Move::End(Why::NoService),
        Some(_) if hops == MAX_HOPS => Move::End(Why::Hops),
        Some(function) => Move::To(function, cursor),
    }
}

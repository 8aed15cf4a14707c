//! Functions by the service that they offer, and by the core that they run on.
ghost use Rattle.std.specs.Prelude.{◌≡◌, ◌<◌, ◌≤◌, ℕ, Some, length, slice_get, IfOk};
ghost use Rattle.onvm_base.specs.declared.limits.TheConstants.{MAX_FUNCTIONS};
ghost use Rattle.onvm_base.specs.Services.{instances};
ghost use Rattle.nf_registry.specs.Places.{residents};

use onvm_base::{FnId, FunctionPlan, ListOf, NoMemory};
use std::alloc::Global;

/// Functions in file order.
pub type FnList = ListOf<FnId>;

/// Numbers of functions in file order.
pub type Numbers = ListOf<u8>;

/// The services that a number of 8 bits can name.
pub const SERVICES: usize = 256;

/// By service, the numbers of its instances.
pub fn by_service(alloc: Global, functions: &[FunctionPlan]) -> Result<Vec<Numbers>, NoMemory>
    requires { length functions.now ≤ MAX_FUNCTIONS }
    ensures { IfOk result (λ table. (service : ℕ) → service < SERVICES
        → slice_get table.items service ≡ Some (instances service functions.now)) }
{
    let mut table = Vec::new(alloc);
    for service in 0..SERVICES {
        table.push(offering(alloc, functions, service as u8)?)?;
    }
    Ok(table)
}

fn offering(alloc: Global, functions: &[FunctionPlan], service: u8) -> Result<Numbers, NoMemory>
    requires { length functions.now ≤ MAX_FUNCTIONS }
    ensures { IfOk result (λ list. list ≡ instances service functions.now) }
{
    let mut list = Numbers::make(alloc);
    for at in 0..functions.len() {
        if functions[at].service == service {
            list.push(at as u8)?;
        }
    }
    Ok(list)
}

/// By core, its functions.
pub fn by_core(
    alloc: Global,
    functions: &[FunctionPlan],
    cores: u8,
) -> Result<Vec<FnList>, NoMemory>
    requires { length functions.now ≤ MAX_FUNCTIONS }
    ensures { IfOk result (λ table. (core : ℕ) → core < cores
        → slice_get table.items core ≡ Some (residents core functions.now)) }
{
    let mut table = Vec::new(alloc);
    for core in 0..cores {
        table.push(running(alloc, functions, core)?)?;
    }
    Ok(table)
}

fn running(alloc: Global, functions: &[FunctionPlan], core: u8) -> Result<FnList, NoMemory>
    requires { length functions.now ≤ MAX_FUNCTIONS }
    ensures { IfOk result (λ list. list ≡ residents core functions.now) }
{
    let mut list = FnList::make(alloc);
    for at in 0..functions.len() {
        if functions[at].core == core {
            list.push(FnId(at as u8))?;
        }
    }
    Ok(list)
}

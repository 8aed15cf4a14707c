//! The registry of a plan.
ghost use Rattle.std.specs.Prelude.{◌≡◌, ◌<◌, ◌%◌, IfOk};
ghost use Rattle.onvm_base.specs.Services.{instances};
ghost use Rattle.nf_registry.specs.Masks.{IsMask};
ghost use Rattle.nf_registry.specs.Places.{picked, residents};

use crate::masks::masks_of;
use crate::tables::{FnList, Numbers, by_core, by_service};
use onvm_base::{ChainId, FnId, NoMemory, Plan};
use std::alloc::Global;
use std::fmt;
use std::marker::Model;
use std::snapshot::Snapshot;

/// What a plan's services, chains and cores are made of, each looked up in one step.
#[derive(Drop)]
pub struct Registry {
    // By service, the numbers of its instances.
    services: Vec<Numbers>,
    cores: Vec<FnList>,
    // By chain.
    masks: Vec<u32>,
    transmit: u8,
    made_of: Snapshot<Plan>,
}

impl Model for Registry {
    ghost use Rattle.onvm_base.specs.declared.plan.Plan.{Plan};
    ghost use Rattle.nf_registry.specs.Registry.{IsRegistry};

    ghost Value = { Plan };

    ghost view = { λ registry. registry.made_of.value };

    ghost invariant = { IsRegistry };
}

impl Registry {
    /// The registry of a plan.
    pub fn make(alloc: Global, plan: &Plan) -> Result<Registry, NoMemory>
        ensures { IfOk result (λ registry. registry ≡ plan.now) }
    {
        let functions = plan.functions.as_slice();
        let services = by_service(alloc, functions)?;
        let cores = by_core(alloc, functions, plan.cores)?;
        let masks = masks_of(alloc, plan)?;
        Ok(Registry {
            services,
            cores,
            masks,
            transmit: plan.transmit,
            made_of: Snapshot::of(plan),
        })
    }

    /// The instance of a service that handles the frames of a flow hash. It takes no memory.
    pub fn instance(&self, service: u8, hash: u32) -> Option<FnId>
        ensures { result ≡ picked (instances service self.now.functions) hash }
    {
        pick(self.services[service as usize].as_slice(), hash)
    }

    /// A bit for each function of a chain. It takes no memory.
    pub fn mask(&self, chain: ChainId) -> u32
        ensures { IsMask self.now chain result }
    {
        match self.masks.get(chain.0 as usize) {
            Some(mask) => *mask,
            None => 0,
        }
    }

    /// The functions of a core, in file order. It takes no memory.
    pub fn of_core(&self, core: u8) -> &[FnId]
        requires { core < self.now.cores }
        ensures { result.now ≡ residents core self.now.functions }
    {
        self.cores[core as usize].as_slice()
    }

    /// The transmit role that moves what a function has handled. It takes no memory.
    pub fn sender(&self, function: FnId) -> u8
        ensures { result ≡ function.0 % self.now.transmit }
    {
        function.0 % self.transmit
    }
}

// The instance that a flow hash picks of these.
fn pick(instances: &[u8], hash: u32) -> Option<FnId>
    ensures { result ≡ picked instances.now hash }
{
    if instances.is_empty() {
        return None;
    }
    Some(FnId(instances[hash as usize % instances.len()]))
}

// By hand, since a snapshot has nothing to print.
impl fmt::Debug for Registry {
    fn fmt<W: fmt::Write>(&self, f: &mut fmt::Formatter<W>) -> fmt::Result {
        f.debug_struct("Registry")
            .field("services", &self.services)
            .field("cores", &self.cores)
            .field("masks", &self.masks)
            .field("transmit", &self.transmit)
            .finish_non_exhaustive()
    }
}

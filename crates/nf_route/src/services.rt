//! Services that share flows.
ghost use Rattle.std.specs.Prelude.{◌≡◌, ◌<◌, ◌%◌, length, slice_index, IfOk};

use onvm_base::NoMemory;
use std::alloc::Global;
use std::marker::Model;

/// Numbers of services, one at least.
#[derive(Debug, Drop)]
pub struct Services {
    numbers: Vec<u8>,
}

impl Model for Services {
    ghost use Rattle.std.specs.Prelude.{List, ℕ, length, ◌<◌};

    ghost Value = { List ℕ };

    ghost view = { λ services. services.numbers.items };

    ghost invariant = { λ services. 0 < length services.numbers.items };
}

impl Services {
    /// These services.
    pub fn make(alloc: Global, numbers: &[u8]) -> Result<Services, NoMemory>
        requires { 0 < length numbers.now }
        ensures { IfOk result (λ services. services ≡ numbers.now) }
    {
        let numbers = Vec::from_slice(alloc, numbers)?;
        Ok(Services { numbers })
    }

    /// The service of the flows with this hash. It takes no memory.
    pub fn pick(&self, hash: u32) -> u8
        ensures { result ≡ slice_index self.now (hash % length self.now) }
    {
        self.numbers[hash as usize % self.numbers.len()]
    }
}

//! The kinds that pick where a frame goes by its heads.
ghost use Rattle.std.specs.Prelude.{◌≡◌, ◌<◌, ℕ, List, length, IfOk, IsTrue};
ghost use Rattle.onvm_base.specs.declared.ids.PortId.{PortId};
ghost use Rattle.onvm_base.specs.declared.function.Kind.TheVariants.{Balance};
ghost use Rattle.nf_api.specs.Answers.{is_routing, ActsStatelessly, IsAnswer};
ghost use Rattle.nf_api.specs.Routing.{IsRouted};
ghost use Rattle.nf_api.specs.Tree.{nothing};
ghost use Rattle.onvm_packet.specs.Heads.{net_of};
ghost use Rattle.nf_route.specs.Kinds.{kind_of};

use crate::services::Services;
use crate::table::Table;
use nf_api::{Meta, NetFunction};
use onvm_base::{Kind, NoMemory, Packet, Verdict};
use onvm_packet::{Net, flow_hash, network, parse};
use std::alloc::Global;

/// A function that sends a frame on by its heads.
#[derive(Debug, Drop)]
pub enum Route {
    /// By the longest prefix that has the IPv4 target (RFC 1812, 5.2.4.3).
    Route { table: Table },
    /// Spreads flows over services.
    Balance { services: Services },
}

impl Route {
    /// The function of a kind, whose parameters it copies.
    pub fn make(alloc: Global, kind: &Kind) -> Result<Route, NoMemory>
        requires not_empty { (services : List ℕ) → kind.now ≡ Balance services → 0 < length services }
        requires routing { IsTrue (is_routing kind.now) }
        ensures { IfOk result (λ route. kind_of route ≡ kind.now) }
    {
        match kind {
            Kind::Route { table } => {
                let table = Table::make(alloc, table)?;
                Ok(Route::Route { table })
            }
            Kind::Balance { services } => {
                let services = Services::make(alloc, services.as_slice())?;
                Ok(Route::Balance { services })
            }
            _ => unreachable!(),
        }
    }

    /// The verdict for a frame of these bytes. It takes no memory.
    pub fn verdict(&self, bytes: &[u8]) -> Verdict
        ensures { (port : PortId) → IsAnswer (kind_of self.now) port bytes.now result bytes.now }
    {
        match self {
            Route::Route { table } => verdict_for(table, &network(bytes)),
            Route::Balance { services } => {
                Verdict::ToService(services.pick(flow_hash(&parse(bytes))))
            }
        }
    }
}

// The verdict of a table for a network head.
fn verdict_for(table: &Table, net: &Net) -> Verdict
    ensures { IsRouted table.now net.now result }
{
    match *net {
        Net::V4 { target, .. } => table.find(target),
        Net::None | Net::V6 { .. } => Verdict::Drop,
    }
}

impl NetFunction for Route {
    ghost state = { λ route. nothing };

    ghost acts = { λ route. ActsStatelessly (kind_of route) };

    ghost wants = { λ route bytes. ⊥ };

    fn handle(&mut self, packet: &mut Packet, _meta: &Meta) -> Result<Verdict, NoMemory> {
        Ok(self.verdict(packet.bytes()))
    }
}

//! What rules pick, remembered by flow.
ghost use Rattle.std.specs.Prelude.{◌≡◌, ◌≢◌, [], IfOk};
ghost use Rattle.flow_table.specs.Flows.{table_of};
ghost use Rattle.rule_match.specs.Rules.{chain_of, first_chain};

use lru::LruCache;
use onvm_base::{ChainId, NoMemory, Plan, PortId};
use onvm_packet::{FlowKey, Heads};
use rule_match::Compiled;
use std::alloc::Global;
use std::marker::Model;
use std::num::NonZeroUsize;

/// The most flows that a table remembers.
pub const MAX_FLOWS: usize = 1024;

/// The rules of a plan, for the frames that one port receives. Besides them it holds what they pick
/// for flows that it remembers, which no contract sees.
#[derive(Drop)]
pub struct FlowTable {
    port: PortId,
    rules: Compiled,
    flows: LruCache<FlowKey, Option<ChainId>>,
}

impl Model for FlowTable {
    ghost use Rattle.flow_table.specs.Flows.{PortRules, Remembers};

    ghost Value = { PortRules };

    ghost view = { λ table. record { port = table.port; rules = table.rules } };

    ghost invariant = { λ table. Remembers table.port table.rules table.flows.entries };
}

impl FlowTable {
    /// The rules of this plan, which it copies, and no flow. All memory that a table must have is
    /// taken here.
    pub fn make(alloc: Global, plan: &Plan, port: PortId) -> Result<FlowTable, NoMemory>
        ensures { IfOk result (λ table. table ≡ table_of plan.now port) }
    {
        let rules = Compiled::make(alloc, &plan.rules)?;
        let flows = LruCache::new(alloc, NonZeroUsize::new(MAX_FLOWS).unwrap())?;
        Ok(FlowTable { port, rules, flows })
    }

    /// The chain of a frame with these heads that the port received, by the plan that the table was
    /// made of. It always answers: where memory is wanting, a flow isn't remembered. Without rules
    /// no flow is looked for.
    pub fn chain(&mut self, plan: &Plan, heads: &Heads) -> ChainId
        requires { self.old.rules ≡ plan.now.rules }
        ensures chain { result ≡ chain_of plan.now.rules plan.now.default self.old.port heads.now }
        ensures same { self.new ≡ self.old }
    {
        if plan.rules.is_empty() {
            return plan.default;
        }
        self.picked(heads).unwrap_or(plan.default)
    }

    // The chain that the rules pick for a frame. No other function looks at the flows, and none asks
    // without rules.
    fn picked(&mut self, heads: &Heads) -> Option<ChainId>
        requires some { self.old.rules ≢ [] }
        ensures picked { result ≡ first_chain self.old.rules self.old.port heads.now }
        ensures same { self.new ≡ self.old }
    {
        let key = FlowKey::of(self.port, heads);
        if let Some(known) = self.flows.get(&key) {
            return *known;
        }
        let picked = self.rules.first(self.port, heads);
        // A refused flow is picked for anew when its next frame comes.
        let _ = self.flows.put(key, picked);
        picked
    }
}

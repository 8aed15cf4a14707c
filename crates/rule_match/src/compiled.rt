//! Rules, made ready for many frames.
ghost use Rattle.std.specs.List.{filter};
ghost use Rattle.std.specs.Prelude.{◌≡◌, IfOk};
ghost use Rattle.rule_match.specs.Parts.{ArePartedByPort, can_be_of_port};
ghost use Rattle.rule_match.specs.Rules.{first_chain};

use crate::typed::TypedRules;
use onvm_base::{ChainId, ListOf, MAX_PORTS, NoMemory, PortId, RulePlan, Rules};
use onvm_packet::Heads;
use std::alloc::{AllocError, Global};
use std::marker::Model;

/// Rules in file order. What it holds is, for each receive port, a list for each type that a rule
/// of the port asks for and a list for all other frames. So a frame is tested only for rules that
/// can hold for its port and type.
#[derive(Drop)]
pub struct Compiled {
    // Of each port of a plan the rules that can hold there.
    ports: Vec<TypedRules>,
    // All rules, for ports that no plan has.
    all: TypedRules,
}

impl Model for Compiled {
    ghost use Rattle.std.specs.Prelude.{List};
    ghost use Rattle.onvm_base.specs.declared.rules.RulePlan.{RulePlan};
    ghost use Rattle.rule_match.specs.Parts.{ArePartedByPort};

    ghost Value = { List RulePlan };

    ghost view = { λ compiled. compiled.all };

    ghost invariant = { λ compiled. ArePartedByPort compiled.all compiled.ports.items };
}

impl Compiled {
    /// These rules, which it copies.
    pub fn make(alloc: Global, rules: &Rules) -> Result<Compiled, NoMemory>
        ensures { IfOk result (λ compiled. compiled ≡ rules.now) }
    {
        let ports = rules_by_port(alloc, rules)?;
        let all = TypedRules::make(alloc, rules)?;
        Ok(Compiled { ports, all })
    }

    /// As [`crate::first`] of the same rules. It takes no memory.
    pub fn first(&self, port: PortId, heads: &Heads) -> Option<ChainId>
        ensures { result ≡ first_chain self.now port heads.now }
    {
        match self.ports.get(usize::from(port.0)) {
            Some(rules) => rules.first(port, heads),
            None => self.all.first(port, heads),
        }
    }
}

// The rules of each port that a plan can have.
fn rules_by_port(alloc: Global, rules: &Rules) -> Result<Vec<TypedRules>, NoMemory>
    ensures { IfOk result (λ ports. ArePartedByPort rules.now ports.items) }
{
    let mut ports = Vec::with_capacity(alloc, usize::from(MAX_PORTS))?;
    for port in 0..MAX_PORTS {
        let list = ListOf::from_vec(rules_of(alloc, rules.as_slice(), port)?);
        ports.push(TypedRules::make(alloc, &list)?)?;
    }
    Ok(ports)
}

// The rules that can hold for frames that a port received.
fn rules_of(alloc: Global, rules: &[RulePlan], port: u8) -> Result<Vec<RulePlan>, AllocError>
    ensures { IfOk result (λ list. list.items ≡ filter (can_be_of_port port) rules.now) }
{
    rules
        .iter()
        .copied()
        .filter(|rule| can_be_of_port(rule, port))
        .collect(alloc)
}

fn can_be_of_port(rule: &RulePlan, port: u8) -> bool
    ensures { result ≡ can_be_of_port port rule.now }
{
    match rule.tests.port {
        Some(wanted) => port == wanted,
        None => true,
    }
}

//! Rules, parted by the type that they ask for.
ghost use Rattle.std.specs.List.{filter, filter_map};
ghost use Rattle.std.specs.List.Sorted.{IsStrictlyIncreasing};
ghost use Rattle.std.specs.Prelude.{◌≡◌, IfOk, MatchOption};
ghost use Rattle.rule_match.specs.Parts.{asked_type, can_have_type, AreTypes, IsOther, IsPlaceOf, lists_by_type};
ghost use Rattle.rule_match.specs.Rules.{first_chain};

use crate::matching::first;
use onvm_base::{ChainId, ListOf, NoMemory, PortId, RulePlan, Rules};
use onvm_packet::Heads;
use std::alloc::{AllocError, Global};
use std::marker::Model;
use std::snapshot::Snapshot;

/// Rules in file order. What it holds is a list for each type that one of them asks for, with the
/// rules that can hold for frames of this type, and a list for all other frames.
#[derive(Drop)]
pub struct TypedRules {
    // The types, from the lowest on.
    types: Vec<u16>,
    // The list of the type at the same place.
    lists: Vec<Rules>,
    others: Rules,
    made_of: Snapshot<Rules>,
}

impl Model for TypedRules {
    ghost use Rattle.std.specs.Prelude.{List};
    ghost use Rattle.onvm_base.specs.declared.rules.RulePlan.{RulePlan};
    ghost use Rattle.rule_match.specs.Parts.{ArePartedByType};

    ghost Value = { List RulePlan };

    ghost view = { λ typed. typed.made_of.value };

    ghost invariant = { λ typed. ArePartedByType typed.made_of.value typed.types.items typed.lists.items typed.others };
}

impl TypedRules {
    /// These rules.
    pub fn make(alloc: Global, rules: &Rules) -> Result<TypedRules, NoMemory>
        ensures { IfOk result (λ typed. typed ≡ rules.now) }
    {
        let types = types_of(alloc, rules.as_slice())?;
        let lists = lists_of(alloc, rules.as_slice(), &types)?;
        let others = rules_for(alloc, rules.as_slice(), None)?;
        Ok(TypedRules {
            types,
            lists,
            others: ListOf::from_vec(others),
            made_of: Snapshot::of(rules),
        })
    }

    /// The chain of the first of these rules that holds.
    pub fn first(&self, port: PortId, heads: &Heads) -> Option<ChainId>
        ensures { result ≡ first_chain self.now port heads.now }
    {
        match place_of(&self.types, heads.ethertype) {
            Some(at) => first(&self.lists[at], port, heads),
            None => first(&self.others, port, heads),
        }
    }
}

// The types that rules ask for, each once, from the lowest on.
fn types_of(alloc: Global, rules: &[RulePlan]) -> Result<Vec<u16>, NoMemory>
    ensures { IfOk result (λ types. AreTypes rules.now types.items) }
{
    let mut types = asked_types(alloc, rules)?;
    types.sort_unstable();
    types.dedup();
    Ok(types)
}

// The type that each rule asks for which asks for one.
fn asked_types(alloc: Global, rules: &[RulePlan]) -> Result<Vec<u16>, AllocError>
    ensures { IfOk result (λ types. types.items ≡ filter_map asked_type rules.now) }
{
    rules
        .iter()
        .filter_map(|rule| rule.tests.ethertype)
        .collect(alloc)
}

// A list for each type.
fn lists_of(alloc: Global, rules: &[RulePlan], types: &[u16]) -> Result<Vec<Rules>, NoMemory>
    ensures { IfOk result (λ lists. lists.items ≡ lists_by_type rules.now types.now) }
{
    let mut lists = Vec::with_capacity(alloc, types.len())?;
    for ethertype in types {
        let list = rules_for(alloc, rules, Some(*ethertype))?;
        lists.push(ListOf::from_vec(list))?;
    }
    Ok(lists)
}

// The rules that can hold for frames of a type: those that ask for no other. None is a type that no
// rule asks for.
fn rules_for(
    alloc: Global,
    rules: &[RulePlan],
    ethertype: Option<u16>,
) -> Result<Vec<RulePlan>, AllocError>
    ensures { IfOk result (λ list. list.items ≡ filter (can_have_type ethertype) rules.now) }
{
    rules
        .iter()
        .copied()
        .filter(|rule| can_have_type(rule, ethertype))
        .collect(alloc)
}

fn can_have_type(rule: &RulePlan, ethertype: Option<u16>) -> bool
    ensures { result ≡ can_have_type ethertype rule.now }
{
    rule.tests.ethertype.is_none() || rule.tests.ethertype == ethertype
}

// The place of a frame's type. None where no rule asks for it.
fn place_of(types: &[u16], ethertype: Option<u16>) -> Option<usize>
    requires { IsStrictlyIncreasing types.now }
    ensures { MatchOption result (IsOther types.now ethertype) (IsPlaceOf types.now ethertype) }
{
    types.binary_search(&ethertype?).ok()
}

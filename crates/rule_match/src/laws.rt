//! What the definition of a frame's chain means, for all rules and heads.
ghost use Rattle.std.specs.Prelude.{◌≡◌, ◌↔◌, List, Some, None};
ghost use Rattle.onvm_base.specs.declared.ids.ChainId.{ChainId};
ghost use Rattle.onvm_base.specs.declared.ids.PortId.{PortId};
ghost use Rattle.onvm_base.specs.declared.rules.RulePlan.{RulePlan};
ghost use Rattle.onvm_packet.specs.FlowKeys.{flow_key_of};
ghost use Rattle.onvm_packet.specs.declared.heads.Heads.{Heads};
ghost use Rattle.rule_match.specs.Rules.{first_chain, FirstHolds, NoneHolds};

/// No chain is picked exactly where no rule holds.
pub fn none_is_picked_where_none_holds()
    ensures { (rules : List RulePlan) (port : PortId) (heads : Heads)
        → (first_chain rules port heads ≡ None) ↔ NoneHolds rules port heads }
{}

/// A chain is picked exactly where a rule with it holds, and none before that rule does.
pub fn the_first_that_holds_is_picked()
    ensures { (rules : List RulePlan) (port : PortId) (heads : Heads) (chain : ChainId)
        → (first_chain rules port heads ≡ Some chain) ↔ FirstHolds rules port heads chain }
{}

/// For frames with one key the same chain is picked: so a table by keys can keep it.
pub fn one_key_has_one_chain()
    ensures { (rules : List RulePlan) (port other : PortId) (heads others : Heads)
        → flow_key_of port heads ≡ flow_key_of other others
        → first_chain rules port heads ≡ first_chain rules other others }
{}

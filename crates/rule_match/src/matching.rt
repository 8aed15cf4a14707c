//! Rules, tried one after the other.
ghost use Rattle.std.specs.Prelude.{◌≡◌};
ghost use Rattle.rule_match.specs.Rules.{first_chain};

use onvm_base::{ChainId, PortId, Rules};
use onvm_packet::{Heads, holds};

/// The chain of the first rule that holds for a frame with these heads that a port received. None
/// where no rule holds.
pub fn first(rules: &Rules, port: PortId, heads: &Heads) -> Option<ChainId>
    ensures { result ≡ first_chain rules.now port heads.now }
{
    for rule in rules.as_slice() {
        if holds(&rule.tests, port, heads) {
            return Some(rule.chain);
        }
    }
    None
}

//! What the clauses of a function give its caller, and what the table of answers implies.
ghost use Rattle.std.specs.Prelude.{◌≡◌, ◌⊎◌, ◌||◌, ℕ, List, IfOk, IsTrue, OnErr};
ghost use Rattle.onvm_base.specs.declared.function.Kind.{Kind};
ghost use Rattle.onvm_base.specs.declared.ids.PortId.{PortId};
ghost use Rattle.onvm_base.specs.declared.outcome.Verdict.{Verdict};
ghost use Rattle.nf_api.specs.Acts.{Narrows, WantsNoMore};
ghost use Rattle.nf_api.specs.Answers.{IsAnswer, is_routing, is_steady};
ghost use Rattle.nf_api.specs.Tree.{Tree};

use crate::function::NetFunction;
use crate::meta::Meta;
use onvm_base::{NoMemory, Packet, Verdict};

/// A kind that keeps nothing answers every frame.
pub fn every_frame_has_an_answer()
    ensures { (kind : Kind) (port : PortId) (bytes : List ℕ) → IsTrue (is_steady kind || is_routing kind)
        → (verdict : Verdict) × (left : List ℕ) × IsAnswer kind port bytes verdict left }
{}

/// No frame has two answers.
pub fn a_frame_has_one_answer()
    ensures { (kind : Kind) (port : PortId) (bytes : List ℕ) (v w : Verdict) (x y : List ℕ)
        → IsAnswer kind port bytes v x → IsAnswer kind port bytes w y → (v ≡ w) × (x ≡ y) }
{}

/// Two packets that a function handled one after the other are a journal: what it did as it was at
/// first leads through them, from the state that it had to the one that it has. Where memory was
/// wanting, one packet at most was handled.
pub fn two_packets_are_a_journal<N: NetFunction>(
    function: &mut N,
    first: &mut Packet,
    second: &mut Packet,
    meta: &Meta,
) -> Result<(Verdict, Verdict), NoMemory>
    ensures journal { IfOk result (λ verdicts. (between : Tree)
        × N.acts function.old (N.state function.old)
        first.old meta.now verdicts.0 first.new between
        × N.acts function.old between
        second.old meta.now verdicts.1 second.new (N.state function.new)) }
    ensures kept { Narrows (N.acts function.new) (N.acts function.old) }
    ensures no_more { WantsNoMore (N.wants function.new) (N.wants function.old) }
    ensures wanting { OnErr result (N.wants function.old first.old
        ⊎ N.wants function.old second.old) }
    ensures second { OnErr result (second.new ≡ second.old) }
    ensures first { OnErr result (
        ((first.new ≡ first.old)
        × (N.state function.new ≡ N.state function.old))
        ⊎ ((verdict : Verdict)
        × N.acts function.old (N.state function.old)
        first.old meta.now verdict first.new (N.state function.new))) }
{
    let verdict = function.handle(first, meta)?;
    Ok((verdict, function.handle(second, meta)?))
}

//! The machine that judges steps one after another.
ghost use Rattle.std.specs.Prelude.{◌≡◌, [], IfOk, OnErr};
ghost use Rattle.onvm_core.specs.Layouts.{IsBuffer, IsLayout};
ghost use Rattle.onvm_core.specs.History.{place_of};
ghost use Rattle.onvm_core.specs.Lawful.{Allows, IsLawful};
ghost use Rattle.onvm_core.specs.Machine.{IsJudged};
ghost use Rattle.onvm_core.specs.Places.{StandsOnce};

use crate::judge::{allows, is_live, part_of};
use crate::judged::Judged;
use crate::layout::Layout;
use crate::place::Place;
use crate::scan::place_of;
use crate::step::Step;
use onvm_base::{BufId, NoMemory};
use std::alloc::Global;
use std::marker::Model;

#[cfg(test)]
mod tests;

/// The steps that were made on a layout. They are lawful.
#[derive(Debug, Drop)]
pub struct State {
    layout: Layout,
    steps: Vec<Step>,
}

impl Model for State {
    ghost use Rattle.std.specs.Prelude.{reverse};
    ghost use Rattle.onvm_core.specs.Layouts.{IsLayout};
    ghost use Rattle.onvm_core.specs.Lawful.{IsLawful};
    ghost use Rattle.onvm_core.specs.Machine.{Past};

    ghost Value = { Past };

    ghost view = { λ state. record { layout = state.layout; steps = reverse state.steps.items } };

    ghost invariant = { λ state. IsLayout state.layout
        × IsLawful state.layout (reverse state.steps.items) };
}

impl State {
    /// No step was made yet.
    pub fn make(alloc: Global, layout: &Layout) -> Result<State, NoMemory>
        requires { IsLayout layout.now }
        ensures { IfOk result (λ state. state ≡ record { layout = layout.now; steps = [] }) }
    {
        Ok(State {
            layout: *layout,
            steps: Vec::new(alloc),
        })
    }

    /// Where a buffer is.
    pub fn place(&self, buf: BufId) -> Place
        requires { IsBuffer self.now.layout buf.0 }
        ensures at { result ≡ place_of buf.0 self.now.steps }
        ensures once { StandsOnce self.now.layout self.now.steps buf.0 }
    {
        place_of(self.steps.as_slice(), buf)
    }
}

/// Makes a step, if the steps that were made allow it. A refused one takes no memory.
pub fn apply(state: &mut State, step: Step) -> Result<Judged, NoMemory>
    ensures judged { IfOk result (IsJudged state.old step state.new) }
    ensures lawful { IsLawful state.new.layout state.new.steps }
    ensures kept { OnErr result (state.new ≡ state.old) }
    ensures wanting { OnErr result (Allows state.old.layout state.old.steps step) }
{
    let steps = state.steps.as_slice();
    if !is_live(&state.layout, steps, step.role) {
        return Ok(Judged::Refused(1));
    }
    if !allows(&state.layout, steps, &step) {
        return Ok(Judged::Refused(part_of(&step.act)));
    }
    state.steps.push(step)?;
    Ok(Judged::Allowed)
}

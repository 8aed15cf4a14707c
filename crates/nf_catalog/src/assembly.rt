//! The units of a plan.
ghost use Rattle.std.specs.Prelude.{IfOk};
ghost use Rattle.nf_catalog.specs.Units.{AreHandedIn, AreUnits};

use crate::unit::Unit;
use nf_api::Guest;
use onvm_base::{ListOf, NoMemory, Plan};
use std::alloc::Global;

/// Units in the order of the plan's functions.
pub type Units = ListOf<Unit>;

/// The units of a plan. Of each name it takes the first guest. Guests that the plan doesn't name are
/// dropped, and where memory is wanting all are.
pub fn units(alloc: Global, plan: &Plan, guests: Vec<Guest>) -> Result<Units, NoMemory>
    requires { AreHandedIn plan.now.functions guests.items }
    ensures { IfOk result (AreUnits plan.now.functions guests.items) }
{
    let mut guests = guests;
    let mut units = ListOf::make(alloc);
    for function in plan.functions.as_slice() {
        units.push(Unit::make(alloc, &function.kind, &mut guests)?)?;
    }
    Ok(units)
}

//! A session whose roles work side by side.

use super::calls::{end_behind, one, plan_of};
use crate::two_roles::{TWO_CORES, TwoRoles};
use nf_catalog::units;
use rx_feed::{Feed, Generator};
use std::test::Fail;

// Each core's pass begins before the other's ends.
#[test]
fn gate_two_roles(rt: HostRuntime) -> Result<(), Fail> {
    let alloc = rt.alloc();
    let plan = plan_of(alloc, TWO_CORES)?;
    let units = units(alloc, &plan, Vec::new(alloc))?;
    let feeds = one(alloc, Feed::Made(Generator::make(7, 40)))?;
    let gate = TwoRoles::new();
    let ended = end_behind(&rt, alloc, &plan, units, feeds, &gate, false)?;
    let run = ended.outcome?;
    assert_eq!(rt; (run.records.len(), run.sent.len()), (40, 40));
    assert!(rt; gate.have_met());
    Ok(())
}

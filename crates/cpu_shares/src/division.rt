//! How a core is divided among its functions.
ghost use Rattle.std.specs.Prelude.{◌≡◌, ◌^◌, ◌<◌, ◌≤◌, ◌↔◌, ◌*◌, None, length, slice_get, IfOk, IfSome};
ghost use Rattle.onvm_base.specs.declared.limits.TheConstants.{MAX_PRIORITY};
ghost use Rattle.cpu_shares.specs.Shares.{AreLoads, ArePriorities, IsWeight, share_of, shares_of, total_of, weight_of};

use crate::load::{Load, total};
use load_estimate::Share;
use onvm_base::{ListOf, NoMemory, WEIGHT_ONE};
use std::alloc::Global;

/// The shares of a core's functions, in order. All are none where no function has a load.
pub type ShareList = ListOf<Option<Share>>;

/// The shares of the functions of one core.
pub fn shares(alloc: Global, loads: &[Load], priorities: &[u16]) -> Result<ShareList, NoMemory>
    requires loads { AreLoads loads.now }
    requires priorities { ArePriorities loads.now priorities.now }
    ensures { IfOk result (λ shares. shares ≡ shares_of loads.now priorities.now) }
{
    let total = total(loads);
    let mut shares = ListOf::make(alloc);
    for at in 0..loads.len() {
        shares.push(share_in(loads[at].value(), priorities[at], total))?;
    }
    Ok(shares)
}

/// The share of the function at a place, from 0, of one core. It takes no memory.
pub fn share(loads: &[Load], priorities: &[u16], at: usize) -> Option<Share>
    requires loads { AreLoads loads.now }
    requires priorities { ArePriorities loads.now priorities.now }
    requires within { at < length loads.now }
    ensures share { slice_get (shares_of loads.now priorities.now) at ≡ Some result }
    ensures none { (result ≡ None) ↔ (total_of loads.now ≡ 0) }
    ensures weight { IfSome result (λ share. IsWeight share.weight) }
{
    share_in(loads[at].value(), priorities[at], total(loads))
}

// The share of a function with this load, where all together have this total.
fn share_in(load: u128, priority: u16, total: u128) -> Option<Share>
    requires part { load ≤ total }
    requires small { total ≤ 2 ^ 79 }
    requires priority { priority ≤ MAX_PRIORITY }
    ensures share { result ≡ share_of priority load total }
    ensures none { (result ≡ None) ↔ (total ≡ 0) }
    ensures weight { IfSome result (λ share. IsWeight share.weight) }
{
    if total == 0 {
        return None;
    }
    let num = u128::from(priority) * load;
    Some(Share {
        num,
        den: total,
        weight: weight(num, total),
    })
}

// The weight of a share.
fn weight(num: u128, den: u128) -> u32
    requires some { 0 < den }
    requires small { den ≤ 2 ^ 79 }
    requires priority { num ≤ MAX_PRIORITY * den }
    ensures weight { result ≡ weight_of num den }
    ensures range { IsWeight result }
{
    (u128::from(WEIGHT_ONE) * num / den).max(1) as u32
}

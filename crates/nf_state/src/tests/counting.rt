//! Counts up to their greatest value.

use super::frames::SHORT;
use super::{may_be_handed_over, meta};
use crate::{Counter, Keeper};
use nf_api::NetFunction;
use onvm_base::{Kind, Packet, Verdict};
use std::test::Fail;

#[test]
fn counts_stay_at_their_greatest_value(rt: HostRuntime) -> Result<(), Fail> {
    let mut counter = Counter {
        frames: u64::MAX - 1,
        bytes: u64::MAX - 20,
    };
    counter.count(&SHORT);
    assert_eq!(rt; (counter.frames, counter.bytes), (u64::MAX, u64::MAX - 4));
    counter.count(&SHORT);
    assert_eq!(rt; (counter.frames, counter.bytes), (u64::MAX, u64::MAX));
    Ok(())
}

#[test]
fn a_counted_frame_goes_on_as_it_came(rt: HostRuntime) -> Result<(), Fail> {
    let mut keeper = Keeper::make(rt.alloc(), &Kind::Count)?;
    may_be_handed_over(&keeper);
    let mut packet = Packet::from_slice(rt.alloc(), &SHORT)?;
    assert_eq!(rt; keeper.handle(&mut packet, &meta(1))?, Verdict::Next);
    assert_eq!(rt; packet.bytes(), &SHORT[..]);
    Ok(())
}

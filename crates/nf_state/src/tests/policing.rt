//! Frames of 16 bytes, each handed to a policer in turn.

use super::frames::SHORT;
use super::meta;
use crate::{Bucket, Keeper, Policer};
use nf_api::NetFunction;
use onvm_base::{Kind, MAX_DEPTH, MAX_RATE, NoMemory, Packet, Stamp, Verdict};
use std::alloc::Global;
use std::test::Fail;

const NEXT: Verdict = Verdict::Next;

const DROP: Verdict = Verdict::Drop;

// What a policer answers for four frames that come in these seconds.
fn verdicts(
    alloc: Global,
    rate: u64,
    depth: u64,
    seconds: [u32; 4],
) -> Result<[Verdict; 4], NoMemory> {
    let mut policer = Keeper::make(alloc, &Kind::Police { rate, depth })?;
    let mut packet = Packet::from_slice(alloc, &SHORT)?;
    Ok([
        policer.handle(&mut packet, &meta(seconds[0]))?,
        policer.handle(&mut packet, &meta(seconds[1]))?,
        policer.handle(&mut packet, &meta(seconds[2]))?,
        policer.handle(&mut packet, &meta(seconds[3]))?,
    ])
}

#[test]
fn a_frame_finds_the_tokens_of_a_second_later(rt: HostRuntime) -> Result<(), Fail> {
    let given = verdicts(rt.alloc(), 16, 32, [1, 1, 1, 2])?;
    assert_eq!(rt; given, [NEXT, NEXT, DROP, NEXT]);
    Ok(())
}

#[test]
fn a_frame_of_just_the_tokens_that_are_there_goes_on(rt: HostRuntime) -> Result<(), Fail> {
    let given = verdicts(rt.alloc(), 1, 16, [1, 16, 17, 32])?;
    assert_eq!(rt; given, [NEXT, DROP, NEXT, DROP]);
    let given = verdicts(rt.alloc(), 1, 15, [1, 2, 3, 4])?;
    assert_eq!(rt; given, [DROP, DROP, DROP, DROP]);
    Ok(())
}

#[test]
fn no_tokens_come_of_a_moment_that_goes_back(rt: HostRuntime) -> Result<(), Fail> {
    let given = verdicts(rt.alloc(), 16, 16, [2, 1, 2, 3])?;
    assert_eq!(rt; given, [NEXT, DROP, DROP, NEXT]);
    Ok(())
}

#[test]
fn the_largest_bucket_is_full_again_behind_the_longest_pause(rt: HostRuntime) -> Result<(), Fail> {
    let mut policer = Policer {
        rate: MAX_RATE,
        depth: MAX_DEPTH,
        bucket: None,
    };
    let first = Stamp {
        seconds: 0,
        nanos: 0,
        tail: 0,
    };
    let last = Stamp {
        seconds: u32::MAX,
        nanos: 999_999_999,
        tail: 0,
    };
    assert_eq!(rt; policer.admit(&SHORT, first), NEXT);
    assert_eq!(rt; policer.admit(&SHORT, last), NEXT);
    let left = Bucket {
        tokens: 9_999_999_984_000_000_000,
        last: 4_294_967_295_999_999_999,
    };
    assert_eq!(rt; policer.bucket, Some(left));
    Ok(())
}

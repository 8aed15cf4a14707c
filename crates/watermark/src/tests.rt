//! Lines of the table, and a queue's age, worked out by hand.

use crate::ages::Ages;
use crate::mark::{Mark, next};

#[test]
fn the_first_line_that_applies_is_taken(rt: HostRuntime) {
    assert!(rt; next(Mark::Calm, true, true, 5, 5) == Mark::Throttle);
    assert!(rt; next(Mark::Calm, true, true, 4, 5) == Mark::Watch);
    assert!(rt; next(Mark::Throttle, false, true, 0, 5) == Mark::Throttle);
    assert!(rt; next(Mark::Throttle, false, false, 0, 5) == Mark::Calm);
}

#[test]
fn a_watched_lane_stays_watched_until_it_is_below_the_low_mark(rt: HostRuntime) {
    assert!(rt; next(Mark::Watch, false, true, 9, 5) == Mark::Watch);
    assert!(rt; next(Mark::Watch, false, false, 9, 5) == Mark::Calm);
    assert!(rt; next(Mark::Calm, false, true, 9, 5) == Mark::Calm);
}

#[test]
fn an_age_of_exactly_the_threshold_throttles_and_a_nanosecond_less_watches(rt: HostRuntime) {
    let alloc = rt.alloc();
    let mut ages = Ages::make(alloc, 2).expect(&rt, "memory");
    ages.pushed(1000);
    ages.pushed(2000);
    let one_less = ages.age(4999);
    assert!(rt; next(Mark::Calm, true, true, one_less, 4000) == Mark::Watch);
    let exactly = ages.age(5000);
    assert!(rt; next(Mark::Calm, true, true, exactly, 4000) == Mark::Throttle);
}

#[test]
fn the_age_is_that_of_the_push_at_the_high_mark(rt: HostRuntime) {
    let alloc = rt.alloc();
    let mut ages = Ages::make(alloc, 2).expect(&rt, "memory");
    ages.pushed(10);
    ages.pushed(20);
    ages.pushed(30);
    assert!(rt; ages.age(50) == 30);
    assert!(rt; ages.age(15) == 0);
}

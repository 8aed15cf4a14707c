//! Windows that were worked out by hand.

ghost use Rattle.std.specs.Prelude.{◌≡◌};

use crate::{Sample, Samples, TickLine, Ticks, Window};
use onvm_base::{FnId, ListOf};
use std::test::Fail;

fn may_be_handed_over<T: Send>(_value: &T) {}

// Of function 0.
fn sample(moment: u64, count: u32, time: u64) -> Sample
    ensures { result.moment ≡ moment }
{
    Sample {
        function: FnId(0),
        moment,
        count,
        time,
    }
}

#[test]
fn windows_samples_and_ticks_may_be_handed_over(rt: HostRuntime) -> Result<(), Fail> {
    let window = Window::make(rt.alloc(), 1)?;
    let samples: Samples = ListOf::make(rt.alloc());
    let lines: ListOf<TickLine> = ListOf::make(rt.alloc());
    let ticks: Ticks = ListOf::make(rt.alloc());
    may_be_handed_over(&window);
    may_be_handed_over(&samples);
    may_be_handed_over(&lines);
    may_be_handed_over(&ticks);
    Ok(())
}

#[test]
fn the_lower_of_two_middle_times_is_the_median(rt: HostRuntime) -> Result<(), Fail> {
    let mut window = Window::make(rt.alloc(), 100)?;
    assert_eq!(rt; (window.arrivals(), window.median()), (0, None));
    window.add(sample(5, 25, 40));
    window.add(sample(5, 25, 20));
    window.add(sample(5, 25, 30));
    window.add(sample(5, 25, 10));
    assert_eq!(rt; (window.arrivals(), window.median()), (100, Some(20)));
    Ok(())
}

#[test]
fn one_sample_has_its_own_time_as_the_median(rt: HostRuntime) -> Result<(), Fail> {
    let mut window = Window::make(rt.alloc(), 100)?;
    window.add(sample(0, 100, 5));
    assert_eq!(rt; (window.arrivals(), window.median()), (100, Some(5)));
    Ok(())
}

#[test]
fn a_sample_of_just_the_windows_length_is_old(rt: HostRuntime) -> Result<(), Fail> {
    let mut window = Window::make(rt.alloc(), 100)?;
    window.add(sample(0, 1, 7));
    window.add(sample(1, 2, 3));
    window.age_out(99);
    assert_eq!(rt; (window.arrivals(), window.median()), (3, Some(3)));
    window.age_out(100);
    assert_eq!(rt; (window.arrivals(), window.median()), (2, Some(3)));
    window.age_out(101);
    assert_eq!(rt; (window.arrivals(), window.median()), (0, None));
    Ok(())
}

#[test]
fn a_full_window_lets_its_oldest_sample_go(rt: HostRuntime) -> Result<(), Fail> {
    let mut window = Window::make(rt.alloc(), 100)?;
    for time in 1..=1025 {
        window.add(sample(0, 1, time));
    }
    assert_eq!(rt; (window.arrivals(), window.median()), (1024, Some(513)));
    window.age_out(100);
    assert_eq!(rt; (window.arrivals(), window.median()), (0, None));
    Ok(())
}

#[test]
fn a_full_window_of_the_greatest_samples_is_counted(rt: HostRuntime) -> Result<(), Fail> {
    let mut window = Window::make(rt.alloc(), u64::MAX)?;
    for _ in 0..1025 {
        window.add(sample(u64::MAX, u32::MAX, u64::MAX));
    }
    assert_eq!(rt; window.arrivals(), 4_398_046_510_080);
    assert_eq!(rt; window.median(), Some(u64::MAX));
    Ok(())
}

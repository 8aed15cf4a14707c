//! What the definitions say of windows and medians.
ghost use Rattle.std.specs.Prelude.{◌≡◌, ◌≤◌, ◌<◌, ℕ, List, length};
ghost use Rattle.std.specs.List.Sorted.{IsNonDecreasing, IsPermutation};
ghost use Rattle.onvm_base.specs.declared.limits.TheConstants.{WINDOW_SAMPLES};
ghost use Rattle.load_estimate.specs.declared.sample.Sample.{Sample};
ghost use Rattle.load_estimate.specs.Calls.{Call, NeverFall, last_age_out, samples_added, window_after_all};
ghost use Rattle.load_estimate.specs.Order.{in_order};
ghost use Rattle.load_estimate.specs.Windows.{empty_window, window_of};

/// Whatever calls a window had, it holds the window of the samples that were added, as of the moment
/// at which they were last aged out.
pub fn a_window_is_its_last_young_samples()
    ensures { (span : ℕ) (calls : List Call) → 0 < span → NeverFall 0 calls
        → (window_after_all (empty_window span) calls).samples
        ≡ window_of span (last_age_out 0 calls) (samples_added calls) }
{}

/// A window has few samples, however many were logged.
pub fn a_window_is_bounded()
    ensures { (span now : ℕ) (logged : List Sample) → length (window_of span now logged) ≤ WINDOW_SAMPLES }
{}

/// The numbers of which the median is the middle one are the times, from the least on.
pub fn times_are_put_in_order()
    ensures rise { (times : List ℕ) → IsNonDecreasing (in_order times) }
    ensures same { (times : List ℕ) → IsPermutation times (in_order times) }
{}

//! What holds of every list of readings, and of every list of pushes.
ghost use Rattle.std.specs.Prelude.{◌≡◌, ◌≤◌, ◌-◌, ℕ, List, length, get_or};
ghost use Rattle.onvm_core.specs.Marks.{Ages as Answers, MarkEvents, is_throttled};
ghost use Rattle.watermark.specs.Marks.{Reading, is_raised, is_throttle, mark_of, readings_of};
ghost use Rattle.watermark.specs.Moments.{after_pushes, age_of, last_of};

/// The mark machine stands at Throttle exactly where the search back says so: some reading found
/// high and low in time, and each reading from that one on found low. Over the readings of a
/// feeder's marks passes this is the pure core's search back.
pub fn the_mark_machine_is_the_search_back()
    ensures readings { (readings : List Reading)
        → is_throttle (mark_of readings) ≡ is_raised readings }
    ensures passes { (aged : Answers) (f : ℕ) (events : MarkEvents)
        → is_throttle (mark_of (readings_of aged f events)) ≡ is_throttled aged f events }
{}

/// Of all pushes of a lane the last ones are kept, as many as its high mark. So the queuing time
/// is counted from push number n - high + 1 of n pushes.
pub fn the_last_pushes_are_kept()
    ensures kept { (high : ℕ) (moments : List ℕ) → 1 ≤ high
        → (after_pushes high moments).moments ≡ last_of high moments }
    ensures age { (high now : ℕ) (moments : List ℕ) → 1 ≤ high → high ≤ length moments
        → age_of now (after_pushes high moments) ≡ now - get_or moments (length moments - high) 0 }
{}

//! What a feeder thinks of a lane.
ghost use Rattle.std.specs.Prelude.{◌≡◌, nat_le};
ghost use Rattle.watermark.specs.Marks.{next_mark};

/// The state of a lane's mark.
#[derive(Clone, Copy, Debug, PartialEq, Eq)]
pub enum Mark {
    /// Frames may enter.
    Calm,
    /// The high mark was found, and the queue was young.
    Watch,
    /// Frames are held back.
    Throttle,
}

/// The mark after a reading that found these marks, of a queue of this age. Age and threshold are
/// in nanoseconds; where the high mark wasn't found, the age isn't read.
pub fn next(old: Mark, high: bool, low: bool, age: u64, threshold: u64) -> Mark
    ensures { result ≡ next_mark old (record {
      high = high;
      low = low;
      aged = nat_le threshold age;
    }) }
{
    if !low {
        return Mark::Calm;
    }
    if high && age >= threshold {
        return Mark::Throttle;
    }
    match old {
        Mark::Throttle => Mark::Throttle,
        Mark::Watch => Mark::Watch,
        Mark::Calm => if high { Mark::Watch } else { Mark::Calm },
    }
}

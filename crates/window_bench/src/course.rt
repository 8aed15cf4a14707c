//! How the times of one sample after the other go.

/// What the next time is.
#[derive(Clone, Copy, Debug)]
pub enum Course {
    /// The last one: nothing moves.
    Equal,
    /// One more: the least time goes, and all others move.
    Rising,
    /// One less: the greatest goes, and all others move for the new one.
    Falling,
    /// Any: half of the others move, on average, for the one that goes and for the new one each.
    Random,
}

/// Times on a course.
#[derive(Clone, Copy, Debug)]
pub struct Times {
    course: Course,
    last: u64,
}

impl Times {
    pub fn make(course: Course) -> Times {
        Times {
            course,
            last: u64::MAX / 2,
        }
    }

    /// The next one.
    pub fn next(&mut self) -> u64 {
        self.last = match self.course {
            Course::Equal => self.last,
            Course::Rising => self.last.wrapping_add(1),
            Course::Falling => self.last.wrapping_sub(1),
            // The linear congruential generator of Knuth's MMIX.
            Course::Random => self
                .last
                .wrapping_mul(6_364_136_223_846_793_005)
                .wrapping_add(1_442_695_040_888_963_407),
        };
        self.last
    }
}

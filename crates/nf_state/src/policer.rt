//! A token bucket.
ghost use Rattle.std.specs.Prelude.{◌≡◌, ◌≤◌, ◌+◌, ◌*◌, ◌^◌, length, max};
ghost use Rattle.nf_state.specs.Policing.{bucket_after, filled, moment_of, taken_from, verdict_of};

use onvm_base::{Stamp, Verdict};

/// Tokens in billionths of a byte, at a moment in nanoseconds.
#[derive(Clone, Copy, Debug, PartialEq, Eq)]
pub struct Bucket {
    pub tokens: u128,
    pub last: u64,
}

/// Lets so many bytes a second pass, and so many at once.
#[derive(Clone, Copy, Debug, PartialEq, Eq)]
pub struct Policer {
    pub rate: u64,
    pub depth: u64,
    /// None before the first frame.
    pub bucket: Option<Bucket>,
}

// So many tokens are one byte: a nanosecond brings as many as bytes come in a second.
const NANOS_PER_SECOND: u64 = 1_000_000_000;

impl Policer {
    /// The verdict for a frame, whose bytes are taken off the bucket where there are enough.
    pub fn admit(&mut self, bytes: &[u8], stamp: Stamp) -> Verdict
        ensures verdict { result
            ≡ verdict_of self.old.rate self.old.depth self.old.bucket (moment_of stamp) (length bytes.now) }
        ensures after { self.new.bucket
            ≡ bucket_after self.old.rate self.old.depth self.old.bucket (moment_of stamp) (length bytes.now) }
        ensures rate { self.new.rate ≡ self.old.rate }
        ensures depth { self.new.depth ≡ self.old.depth }
    {
        let filled = filled(self.rate, self.depth, self.bucket, moment_of(stamp));
        let price = bytes.len() as u128 * u128::from(NANOS_PER_SECOND);
        if filled.tokens < price {
            self.bucket = Some(filled);
            return Verdict::Drop;
        }
        self.bucket = Some(Bucket {
            tokens: filled.tokens - price,
            last: filled.last,
        });
        Verdict::Next
    }
}

// The moment of a stamp.
fn moment_of(stamp: Stamp) -> u64
    ensures is { result ≡ moment_of stamp }
    ensures small { result ≤ 2 ^ 63 }
{
    u64::from(stamp.seconds) * NANOS_PER_SECOND + u64::from(stamp.nanos)
}

// The bucket at the moment of a frame: full at the first one.
fn filled(rate: u64, depth: u64, bucket: Option<Bucket>, moment: u64) -> Bucket
    requires { moment ≤ 2 ^ 63 }
    ensures { result ≡ filled rate depth bucket moment }
{
    let full = u128::from(depth) * u128::from(NANOS_PER_SECOND);
    let Some(bucket) = bucket else {
        return Bucket {
            tokens: full,
            last: moment,
        };
    };
    let grown = u128::from(moment.saturating_sub(bucket.last)) * u128::from(rate);
    Bucket {
        tokens: bucket.tokens.saturating_add(grown).min(full),
        last: moment.max(bucket.last),
    }
}

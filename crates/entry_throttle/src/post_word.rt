//! The value of a post word: a post's number in the upper 32 bits, and its bits in the lower.
ghost use Rattle.std.specs.Prelude.{◌≡◌, ◌+◌, ◌*◌, ◌/◌, ◌%◌, ◌^◌};

const HALF: u64 = 4_294_967_296;

pub(crate) fn value_of(number: u32, bits: u32) -> u64
    ensures { result ≡ number * 2 ^ 32 + bits }
{
    u64::from(number) * HALF + u64::from(bits)
}

pub(crate) fn number_of(value: u64) -> u32
    ensures { result ≡ value / 2 ^ 32 }
{
    (value / HALF) as u32
}

pub(crate) fn bits_of(value: u64) -> u32
    ensures { result ≡ value % 2 ^ 32 }
{
    (value % HALF) as u32
}

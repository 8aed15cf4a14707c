//! Where a line stands among others.
ghost use Rattle.std.specs.Prelude.{◌≡◌, ◌+◌, ◌*◌, ◌^◌};

pub fn key(first: u8, second: u32) -> u64
    ensures { result ≡ first * 2 ^ 32 + second }
{
    u64::from(first) * (1 << 32) + u64::from(second)
}

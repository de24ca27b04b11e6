//! The lowest bits of a number.

ghost use Rattle.std.specs.Prelude.{◌≡◌, ◌<◌, ◌%◌, ◌^◌};

/// The lowest bits, so many.
pub fn low_bits(number: u64, count: u32) -> u64
    requires { count < 64 }
    ensures { result ≡ number % 2 ^ count }
{
    number & ((1 << count) - 1)
}

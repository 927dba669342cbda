// A value by its sign and its size: the functions that open a value or make one.
ghost use Rattle.std.specs.Prelude.{◌≡◌, ◌<◌, ◌^◌, nat_abs};
ghost use Rattle.rules.specs.Numbers.{signed};
ghost use Rattle.rules.specs.Meaning.{ranged};

use rules::{Refusal, Value, Worked};

// How far a number is from zero.
pub fn size_of(z: i64) -> u64
    ensures { result ≡ nat_abs z }
{
    z.unsigned_abs()
}

pub(crate) fn signed(negative: bool, size: u64) -> Value
    requires { size < 2 ^ 63 }
    ensures { result.0 ≡ signed negative size }
{
    let z = size as i64;
    if negative { Value(0 - z) } else { Value(z) }
}

// The value of that sign and size, where it is in range.
pub fn ranged_signed(negative: bool, size: u64) -> Worked
    ensures { result ≡ ranged (signed negative size) }
{
    if size <= 999_999_999 {
        Ok(signed(negative, size))
    } else {
        Err(Refusal::OutOfRange)
    }
}

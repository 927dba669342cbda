// The values of document 01: numbers as written, the parameters and whole numbers that values name, and what
// is asked of values. This crate and `arithmetic` alone do arithmetic on a value. Every public function
// answers for every argument.
#![tactic(auto)]

mod rounding;
mod signs;

ghost use Rattle.std.specs.Prelude.{◌≡◌, ◌-◌, ◌/◌, ◌^◌, ◌≤◌};
ghost use Rattle.rules.specs.Numbers.{minus, in_range, whole, tenth};
ghost use Rattle.rules.specs.Meaning.{written, parameter_of};

use rounding::near_steps;
pub use rounding::rounded;
use rules::{Refusal, Value, Worked};
pub use signs::{ranged_signed, size_of};

// The parameter that a value names.
pub fn parameter(a: Value) -> Option<usize>
    ensures { result ≡ parameter_of a.0 }
{
    let n = whole(a)?;
    if n < 1 {
        return None;
    }
    if 4999 < n {
        return None;
    }
    Some(n as usize)
}

// The whole number that a value counts as.
pub fn whole(a: Value) -> Option<i64>
    ensures { result ≡ whole a.0 }
{
    near_steps(10_000, a)
}

// The number of tenths that a value counts as.
pub fn tenth(a: Value) -> Option<i64>
    ensures { result ≡ tenth a.0 }
{
    near_steps(1000, a)
}

// A number as it is written: its sign, its digits as one whole number, and how many of them stand
// after the point.
pub fn number(negative: bool, digits: u64, decimals: usize) -> Worked
    ensures { result ≡ written negative digits decimals }
{
    if 4 < decimals {
        return ranged_signed(negative, rounded(up_to_fifth(digits, decimals), 10));
    }
    // Out of range wherever the point stands. Asked first, so that the product below fits.
    if 999_999_999 < digits {
        return Err(Refusal::OutOfRange);
    }
    ranged_signed(negative, digits * last_place(decimals))
}

pub fn is_below_zero(v: Value) -> bool
    ensures { result ≡ minus v.0 }
{
    v.0 < 0
}

pub fn in_range(v: Value) -> bool
    ensures { result ≡ in_range v.0 }
{
    size_of(v.0) <= 999_999_999
}

// How many ten-thousandths the last of so many decimals counts.
fn last_place(decimals: usize) -> u64
    ensures { result ≡ 10 ^ (4 - decimals) }
{
    match decimals {
        0 => 10_000,
        1 => 1000,
        2 => 100,
        3 => 10,
        _ => 1,
    }
}

// The digits up to the fifth decimal, which alone decides how the four before it are rounded. Once
// nothing is left of them the rest of the decimals need not be counted down.
fn up_to_fifth(digits: u64, decimals: usize) -> u64
    requires { 5 ≤ decimals }
    ensures { result ≡ digits / 10 ^ (decimals - 5) }
{
    let mut kept = digits;
    for _ in 5..decimals {
        if kept == 0 {
            return 0;
        }
        kept /= 10;
    }
    kept
}

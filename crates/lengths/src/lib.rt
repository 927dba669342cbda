// The lengths of document 01: the G20/G21 conversion, sums and differences, and what is asked of
// lengths. No other crate does arithmetic on a length. Every public function answers for every argument.
#![tactic(auto)]

ghost use Rattle.std.specs.Prelude.{◌≡◌, eqb, nat_abs, ◌+ℤ◌, ◌-ℤ◌};
ghost use Rattle.rules.specs.Numbers.{within};
ghost use Rattle.rules.specs.Reach.{converted};
ghost use Rattle.value.specs.Guarded.{Ranged};
ghost use Rattle.lengths.specs.Saturated.{farthest, saturated, conversion};

use rules::{Length, Value};

// The G20/G21 conversion, the only way from a value to a length. A value out of range goes beyond
// every reach, so that whoever asks for the reach refuses it.
pub fn convert(units: u16, v: Value) -> Length
    ensures { result ≡ conversion units v }
{
    if value::in_range(v) {
        converted(units, v)
    } else {
        farthest(value::is_below_zero(v))
    }
}

// How many counts long, whatever the sign.
pub fn extent(l: Length) -> u64
    ensures { result ≡ nat_abs l.0 }
{
    l.0.unsigned_abs()
}

pub fn is_zero_length(l: Length) -> bool
    ensures { result ≡ eqb (nat_abs l.0) 0 }
{
    extent(l) == 0
}

pub fn in_reach(l: Length) -> bool
    ensures { result ≡ within 1000000000 l.0 }
{
    extent(l) <= 1_000_000_000
}

// The sum of two lengths, or the farthest length of its sign.
pub fn add(a: Length, b: Length) -> Length
    ensures { result ≡ saturated (a.0 +ℤ b.0) }
{
    held(a.0.saturating_add(b.0))
}

// The difference of two lengths, or the farthest length of its sign.
pub fn subtract(a: Length, b: Length) -> Length
    ensures { result ≡ saturated (a.0 -ℤ b.0) }
{
    held(a.0.saturating_sub(b.0))
}

// So many counts. The machine's lowest number alone is beyond the farthest length.
fn held(counts: i64) -> Length
    ensures { result ≡ saturated counts }
{
    Length(counts.max(-i64::MAX))
}

fn converted(units: u16, v: Value) -> Length
    requires { Ranged v.0 }
    ensures { result ≡ converted units v }
{
    if units == 200 {
        Length(v.0 * 254)
    } else {
        Length(v.0 * 10)
    }
}

fn farthest(negative: bool) -> Length
    ensures { result ≡ farthest negative }
{
    if negative {
        Length(-i64::MAX)
    } else {
        Length(i64::MAX)
    }
}

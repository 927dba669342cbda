// ABS, FIX, FUP and ROUND, on values in range.
ghost use Rattle.std.specs.Prelude.{◌≡◌, pos, nat_abs};
ghost use Rattle.rules.specs.Numbers.{down, upward, rounded};
ghost use Rattle.rules.specs.Meaning.{ranged, function};

use super::residues::down_to;
use super::{InRange, size};
use grammar::Func;
use rules::Worked;
use value::{is_below_zero, ranged_signed, rounded};

fn absolute(a: InRange) -> Worked
    ensures { result ≡ ranged (pos (nat_abs a.value.0)) }
{
    ranged_signed(false, size(a.value))
}

fn fix(a: InRange) -> Worked
    ensures { result ≡ ranged (down a.value.0) }
{
    let negative = is_below_zero(a.value);
    ranged_signed(negative, down_to(negative, size(a.value)))
}

// Up is down for the value's negative.
fn fup(a: InRange) -> Worked
    ensures { result ≡ ranged (upward a.value.0) }
{
    let negative = is_below_zero(a.value);
    ranged_signed(negative, down_to(!negative, size(a.value)))
}

fn round(a: InRange) -> Worked
    ensures { result ≡ ranged (rounded a.value.0) }
{
    ranged_signed(
        is_below_zero(a.value),
        rounded(size(a.value), 10_000) * 10_000,
    )
}

pub(crate) fn function(f: Func, a: InRange) -> Worked
    ensures { result ≡ function f a.value.0 }
{
    match f {
        Func::Abs => absolute(a),
        Func::Fix => fix(a),
        Func::Fup => fup(a),
        Func::Round => round(a),
    }
}

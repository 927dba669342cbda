// The operators, on values in range.
ghost use Rattle.std.specs.Prelude.{◌≡◌, pos, ◌+ℤ◌, ◌-ℤ◌, ◌*ℤ◌};
ghost use Rattle.rules.specs.Numbers.{nearest, residue, is_true, truth};
ghost use Rattle.rules.specs.Meaning.{ranged, divided, operation};

use super::residues::left_over;
use super::{InRange, ranged, size};
use grammar::Op;
use rules::{Refusal, Value, Worked};
use value::{is_below_zero, ranged_signed, rounded};

fn sum(a: InRange, b: InRange) -> Worked
    ensures { result ≡ ranged (a.value.0 +ℤ b.value.0) }
{
    ranged(Value(a.value.0 + b.value.0))
}

fn difference(a: InRange, b: InRange) -> Worked
    ensures { result ≡ ranged (a.value.0 -ℤ b.value.0) }
{
    ranged(Value(a.value.0 - b.value.0))
}

fn product(a: InRange, b: InRange) -> Worked
    ensures { result ≡ ranged (nearest (a.value.0 *ℤ b.value.0) (pos 10000)) }
{
    let negative = is_below_zero(a.value) != is_below_zero(b.value);
    ranged_signed(negative, rounded(size(a.value) * size(b.value), 10_000))
}

fn quotient(a: InRange, b: InRange) -> Worked
    ensures { result ≡ divided b.value.0 (nearest (a.value.0 *ℤ pos 10000) b.value.0) }
{
    let d = size(b.value);
    if d == 0 {
        return Err(Refusal::ZeroDivisor);
    }
    let negative = is_below_zero(a.value) != is_below_zero(b.value);
    ranged_signed(negative, rounded(size(a.value) * 10_000, d))
}

fn modulo(a: InRange, b: InRange) -> Worked
    ensures { result ≡ divided b.value.0 (residue a.value.0 b.value.0) }
{
    let d = size(b.value);
    if d == 0 {
        return Err(Refusal::ZeroDivisor);
    }
    let negative = is_below_zero(a.value);
    ranged_signed(false, left_over(negative, size(a.value), d))
}

fn is_true(a: Value) -> bool
    ensures { result ≡ is_true a.0 }
{
    size(a) != 0
}

fn truth(t: bool) -> Worked
    ensures { result ≡ ranged (truth t) }
{
    if t { Ok(Value(10_000)) } else { Ok(Value(0)) }
}

pub(crate) fn operation(op: Op, a: InRange, b: InRange) -> Worked
    ensures { result ≡ operation op a.value.0 b.value.0 }
{
    match op {
        Op::Add => sum(a, b),
        Op::Sub => difference(a, b),
        Op::Mul => product(a, b),
        Op::Div => quotient(a, b),
        Op::Mod => modulo(a, b),
        Op::And => truth(is_true(a.value) & is_true(b.value)),
        Op::Or => truth(is_true(a.value) | is_true(b.value)),
        Op::Xor => truth(is_true(a.value) != is_true(b.value)),
    }
}

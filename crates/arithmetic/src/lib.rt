// The arithmetic of expressions: operators, functions, and the parameters that values name. Every public
// function answers for every argument.
#![tactic(auto)]

mod functions;
mod operations;
mod residues;

ghost use Rattle.std.specs.Prelude.{◌≡◌, pos, nat_abs, get_or};
ghost use Rattle.rules.specs.Meaning.{ranged, entry};
ghost use Rattle.value.specs.Guarded.{Ranged};
ghost use Rattle.arithmetic.specs.Guarded.{kept, work, apply, lookup};

use functions::function;
use grammar::{Func, Op};
use operations::operation;
use rules::{Refusal, Value, Worked};

// A value in range, as the operators and functions take it.
#[derive(Clone, Copy)]
pub(crate) struct InRange {
    pub(crate) value: Value,
    ghost in_range: { Ranged value.0 },
}

// An operator with its two sides. The left side's refusal comes first.
pub fn work(op: Op, a: Worked, b: Worked) -> Worked
    ensures { result ≡ work op a b }
{
    let x = checked(a)?;
    let y = checked(b)?;
    operation(op, InRange { value: x }, InRange { value: y })
}

// ABS, FIX, FUP or ROUND of an expression.
pub fn apply(f: Func, a: Worked) -> Worked
    ensures { result ≡ apply f a }
{
    let x = checked(a)?;
    function(f, InRange { value: x })
}

// The table's entry that a value after `#` names.
pub fn lookup(table: &[i64], a: Worked) -> Worked
    ensures { result ≡ lookup table.now a }
{
    let x = checked(a)?;
    entry(table, value::parameter(x))
}

// The value itself, where it is in range.
fn ranged(v: Value) -> Worked
    ensures { result ≡ ranged v.0 }
{
    if value::in_range(v) {
        Ok(v)
    } else {
        Err(Refusal::OutOfRange)
    }
}

// Reading a line makes no value out of range; a caller that makes one is answered as out of range.
fn checked(a: Worked) -> Worked
    ensures { result ≡ kept a }
{
    let v = a?;
    ranged(v)
}

fn entry(table: &[i64], named: Option<usize>) -> Worked
    ensures { result ≡ entry table.now named }
{
    match named {
        Some(n) => entry_at(table, n),
        None => Err(Refusal::NoParameter),
    }
}

// An entry that the table does not have reads 0.
fn entry_at(table: &[i64], number: usize) -> Worked
    ensures { result ≡ ranged (get_or table.now number (pos 0)) }
{
    if number < table.len() {
        ranged(Value(table[number]))
    } else {
        Ok(Value(0))
    }
}

pub(crate) fn size(v: Value) -> u64
    ensures { result ≡ nat_abs v.0 }
{
    value::size_of(v.0)
}

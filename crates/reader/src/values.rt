// Values and expressions, which hold each other, to a limit of nesting. These functions call each other no
// deeper than the levels that they are given; what nests deeper is passed in a loop, for its form alone.
// None of them looks into what a value came to: a refusal is carried like a value, and the form is read on.
// The work is counted as it is done: one for each value and each operator.
ghost use Rattle.std.specs.Prelude.{◌≡◌, false, ◌≤◌, ◌<◌, length, drop};
ghost use Rattle.grammar.proofs.Read.{opens_number};
ghost use Rattle.grammar.proofs.Trees.{value_t, expr_t};
ghost use Rattle.reader.specs.Levels.{of_value, of_expression, of_number, deepened, entry_of, function_of, enclosed, Counted};

use super::numbers::{number_at, opens_number};
use super::passage::{pass_rest, pass_value};
use super::spelling::{Following, Opening, following_at, opening_at};
use super::terms::{State, settled};
use grammar::Func;
use rules::Worked;

// How deep `[` and `#` may nest one within another.
const LEVELS: usize = 24;

// What a value came to, its work and the place past it.
#[derive(Clone, Copy)]
pub(crate) struct Came {
    pub(crate) worked: Worked,
    pub(crate) work: u64,
    pub(crate) next: usize,
}

// Why a value is not worked out: it nests too deep, and the place past it; or the place where its form is
// wrong. What nests too deep stands among the errors, and no `?` among the functions that call each other:
// the stack promised for rs274_line (RS274_STACK, 24,576 bytes) has no room for a sixth word and for the
// copies at each of 24 levels, 27,464 bytes in all.
#[derive(Clone, Copy)]
pub(crate) enum NoValue {
    Deep(usize),
    Wrong(usize),
}

// A number is one value, and nests nothing.
fn of_number(number: Result<(Worked, usize), usize>) -> Result<Came, NoValue>
    ensures { result ≡ of_number number }
{
    match number {
        Ok((worked, next)) => Ok(Came {
            worked,
            work: 1,
            next,
        }),
        Err(p) => Err(NoValue::Wrong(p)),
    }
}

// What nests too deep, once its form is judged.
fn too_deep(end: Result<usize, usize>) -> NoValue
    ensures { result ≡ deepened end }
{
    match end {
        Ok(p) => NoValue::Deep(p),
        Err(p) => NoValue::Wrong(p),
    }
}

// The table's entry that a value names.
fn entry_of(table: &[i64], number: Result<Came, NoValue>) -> Result<Came, NoValue>
    requires { Counted number }
    ensures { result ≡ entry_of table.now number }
{
    let came = number?;
    Ok(Came {
        worked: arithmetic::lookup(table, came.worked),
        work: came.work + 1,
        next: came.next,
    })
}

fn function_of(f: Func, argument: Result<Came, NoValue>) -> Result<Came, NoValue>
    requires { Counted argument }
    ensures { result ≡ function_of f argument }
{
    let came = argument?;
    Ok(Came {
        worked: arithmetic::apply(f, came.worked),
        work: came.work + 1,
        next: came.next,
    })
}

// An expression in its brackets is one value more.
fn enclosed(inner: Result<Came, NoValue>) -> Result<Came, NoValue>
    requires { Counted inner }
    ensures { result ≡ enclosed inner }
{
    let came = inner?;
    Ok(Came {
        worked: came.worked,
        work: came.work + 1,
        next: came.next,
    })
}

// A number, or what else a value may be: that lends text and table on, and stands in a function of its
// own, so that a number, as most values are, does not pay for it.
#[cycle(value)]
fn value_in(text: &[u8], table: &[i64], at: usize, levels: usize) -> Result<Came, NoValue>
    requires { at ≤ length text.now }
    ensures { result ≡ of_value table.now levels (value_t text.now at) }
{
    if opens_number(text, at) {
        return of_number(number_at(text, at));
    }
    other_value_in(text, table, at, levels)
}

// `#` and a value; a function of an expression; or an expression.
#[cycle(value)]
fn other_value_in(text: &[u8], table: &[i64], at: usize, levels: usize) -> Result<Came, NoValue>
    requires { (at ≤ length text.now) × (opens_number (drop at text.now) ≡ false) }
    ensures { result ≡ of_value table.now levels (value_t text.now at) }
{
    if levels == 0 {
        return Err(too_deep(pass_value(text, at)));
    }
    match opening_at(text, at) {
        Ok((Opening::Parameter, p)) => entry_of(table, value_in(text, table, p, levels - 1)),
        Ok((Opening::Bracket, p)) => enclosed(expression_in(text, table, p, levels - 1)),
        Ok((Opening::Function(f), p)) => function_of(f, expression_in(text, table, p, levels - 1)),
        Err(p) => Err(NoValue::Wrong(p)),
    }
}

// An expression after its `[`, and the levels left within it. Once a value in it nests too deep, the rest
// is passed for its form.
#[cycle(value)]
fn expression_in(text: &[u8], table: &[i64], at: usize, levels: usize) -> Result<Came, NoValue>
    requires { (at ≤ length text.now) × (0 < at) }
    ensures { result ≡ of_expression table.now levels (expr_t text.now at) }
{
    match value_in(text, table, at, levels) {
        Ok(first) => {
            let mut i = first.next;
            let mut work = first.work;
            let mut state = State {
                waiting: None,
                term: first.worked,
            };
            // No `for`: each step goes past an operator and a value.
            loop {
                match following_at(text, i) {
                    Ok((Following::Close, p)) => {
                        return Ok(Came {
                            worked: settled(state.waiting, state.term),
                            work,
                            next: p,
                        });
                    }
                    Ok((Following::Operator(op), p)) => match value_in(text, table, p, levels) {
                        Ok(right) => {
                            state.push(op, right.worked);
                            work = work + right.work + 1;
                            i = right.next;
                        }
                        Err(NoValue::Deep(q)) => return Err(too_deep(pass_rest(text, q))),
                        Err(NoValue::Wrong(q)) => return Err(NoValue::Wrong(q)),
                    },
                    Err(p) => return Err(NoValue::Wrong(p)),
                }
            }
        }
        Err(NoValue::Deep(p)) => Err(too_deep(pass_rest(text, p))),
        Err(NoValue::Wrong(p)) => Err(NoValue::Wrong(p)),
    }
}

// A value that stands in no other, with all levels left. A number is asked for here too: most values on a
// line are one, and need not go through the functions that call each other.
pub(crate) fn value_at(text: &[u8], table: &[i64], at: usize) -> Result<Came, NoValue>
    requires { at ≤ length text.now }
    ensures { result ≡ of_value table.now 24 (value_t text.now at) }
{
    if opens_number(text, at) {
        return of_number(number_at(text, at));
    }
    value_in(text, table, at, LEVELS)
}

// The spellings inside a value: what opens one that is no number, and what follows one in an
// expression. Each is known by its first byte; the error of a wrong one is the place of the first byte that
// does not fit.
ghost use Rattle.std.specs.Prelude.{◌≡◌, ◌≤◌, length, drop};
ghost use Rattle.grammar.proofs.Read.{eat, read_f};
ghost use Rattle.grammar.proofs.Place.{place, head_p, tail_p};
ghost use Rattle.reader.specs.Places.{spelt_to, opening, following, function_after, operator_after};

use grammar::{Func, Op};

// What opens a value that is no number: `#`, `[`, or a function's name with its `[`.
#[derive(Clone, Copy)]
pub(crate) enum Opening {
    Parameter,
    Bracket,
    Function(Func),
}

// What follows a value in an expression: `]`, or an operator.
#[derive(Clone, Copy)]
pub(crate) enum Following {
    Close,
    Operator(Op),
}

// The place past a word, or that of the first byte that is not the word's.
pub(crate) fn keyword(text: &[u8], at: usize, word: &[u8]) -> Result<usize, usize>
    requires { at ≤ length text.now }
    ensures { result ≡ spelt_to (place text.now (eat {A = Unit {0}} word.now tt (drop at text.now))) }
{
    for (i, &b) in word.iter().enumerate() {
        if text.len() - at <= i || b != text[at + i] {
            return Err(at + i);
        }
    }
    Ok(at + word.len())
}

fn function_after(word: Result<usize, usize>, f: Func) -> Result<(Opening, usize), usize>
    ensures { result ≡ function_after word f }
{
    Ok((Opening::Function(f), word?))
}

// FIX and FUP after their F.
fn fix_or_fup(text: &[u8], at: usize) -> Result<(Opening, usize), usize>
    requires { at ≤ length text.now }
    ensures { result ≡ opening (place text.now (read_f (drop at text.now))) }
{
    if text.len() <= at {
        return Err(at);
    }
    match text[at] {
        b'I' => function_after(keyword(text, at + 1, b"X["), Func::Fix),
        b'U' => function_after(keyword(text, at + 1, b"P["), Func::Fup),
        _ => Err(at),
    }
}

// What opens a value here and the place past it, or the place where it is wrong.
pub(crate) fn opening_at(text: &[u8], at: usize) -> Result<(Opening, usize), usize>
    requires { at ≤ length text.now }
    ensures { result ≡ opening (head_p text.now at) }
{
    if text.len() <= at {
        return Err(at);
    }
    match text[at] {
        b'#' => Ok((Opening::Parameter, at + 1)),
        b'[' => Ok((Opening::Bracket, at + 1)),
        b'A' => function_after(keyword(text, at + 1, b"BS["), Func::Abs),
        b'F' => fix_or_fup(text, at + 1),
        b'R' => function_after(keyword(text, at + 1, b"OUND["), Func::Round),
        _ => Err(at),
    }
}

fn operator_after(word: Result<usize, usize>, op: Op) -> Result<(Following, usize), usize>
    ensures { result ≡ operator_after word op }
{
    Ok((Following::Operator(op), word?))
}

// What follows here and the place past it, or the place where it is wrong.
pub(crate) fn following_at(text: &[u8], at: usize) -> Result<(Following, usize), usize>
    requires { at ≤ length text.now }
    ensures { result ≡ following (tail_p text.now at) }
{
    if text.len() <= at {
        return Err(at);
    }
    match text[at] {
        b']' => Ok((Following::Close, at + 1)),
        b'+' => Ok((Following::Operator(Op::Add), at + 1)),
        b'-' => Ok((Following::Operator(Op::Sub), at + 1)),
        b'*' => Ok((Following::Operator(Op::Mul), at + 1)),
        b'/' => Ok((Following::Operator(Op::Div), at + 1)),
        b'M' => operator_after(keyword(text, at + 1, b"OD"), Op::Mod),
        b'A' => operator_after(keyword(text, at + 1, b"ND"), Op::And),
        b'O' => operator_after(keyword(text, at + 1, b"R"), Op::Or),
        b'X' => operator_after(keyword(text, at + 1, b"OR"), Op::Xor),
        _ => Err(at),
    }
}

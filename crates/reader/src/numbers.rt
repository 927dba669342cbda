// Numbers: a sign, digits, and a point among them.
ghost use Rattle.std.specs.Prelude.{◌≡◌, ◌≤◌, length, take, drop};
ghost use Rattle.grammar.proofs.Read.{opens_number, numeric};
ghost use Rattle.grammar.proofs.Place.{map_p, number_p};
ghost use Rattle.rules.specs.Meaning.{number_of};
ghost use Rattle.reader.specs.Places.{valued, pointed, with_digit, SignAt, DigitsAt};

use rules::Worked;
use text::bytes::is_digit;

// Whether there is a minus sign, and the place past the sign.
#[derive(Clone, Copy)]
pub(crate) struct Signed {
    pub(crate) negative: bool,
    pub(crate) next: usize,
}

// The number that digits write, held at ten thousand million, which is past every range, and the place
// past them.
#[derive(Clone, Copy)]
pub(crate) struct Digits {
    pub(crate) number: u64,
    pub(crate) next: usize,
}

// Whether a byte may begin a number. Most begin with a digit, so that is asked first.
fn is_numeric(b: u8) -> bool
    ensures { result ≡ numeric b }
{
    is_digit(b) || matches!(b, b'+' | b'-' | b'.')
}

// Whether a number begins here.
pub(crate) fn opens_number(text: &[u8], at: usize) -> bool
    ensures { result ≡ opens_number (drop at text.now) }
{
    if text.len() <= at {
        return false;
    }
    is_numeric(text[at])
}

fn sign_at(text: &[u8], at: usize) -> Signed
    requires { at ≤ length text.now }
    ensures { SignAt text.now at result }
{
    if text.len() <= at {
        return Signed {
            negative: false,
            next: at,
        };
    }
    match text[at] {
        b'+' => Signed {
            negative: false,
            next: at + 1,
        },
        b'-' => Signed {
            negative: true,
            next: at + 1,
        },
        _ => Signed {
            negative: false,
            next: at,
        },
    }
}

// The number with one digit more. (Its bound stays a clause: a type for it would be opened again at every digit.)
fn with_digit(number: u64, digit: u8) -> u64
    requires number_bound { number ≤ 10000000000 }
    requires le_digit { 48 ≤ digit }
    ensures { result ≡ with_digit number digit }
{
    (number * 10 + (digit as u64 - 48)).min(10000000000)
}

// The digits from here on and before `end`, written after those of a number.
fn digits_before(text: &[u8], at: usize, end: usize, number: u64) -> Digits
    requires at_le_end { at ≤ end }
    requires end_in_bounds { end ≤ length text.now }
    requires number_bound { number ≤ 10000000000 }
    ensures { DigitsAt (take end text.now) at number result }
{
    let mut n = number;
    for i in at..end {
        let b = text[i];
        if !is_digit(b) {
            return Digits { number: n, next: i };
        }
        n = with_digit(n, b);
    }
    Digits {
        number: n,
        next: end,
    }
}

// The digits from here on, written after those of a number.
pub(crate) fn digits_from(text: &[u8], at: usize, number: u64) -> Digits
    requires at_in_bounds { at ≤ length text.now }
    requires number_bound { number ≤ 10000000000 }
    ensures { DigitsAt text.now at number result }
{
    digits_before(text, at, text.len(), number)
}

fn has_point(text: &[u8], at: usize) -> bool
    ensures { result ≡ pointed (drop at text.now) }
{
    if text.len() <= at {
        return false;
    }
    text[at] == b'.'
}

// What a number came to and the place past it, or the place where its form is wrong.
pub(crate) fn number_at(text: &[u8], at: usize) -> Result<(Worked, usize), usize>
    requires { at ≤ length text.now }
    ensures { result ≡ valued (map_p number_of (number_p text.now at)) }
{
    let sign = sign_at(text, at);
    let whole = digits_from(text, sign.next, 0);
    if has_point(text, whole.next) {
        let decimals = whole.next + 1;
        let all = digits_from(text, decimals, whole.number);
        if all.next == sign.next + 1 {
            return Err(all.next);
        }
        if 4 < all.next - decimals {
            // The first five tell the value. So many are seldom, so their number alone is read anew,
            // and nothing is kept for it.
            let again = digits_from(text, sign.next, 0);
            let five = digits_before(text, decimals, decimals + 5, again.number);
            return Ok((value::number(sign.negative, five.number, 5), all.next));
        }
        return Ok((
            value::number(sign.negative, all.number, all.next - decimals),
            all.next,
        ));
    }
    if whole.next == sign.next {
        return Err(whole.next);
    }
    Ok((value::number(sign.negative, whole.number, 0), whole.next))
}

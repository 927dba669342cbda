// One line of a parameter file: the number and the value that it writes, and what is wrong with it.
ghost use Rattle.std.specs.Prelude.{◌≡◌, true, ◌++◌, ◌+◌, ◌-◌, ◌*◌, ◌≤◌, min, length, replicate};
ghost use Rattle.std.proofs.Math.Option.{some};
ghost use Rattle.grammar.specs.Bytes.{byte};
ghost use Rattle.grammar.specs.Grammar.{Number, digit};
ghost use Rattle.grammar.specs.Derivation.{blank};
ghost use Rattle.std.specs.List.{take_while as front_while};
ghost use Rattle.grammar.proofs.Read.{read_number};
ghost use Rattle.rules.specs.Numbers.{signed};
ghost use Rattle.rules.specs.Meaning.{decimal};
ghost use Rattle.parameters.specs.Places.{trimmed, filled, allowed, judged};
ghost use Rattle.parameters.specs.File.{Entry};
ghost use Rattle.parameters.specs.Reading.{number_of};
ghost use Rattle.parameters.specs.Parse.{alone, parse};
ghost use Rattle.parameters.specs.Told.{SignOf, FractionAs, PartsOf, ParsedAs, valued_by, SaidAs};

use super::places::{Place, decimals, stands_for};
use super::refusal::FileRefusal;
use text::bytes::{is_blank, is_digit};

// Whether there is a minus sign, and what stands behind the sign. (`reader` asks likewise at a place of a line that it
// keeps whole; here the line is taken apart, and a place would be no plainer.)
#[derive(Clone, Copy)]
struct Signed<'a> {
    negative: bool,
    behind: &'a [u8],
}

// The parts of a number: its sign, the digits before the point, and those behind it that count.
#[derive(Clone, Copy)]
struct Parts<'a> {
    negative: bool,
    whole: &'a [u8],
    decimals: &'a [u8],
}

// What a line says: a parameter number and its value, 0 where that is passed over.
#[derive(Clone, Copy)]
pub struct Said {
    pub number: usize,
    pub value: i64,
}

// How many digits stand at the front. (One function for this and the next, told the class by a closure, would need more
// words for what it is told than the two lines have.)
fn front_digits(text: &[u8]) -> usize
    ensures { result ≡ length (front_while digit text.now) }
{
    text.iter().take_while(|b| is_digit(**b)).count()
}

// How many blanks stand at the front.
fn front_blanks(text: &[u8]) -> usize
    ensures { result ≡ length (front_while blank text.now) }
{
    text.iter().take_while(|b| is_blank(**b)).count()
}

fn sign_of(text: &[u8]) -> Signed
    ensures { SignOf text.now result }
{
    match text {
        [b'+', behind @ ..] => Signed {
            negative: false,
            behind,
        },
        [b'-', behind @ ..] => Signed {
            negative: true,
            behind,
        },
        _ => Signed {
            negative: false,
            behind: text,
        },
    }
}

// Digits without the zeros at their end.
fn trimmed(digits: &[u8]) -> &[u8]
    ensures { result.now ≡ trimmed digits.now }
{
    let mut rest = digits;
    while let [front @ .., b'0'] = rest {
        rest = front;
    }
    rest
}

// The digits behind the point, where a text is a point and digits, or nothing.
fn decimals_in(text: &[u8]) -> Option<&[u8]>
    ensures { FractionAs text.now result }
{
    match text {
        [] => Some(text),
        [b'.', decimals @ ..] => {
            let (digits, behind) = decimals.split_at(front_digits(decimals));
            if behind.is_empty() {
                Some(digits)
            } else {
                None
            }
        }
        _ => None,
    }
}

// The parts of the number that a text is; none where it is no number.
fn number_in(text: &[u8]) -> Option<Parts>
    ensures { ParsedAs result (alone (read_number text.now)) }
{
    let Signed { negative, behind } = sign_of(text);
    let (whole, behind) = behind.split_at(front_digits(behind));
    let decimals = decimals_in(behind)?;
    if whole.len() + decimals.len() == 0 {
        return None;
    }
    Some(Parts {
        negative,
        whole,
        decimals: trimmed(decimals),
    })
}

// A number with one digit more, held at ten thousand million, which is past every range. (As inside `reader`, which asks for a
// digit, and so needs no saturation; one for both would be no plainer.)
fn with_digit(number: u64, digit: u8) -> u64
    ensures { result ≡ min 10000000000 (number * 10 + (digit - byte "0")) }
{
    number
        .saturating_mul(10)
        .saturating_add(u64::from(digit.saturating_sub(b'0')))
        .min(10_000_000_000)
}

// What digits write behind a number, held likewise.
fn worth(digits: &[u8], number: u64) -> u64
    requires { number ≤ 10000000000 }
    ensures { result ≡ min 10000000000 (decimal number digits.now) }
{
    digits.iter().fold(number, |n, d| with_digit(n, *d))
}

// What so many zeros write behind a number, held likewise.
fn with_zeros(number: u64, many: usize) -> u64
    requires { number ≤ 10000000000 }
    ensures { result ≡ min 10000000000 (decimal number (replicate many (byte "0"))) }
{
    let mut n = number;
    for _zero in 0..many {
        n = with_digit(n, b'0');
    }
    n
}

// The size of a number in units of the last of so many decimals, held likewise.
fn size_in(parts: Parts, decimals: usize) -> u64
    requires { length parts.decimals.now ≤ decimals }
    ensures { result ≡ min 10000000000 (decimal 0 (parts.entry.whole.now ++ filled decimals parts.entry.decimals.now)) }
{
    let all = worth(parts.decimals, worth(parts.whole, 0));
    with_zeros(all, decimals - parts.decimals.len())
}

// Whether a value is one of those allowed at a place.
fn is_allowed(place: Place, negative: bool, size: u64) -> bool
    ensures { result ≡ allowed place (signed negative size) }
{
    match place {
        Place::Entry(_) => size <= 999_999_999,
        Place::Offset(_) | Place::Origin(_) => size <= 1_000_000_000,
        Place::System => !negative && matches!(size, 1..=9),
        Place::Passed => true,
    }
}

// The number of a sign and a size. (As inside `value`, which makes a value of them and not a number; no plainer by way of
// that.)
fn with_sign(negative: bool, size: u64) -> i64
    requires { size ≤ 10000000000 }
    ensures { result ≡ signed negative size }
{
    let z = size as i64;
    if negative { -z } else { z }
}

// The value of a number at a place that is not passed over.
fn value_for(parts: Parts, place: Place) -> Result<i64, FileRefusal>
    requires { judged place ≡ true }
    ensures { (x : Number) → PartsOf parts.entry x → result ≡ valued_by place x }
{
    let places = decimals(place);
    if places < parts.decimals.len() {
        return Err(FileRefusal::ValueUnfit);
    }
    let size = size_in(parts, places);
    if !is_allowed(place, parts.negative, size) {
        return Err(FileRefusal::ValueUnfit);
    }
    Ok(with_sign(parts.negative, size))
}

// What a line of right form says.
fn judged(number: u64, parts: Parts, least: usize) -> Result<Said, FileRefusal>
    requires { least ≤ 5400 }
    ensures { (e : Entry) → number ≡ min 10000000000 (number_of e) → PartsOf parts.entry e.value → SaidAs least result (some e) }
{
    if number < least as u64 {
        return Err(FileRefusal::NotRising);
    }
    if number < 1 || 5399 < number {
        return Err(FileRefusal::NumberOutOfRange);
    }
    let number = number as usize;
    let value = match stands_for(number) {
        Place::Passed => 0,
        place => value_for(parts, place)?,
    };
    Ok(Said { number, value })
}

// What a line says, once one more than the number before it is known.
pub(crate) fn read_line(line: &[u8], least: usize) -> Result<Said, FileRefusal>
    requires { least ≤ 5400 }
    ensures { SaidAs least result (parse line.now) }
{
    let (digits, behind) = line.split_at(front_digits(line));
    let (blanks, value) = behind.split_at(front_blanks(behind));
    if digits.is_empty() {
        return Err(FileRefusal::Malformed);
    }
    if blanks.is_empty() {
        return Err(FileRefusal::Malformed);
    }
    match number_in(value) {
        Some(parts) => judged(worth(digits, 0), parts, least),
        None => Err(FileRefusal::Malformed),
    }
}

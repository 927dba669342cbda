// A number in shortest decimals, put into a text.
ghost use Rattle.std.specs.Prelude.{◌≡◌, ◌+◌, ◌≤◌, ◌<◌, length};
ghost use Rattle.std.proofs.lemmas.List.Edits.{sets};
ghost use Rattle.grammar.specs.Bytes.{byte};
ghost use Rattle.grammar.specs.Grammar.{spell_sign, write_fraction, write_number};
ghost use Rattle.rules.specs.Numbers.{minus, signed};
ghost use Rattle.parameters.specs.Places.{trimmed};
ghost use Rattle.parameters.specs.Writing.{digits_of, without, last, fraction, sign_of, shortest};
ghost use Rattle.parameters.specs.Text.{Cut};

// How many decimals count, and the digits with no zeros at their end.
#[derive(Clone, Copy)]
struct Decimals {
    count: usize,
    rest: u64,
}

// How many digits a number has. (By steps: 0 has a digit too, of which the library's logarithm knows nothing.)
pub(crate) fn digit_count(number: u64) -> usize
    ensures { (result ≡ length (digits_of number)) × (result ≤ number + 1) }
{
    let mut rest = number;
    let mut count = 1;
    while 10 <= rest {
        rest /= 10;
        count += 1;
    }
    count
}

// A number without its last digits.
fn whole_part(number: u64, decimals: usize) -> u64
    ensures { (result ≡ without decimals number) × (result ≤ number) }
{
    let mut rest = number;
    for _decimal in 0..decimals {
        rest /= 10;
    }
    rest
}

// The last digits of a number, without the zeros at their end.
fn decimals_of(number: u64, decimals: usize) -> Decimals
    ensures { Cut decimals number result.count result.rest }
{
    let mut rest = number;
    for left in (0..decimals).rev() {
        if rest % 10 != 0 {
            return Decimals {
                count: left + 1,
                rest,
            };
        }
        rest /= 10;
    }
    Decimals { count: 0, rest }
}

// A decimal digit.
fn digit(number: u64) -> u8
    requires { number < 10 }
    ensures { result ≡ byte "0" + number }
{
    b'0' + number as u8
}

// Puts the last digits of a number from a place on. The last digit comes first out of the number.
fn put_digits(number: u64, many: usize, text: &mut [u8], at: usize)
    requires { at + many ≤ length text.old }
    ensures { text.new ≡ sets text.old at (last many number) }
{
    let mut rest = number;
    for left in (0..many).rev() {
        text[at + left] = digit(rest % 10);
        rest /= 10;
    }
}

// Puts the sign of a number of that sign and size: zero has none.
fn put_sign(negative: bool, size: u64, text: &mut [u8], at: usize) -> usize
    requires { at + length (spell_sign (sign_of (minus (signed negative size)))) ≤ length text.old }
    ensures { (result ≡ at + length (spell_sign (sign_of (minus (signed negative size))))) × (text.new ≡ sets text.old at (spell_sign (sign_of (minus (signed negative size))))) }
{
    if size == 0 {
        return at;
    }
    if !negative {
        return at;
    }
    text[at] = b'-';
    at + 1
}

// Puts all digits of a number.
pub(crate) fn put_whole(number: u64, text: &mut [u8], at: usize) -> usize
    requires { at + length (digits_of number) ≤ length text.old }
    ensures { (result ≡ at + length (digits_of number)) × (text.new ≡ sets text.old at (digits_of number)) }
{
    let count = digit_count(number);
    put_digits(number, count, text, at);
    at + count
}

// Puts the point and the decimals, where there are any.
fn put_fraction(number: u64, decimals: usize, text: &mut [u8], at: usize) -> usize
    requires { at + length (write_fraction (fraction (trimmed (last decimals number)))) ≤ length text.old }
    ensures { (result ≡ at + length (write_fraction (fraction (trimmed (last decimals number))))) × (text.new ≡ sets text.old at (write_fraction (fraction (trimmed (last decimals number))))) }
{
    let d = decimals_of(number, decimals);
    let count = d.count;
    if count == 0 {
        return at;
    }
    text[at] = b'.';
    put_digits(d.rest, count, text, at + 1);
    at + 1 + count
}

// Puts a number of that sign and size, in units of its last decimal, and tells the place after it.
pub(crate) fn put_number(
    negative: bool,
    size: u64,
    decimals: usize,
    text: &mut [u8],
    at: usize,
) -> usize
    requires { at + length (write_number (shortest decimals (signed negative size))) ≤ length text.old }
    ensures { (result ≡ at + length (write_number (shortest decimals (signed negative size)))) × (text.new ≡ sets text.old at (write_number (shortest decimals (signed negative size)))) }
{
    let first = put_sign(negative, size, text, at);
    let point = put_whole(whole_part(size, decimals), text, first);
    put_fraction(size, decimals, text, point)
}

// How long the sign of a number of that sign and size is: zero has none.
fn sign_size(negative: bool, size: u64) -> usize
    ensures { (result ≡ length (spell_sign (sign_of (minus (signed negative size))))) × (result ≤ 1) }
{
    if negative && size != 0 { 1 } else { 0 }
}

// How long the point and the decimals are, where there are any.
fn fraction_size(number: u64, decimals: usize) -> usize
    requires { decimals ≤ 5 }
    ensures { (result ≡ length (write_fraction (fraction (trimmed (last decimals number))))) × (result ≤ 6) }
{
    match decimals_of(number, decimals).count {
        0 => 0,
        count => 1 + count,
    }
}

// How long a number in shortest decimals is: counted, with nothing put.
pub(crate) fn number_size(negative: bool, size: u64, decimals: usize) -> usize
    requires { (decimals ≤ 5) × (size ≤ 1000000000) }
    ensures { (result ≡ length (write_number (shortest decimals (signed negative size)))) × (result ≤ 1000000010) }
{
    let whole = digit_count(whole_part(size, decimals));
    sign_size(negative, size) + whole + fraction_size(size, decimals)
}

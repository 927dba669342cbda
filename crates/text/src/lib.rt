// A line as the grammar takes it: outside comments spaces and tabs are dropped and letters raised to
// upper case; a comment, from `(` to the first `)`, is kept as it is.
#![tactic(auto)]

ghost use Rattle.std.specs.Prelude.{◌≡◌, false, cond, ◌-◌, ◌≤◌, length};
ghost use Rattle.grammar.specs.Derivation.{raise};
ghost use Rattle.grammar.specs.Typed.{keeps, stays, typed_from};
ghost use Rattle.text.specs.Prepare.{plain, Copied, bytes_of, prepared};

pub mod bytes;

use bytes::is_blank;

fn raised(b: u8) -> u8
    ensures { result ≡ raise b }
{
    match b {
        b'a'..=b'z' => b - 32,
        _ => b,
    }
}

// Whether a byte is kept as it is and opens no comment, as most are: one test of a range.
fn is_plain(b: u8) -> bool
    ensures { result ≡ plain b }
{
    b'(' < b && b < b'a'
}

// Copies a comment from past its `(`, up to its `)` or to the line's end, and tells the place past it.
fn copy_comment(line: &[u8], at: usize, text: &mut [u8], to: usize) -> usize
    requires { (to ≤ at) × (at ≤ length line.now) × (length line.now ≤ length text.old) }
    ensures { Copied line.now text.old text.new to at result }
{
    let mut n = to;
    for i in at..line.len() {
        let b = line[i];
        text[n] = b;
        n += 1;
        if b == b')' {
            return i + 1;
        }
    }
    line.len()
}

// Prepares the line into the text, whose bytes past it stay as they were, and tells how many bytes it then
// has. A line of more bytes than the text has none: it is too long.
pub fn prepare(line: &[u8], text: &mut [u8]) -> Option<usize>
    ensures { (result ≡ bytes_of line.now (length text.old)) × (text.new ≡ prepared line.now text.old) }
{
    if text.len() < line.len() {
        return None;
    }
    let mut n: usize = 0;
    let mut i: usize = 0;
    // No `for`: a comment is passed in one step, so the next place is not always one further.
    while i < line.len() {
        let b = line[i];
        if is_plain(b) {
            text[n] = b;
            n += 1;
            i += 1;
        } else if b == b'(' {
            text[n] = b;
            let next = copy_comment(line, i + 1, text, n + 1);
            n += next - i;
            i = next;
        } else if !is_blank(b) {
            text[n] = raised(b);
            n += 1;
            i += 1;
        } else {
            i += 1;
        }
    }
    Some(n)
}

fn keeps_byte(inside: bool, b: u8) -> bool
    ensures { result ≡ keeps inside b }
{
    inside || !is_blank(b)
}

fn stays_inside(inside: bool, b: u8) -> bool
    ensures { result ≡ stays inside b }
{
    if inside {
        return b != b')';
    }
    b == b'('
}

// One byte fewer is to be passed where this one is kept.
fn still_left(kept: bool, left: usize) -> usize
    ensures { result ≡ cond kept (left - 1) left }
{
    if !kept {
        return left;
    }
    if left == 0 {
        return 0;
    }
    left - 1
}

// Where the byte of the prepared line that has `kept` bytes before it stands in the line as typed; where
// there is none, the line's length. Only a line that is refused is asked for this.
pub fn typed_place(line: &[u8], kept: usize) -> usize
    ensures { result ≡ typed_from false line.now kept }
{
    let mut inside = false;
    let mut left = kept;
    for (i, &b) in line.iter().enumerate() {
        let keeps = keeps_byte(inside, b);
        if keeps && left == 0 {
            return i;
        }
        left = still_left(keeps, left);
        inside = stays_inside(inside, b);
    }
    line.len()
}

// The three repairs of a line, found by their places and put byte by byte.
ghost use Rattle.std.specs.Prelude.{◌≡◌, not, List, ◌∷◌, ℕ, ◌+◌, ◌≤◌, ◌<◌, length, drop};
ghost use Rattle.std.specs.List.{position, list_all};
ghost use Rattle.grammar.specs.Derivation.{blank};
ghost use Rattle.mend.specs.Repairs.{square, depth, closed, flattened, lone_percent};
ghost use Rattle.mend.specs.Places.{turned_by, starts_remark, remark_place, remark_byte, remarked_at};

use text::bytes::is_blank;

// A parenthesis turned to a square bracket.
fn square(b: u8) -> u8
    ensures { result ≡ square b }
{
    match b {
        b'(' => b'[',
        b')' => b']',
        _ => b,
    }
}

// How many comments are open after a byte.
fn depth(d: usize, b: u8) -> usize
    requires { d < 18446744073709551615 }
    ensures { (result ≡ depth d b) × (result ≤ d + 1) }
{
    match b {
        b'(' => d + 1,
        b')' => d.saturating_sub(1),
        _ => d,
    }
}

// Whether the outermost of d open comments is closed from a place on.
fn closed(line: &[u8], from: usize, d: usize) -> bool
    requires { d ≤ from }
    ensures { result ≡ closed d (drop from line.now) }
{
    let mut e = d;
    for i in from..line.len() {
        if e == 0 {
            return true;
        }
        e = depth(e, line[i]);
    }
    e == 0
}

// Whether the outermost of e open comments is closed from a place on, where d were open before the byte in front of it. The answer is
// the same all through an outermost comment, so the line is read on only where one opens.
fn ends_behind(line: &[u8], next: usize, d: usize, e: usize, ends: bool) -> bool
    requires { e ≤ next }
    ensures { (b : ℕ) → e ≡ depth d b → ends ≡ closed d (b ∷ drop next line.now) → result ≡ closed e (drop next line.now) }
{
    if d == 0 && e > 0 {
        closed(line, next, e)
    } else {
        ends
    }
}

// The byte that comes out for b: d comments are open before it and e after it, and behind it the outermost ends or does not.
fn turned(d: usize, e: usize, ends: bool, b: u8) -> u8
    ensures { (s : List ℕ) → ends ≡ closed e s → result ≡ turned_by d e s b }
{
    if d > 0 && e > 0 && ends { square(b) } else { b }
}

// Inner parentheses of closed nested comments turned to square brackets, in place.
pub(crate) fn flatten(line: &mut [u8])
    ensures { line.new ≡ flattened 0 line.old }
{
    let mut d = 0;
    // Whether the outermost open comment is closed further on.
    let mut ends = true;
    for i in 0..line.len() {
        let b = line[i];
        let e = depth(d, b);
        ends = ends_behind(line, i + 1, d, e, ends);
        line[i] = turned(d, e, ends, b);
        d = e;
    }
}

// Whether a byte starts a remark, where d comments are open.
fn starts_remark(d: usize, b: u8) -> bool
    ensures { result ≡ starts_remark d b }
{
    d == 0 && b == b';'
}

// The place of the `;` that starts a remark, if there is one.
pub(crate) fn remark_at(line: &[u8]) -> Option<usize>
    ensures { result ≡ remark_place 0 0 line.now }
{
    let mut d = 0;
    for i in 0..line.len() {
        if starts_remark(d, line[i]) {
            return Some(i);
        }
        d = depth(d, line[i]);
    }
    None
}

// The place of the first byte that is no blank, if there is one.
fn first_unblank(line: &[u8]) -> Option<usize>
    ensures { result ≡ position (λ b. not (blank b)) line.now }
{
    line.iter().position(|b| !is_blank(*b))
}

// Whether all bytes are blanks.
fn all_blank(line: &[u8]) -> bool
    ensures { result ≡ list_all blank line.now }
{
    line.iter().all(|b| is_blank(*b))
}

// Whether a line is one `%` and blanks.
pub(crate) fn lone_percent(line: &[u8]) -> bool
    ensures { result ≡ lone_percent line.now }
{
    match first_unblank(line) {
        Some(at) => line[at] == b'%' && all_blank(&line[at + 1..]),
        None => false,
    }
}

// A line with its remark made a comment, put into a space that is longer by one.
pub(crate) fn put_remark(line: &[u8], at: usize, out: &mut [u8])
    requires { (at < length line.now) × (length out.old ≡ length line.now + 1) }
    ensures { out.new ≡ remarked_at at line.now }
{
    for i in 0..line.len() {
        out[i] = remark_byte(at, i, line[i]);
    }
    out[line.len()] = b')';
}

// The byte that comes out at place i of a line whose remark starts at a place.
fn remark_byte(at: usize, i: usize, b: u8) -> u8
    ensures { result ≡ remark_byte at i b }
{
    if i < at {
        b
    } else if i == at {
        b'('
    } else {
        square(b)
    }
}

// Arcs: the two faults of number 14. A way leads from the centre to a place and is given by its lengths on the plane's two
// axes. Radii are compared by their squares, in 128 bits where 64 do not hold them.
#![tactic(auto)]

ghost use Rattle.std.specs.Prelude.{◌≡◌, true, ◌*◌, ◌≤◌, eqb, ltb};
ghost use Rattle.rules.specs.Numbers.{within};
ghost use Rattle.rules.specs.Arcs.{square, slack, unequal};
ghost use Rattle.arcs.specs.Ways.{summed, measurable, too_unequal};

use rules::Length;

// Whether an arc's start is its centre.
pub fn starts_at_centre(start: [Length; 2]) -> bool
    ensures { result ≡ eqb (summed start) 0 }
{
    lengths::is_zero_length(start[0]) && lengths::is_zero_length(start[1])
}

// Whether the radii at an arc's start and end differ by more than the slack.
#[tactic(auto, unfolding(crate::specs::Ways::too_unequal))]
pub fn radii_unequal(start: [Length; 2], end: [Length; 2], slack: u16) -> bool
    ensures { result ≡ too_unequal start end slack }
{
    if !(measurable(start) && measurable(end)) {
        return true;
    }
    unequal(slack, summed(start), summed(end))
}

// How much the radii may differ: 508 counts under G20, 200 under G21.
pub fn slack(units: u16) -> u16
    ensures { result ≡ slack units }
{
    if units == 200 { 508 } else { 200 }
}

// Whether the roots of two sums of squares differ by more than the slack.
fn unequal(slack: u16, a: u64, b: u64) -> bool
    ensures { result ≡ unequal slack a b }
{
    if a < b {
        return longer(slack, b, a);
    }
    longer(slack, a, b)
}

// The same, of the larger sum and the smaller. `more` is what the larger exceeds the smaller and the squared slack by. The
// roots are too unequal where twice the slack times the smaller one is less than that; the squares of both say so without a root.
fn longer(slack: u16, a: u64, b: u64) -> bool
    requires { b ≤ a }
    ensures { result ≡ unequal slack a b }
{
    let counts = slack as u64;
    let squared = counts * counts;
    if a - b <= squared {
        return false;
    }
    let more = (a - b - squared) as u128;
    (b as u128 * (4 * squared) as u128) < more * more
}

fn summed(way: [Length; 2]) -> u64
    requires { measurable way ≡ true }
    ensures { result ≡ summed way }
{
    square(way[0]) + square(way[1])
}

fn measurable(way: [Length; 2]) -> bool
    ensures { result ≡ measurable way }
{
    in_span(way[0]) && in_span(way[1])
}

// Whether a length is at most that from one end of the reach to the other.
fn in_span(l: Length) -> bool
    ensures { result ≡ within 2000000000 l.0 }
{
    lengths::extent(l) <= 2_000_000_000
}

fn square(l: Length) -> u64
    requires { within 2000000000 l.0 ≡ true }
    ensures { result ≡ square l.0 }
{
    let counts = lengths::extent(l);
    counts * counts
}

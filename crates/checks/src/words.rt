// Numbers 10 and 11: a word that the line needs is missing, one is idle, or one has a value that it
// cannot have.
ghost use Rattle.std.specs.Prelude.{◌≡◌, cond};
ghost use Rattle.rules.specs.Block.{all_axes, any_of};
ghost use Rattle.rules.specs.Refusals.{below0, idle, missing, off_plane, outside, wrong_word};
ghost use Rattle.checks.specs.Modes.{early, in_modes, judged, word_at};

use super::marks::{any_axis, arc_move, moving_code, on_plane};
use rules::{Block, Refusal, Value};

// Numbers 10 and 11. They are judged before the record is worked, by the plane and the mode of the
// line's motion.
pub fn early(b: Block, plane: u16, motion: u16) -> Result<(), Refusal>
    ensures { result ≡ judged (early b (in_modes plane motion)) }
{
    if missing(b, plane, motion) | idle(b, plane, motion) {
        return Err(Refusal::MissingOrIdle);
    }
    if wrong_word(b) {
        return Err(Refusal::WrongWord);
    }
    Ok(())
}

// Number 10: a needed word is missing.
#[tactic(auto, unfolding(rules::specs::Refusals::missing, rules::specs::Arcs::arc_move))]
fn missing(b: Block, plane: u16, motion: u16) -> bool
    ensures { result ≡ missing b (in_modes plane motion) }
{
    let asks_axis = matches!(b.once, Some(920 | 530)) | moving_code(b);
    ((b.once == Some(40)) & b.p.is_none())
        | ((b.once == Some(100)) & (b.l.is_none() | b.p.is_none()))
        | (asks_axis & !any_axis(b.axes))
        | (arc_move(b, motion) & !(on_plane(b.axes, plane) & on_plane(b.offsets, plane)))
}

// The one axis off the plane has a word.
#[tactic(auto, unfolding(rules::specs::Arcs::plane_axes))]
fn off_plane(words: [Option<Value>; 3], plane: u16) -> bool
    ensures { result ≡ any_of (word_at words) (off_plane plane all_axes) }
{
    match plane {
        170 => words[2].is_some(),
        180 => words[1].is_some(),
        _ => words[0].is_some(),
    }
}

// I, J or K without an arc move or off its plane.
fn idle_offset(offsets: [Option<Value>; 3], arc: bool, plane: u16) -> bool
    ensures { result ≡ any_of (word_at offsets) (cond arc (off_plane plane all_axes) all_axes) }
{
    if arc {
        return off_plane(offsets, plane);
    }
    any_axis(offsets)
}

// Number 10: a word is idle.
#[tactic(auto, unfolding(rules::specs::Refusals::idle, rules::specs::Arcs::arc_move))]
fn idle(b: Block, plane: u16, motion: u16) -> bool
    ensures { result ≡ idle b (in_modes plane motion) }
{
    let sets_origin = b.once == Some(100);
    (b.p.is_some() & !((b.once == Some(40)) | sets_origin))
        | (b.l.is_some() & !sets_origin)
        | idle_offset(b.offsets, arc_move(b, motion), plane)
}

// The word is given, and below 0.
fn below_zero(w: Option<Value>) -> bool
    ensures { result ≡ below0 w }
{
    w.is_some_and(value::is_below_zero)
}

// The word is given, and counts as no whole number from `low` to `high`.
fn outside(low: u8, high: u8, w: Option<Value>) -> bool
    ensures { result ≡ outside low high w }
{
    match w.map(value::whole) {
        Some(Some(n)) => (n < low as i64) | ((high as i64) < n),
        Some(None) => true,
        None => false,
    }
}

// Number 11: F, S or G4's P is below 0, or T, L or G10's P is no whole number of its range.
#[tactic(auto, unfolding(rules::specs::Refusals::wrong_word))]
fn wrong_word(b: Block) -> bool
    ensures { result ≡ wrong_word b }
{
    below_zero(b.f)
        | below_zero(b.s)
        | ((b.once == Some(40)) & below_zero(b.p))
        | outside(0, 99, b.t)
        | outside(2, 2, b.l)
        | ((b.once == Some(100)) & outside(1, 9, b.p))
}

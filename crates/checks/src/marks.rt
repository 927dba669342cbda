// What a line's codes and axis words ask for: plain tests of its summary.
ghost use Rattle.std.specs.Prelude.{◌≡◌, ◌||◌, [], ◌∷◌, ◌<◌};
ghost use Rattle.grammar.specs.Bytes.{among};
ghost use Rattle.rules.specs.Block.{any_of, all_axes, moves, sets_offset, sets_origin};
ghost use Rattle.rules.specs.Steps.{ends};
ghost use Rattle.rules.specs.Arcs.{arc_move, plane_axes};
ghost use Rattle.rules.specs.Refusals.{moving_code};
ghost use Rattle.checks.specs.Modes.{in_motion, word_at};

use rules::{Block, Value};

// The axes of a plane, in axis order.
#[tactic(auto, unfolding(rules::specs::Arcs::plane_axes))]
pub fn plane_axes(plane: u16) -> [usize; 2]
    ensures { result ≡ plane_axes plane }
{
    match plane {
        170 => [0, 1],
        180 => [0, 2],
        _ => [1, 2],
    }
}

// One of two axes has a word.
fn either_axis(words: [Option<Value>; 3], i: usize, j: usize) -> bool
    requires i_bound { i < 3 }
    requires j_bound { j < 3 }
    ensures { result ≡ any_of (word_at words) (i ∷ j ∷ []) }
{
    words[i].is_some() | words[j].is_some()
}

// One of the plane's axes has a word.
pub(crate) fn on_plane(words: [Option<Value>; 3], plane: u16) -> bool
    ensures { result ≡ any_of (word_at words) (plane_axes plane) }
{
    let [i, j] = plane_axes(plane);
    either_axis(words, i, j)
}

// The line has an axis word.
pub(crate) fn any_axis(words: [Option<Value>; 3]) -> bool
    ensures { result ≡ any_of (word_at words) all_axes }
{
    words[0].is_some() | either_axis(words, 1, 2)
}

// G10 or G92, which claim the axis words.
pub fn claims_axes(b: Block) -> bool
    ensures { result ≡ (sets_origin b || sets_offset b) }
{
    matches!(b.once, Some(100 | 920))
}

// The axis words make a move: neither G10 nor G92 claims them.
#[tactic(auto, unfolding(rules::specs::Block::moves))]
pub fn moves(b: Block) -> bool
    ensures { result ≡ moves b }
{
    any_axis(b.axes) & !claims_axes(b)
}

// G2 or G3.
fn by_arc(motion: u16) -> bool
    ensures { result ≡ among motion (20 ∷ 30 ∷ []) }
{
    matches!(motion, 20 | 30)
}

// A move by G2 or G3, of the line or else of the record.
#[tactic(auto, unfolding(rules::specs::Arcs::arc_move))]
pub fn arc_move(b: Block, motion: u16) -> bool
    ensures { result ≡ arc_move b (in_motion motion) }
{
    moves(b) & by_arc(b.motion.unwrap_or(motion))
}

// The line has G0, G1, G2 or G3.
pub fn moving_code(b: Block) -> bool
    ensures { result ≡ moving_code b }
{
    matches!(b.motion, Some(0 | 10 | 20 | 30))
}

// M2 or M30.
pub fn ends(b: Block) -> bool
    ensures { result ≡ ends b }
{
    matches!(b.stop, Some(2 | 30))
}

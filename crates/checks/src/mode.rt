// Number 12: the mode of motion does not allow what the line asks for.
ghost use Rattle.std.specs.Prelude.{◌≡◌, [], ◌∷◌};
ghost use Rattle.grammar.specs.Bytes.{among};
ghost use Rattle.rules.specs.Refusals.{wrong_mode};
ghost use Rattle.checks.specs.Modes.{at_feed};

use super::marks::moves;
use rules::{Block, Length};

// G0 or G1.
fn by_line(motion: u16) -> bool
    ensures { result ≡ among motion (0 ∷ 10 ∷ []) }
{
    matches!(motion, 0 | 10)
}

// G1, G2 or G3.
fn at_feed(motion: u16) -> bool
    ensures { result ≡ among motion (10 ∷ 20 ∷ 30 ∷ []) }
{
    matches!(motion, 10 | 20 | 30)
}

// Number 12: a move in mode G80, G53 in another mode than G0 and G1, or a move at feed 0. The mode is
// the line's or else the record's, the feed the one in force.
#[tactic(auto, unfolding(rules::specs::Refusals::wrong_mode))]
pub fn wrong_mode(b: Block, motion: u16, feed: Length) -> bool
    ensures { result ≡ wrong_mode b (at_feed motion feed) }
{
    let moving = moves(b);
    let motion = b.motion.unwrap_or(motion);
    (moving & (motion == 800))
        | ((b.once == Some(530)) & !by_line(motion))
        | (moving & at_feed(motion) & lengths::is_zero_length(feed))
}

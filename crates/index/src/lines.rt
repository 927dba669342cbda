// A text, and where a line of it stands.
ghost use Rattle.std.specs.Prelude.{◌≡◌, ◌≤◌, ◌<◌, length, MatchResult};
ghost use Rattle.index.specs.declared.Refusal.TheVariants.{TextTooLong};
ghost use Rattle.index.specs.Lines.{Walked};

use super::Refusal;
use texts::Pieces;

// A text that is short enough for an index.
#[derive(Clone, Copy)]
pub(crate) struct Text<'a> {
    pub(crate) bytes: &'a [u8],
    ghost short: { length bytes.now ≤ 60000 },
}

impl<'a> Text<'a> {
    pub(crate) fn new(bytes: &'a [u8]) -> Result<Text<'a>, Refusal>
        ensures { MatchResult result (λ t. t.bytes.now ≡ bytes.now) (λ e. (e ≡ TextTooLong) × (60000 < length bytes.now)) }
    {
        if 60000 < bytes.len() {
            return Err(Refusal::TextTooLong);
        }
        Ok(Text { bytes })
    }
}

// A line of a text: its first byte, its end, and where the next one starts.
#[derive(Clone, Copy)]
pub(crate) struct Line {
    pub(crate) start: usize,
    pub(crate) end: usize,
    pub(crate) next: usize,
}

// Line k of the text, from 1.
pub(crate) fn line_of(text: &[u8], k: u32) -> Option<Line>
    ensures { Walked text.now k result }
{
    let mut left = k.checked_sub(1)?;
    let mut start: usize = 0;
    for piece in Pieces(text) {
        let end = start + piece.line.len();
        let next = end + piece.end.len();
        if left == 0 {
            return Some(Line { start, end, next });
        }
        left -= 1;
        start = next;
    }
    None
}

// The number that stands after a line's N. A line of wrong form, or of more than 256 bytes, bears none.
ghost use Rattle.std.specs.Prelude.{◌≡◌, ◌≤◌, length};
ghost use Rattle.grammar.specs.Derivation.{ByForm};
ghost use Rattle.grammar.proofs.Trees.{items_t, label_t, line_t};
ghost use Rattle.reader.specs.Number.{number_on, number_at, number_from};

use super::line::{check_from, label_end};
use super::mark::mark_end;
use super::numbers::digits_from;
use text::prepare;

// The number of the label at a place. Where there is none, what comes after it is not looked at.
fn labelled(text: &[u8], at: usize) -> Option<u32>
    requires { at ≤ length text.now }
    ensures { result ≡ number_from (label_t text.now at) (items_t text.now) }
{
    let end = label_end(text, at).ok()?;
    if end == at {
        return None;
    }
    check_from(text, end).ok()?;
    let digits = digits_from(text, at + 1, 0);
    Some(digits.number as u32)
}

// The number of a prepared line.
fn text_number(text: &[u8]) -> Option<u32>
    ensures { result ≡ number_at (line_t text.now) }
{
    let at = mark_end(text).ok()?;
    labelled(text, at)
}

// The N number of a line of right form and at most 256 bytes.
pub fn line_number(line: &[u8]) -> Option<u32>
    ensures { ByForm line.now (number_on line.now) result }
{
    let mut text = [0u8; 256];
    let n = prepare(line, &mut text)?;
    text_number(&text[..n])
}

// The index of a text, built.
ghost use Rattle.std.specs.Prelude.{◌≡◌, ◌<◌, [], length};
ghost use Rattle.index.specs.Index.{RisingFrom};
ghost use Rattle.index.specs.Update.{added};
ghost use Rattle.index.specs.Space.{Gathered, Builds};

use super::lines::Text;
use super::space::{Entries, search};
use super::{Entry, Place, Refusal};
use reader::line_number;
use texts::Pieces;

// What a line bears, entered unless it is there: an earlier line bears it.
fn note(entries: &mut Entries, number: Option<u32>, place: Place)
    requires { (length entries.old < 2002) × RisingFrom 0 entries.old }
    ensures { entries.new ≡ added number place.line place.start entries.old }
{
    let Some(n) = number else {
        return;
    };
    if let Err(i) = search(entries.held(), n) {
        entries.insert(i, Entry { number: n, place });
    }
}

// Enters what the lines of a text bear, up to one number more than an index may hold.
fn gather(text: Text, entries: &mut Entries)
    requires { entries.old ≡ [] }
    ensures { Gathered text.entry.bytes.now entries.new }
{
    let mut line: u32 = 1;
    let mut start: usize = 0;
    for piece in Pieces(text.bytes) {
        let place = Place {
            line,
            start: start as u32,
        };
        note(entries, line_number(piece.line), place);
        if 2000 < entries.len() {
            return;
        }
        line += 1;
        start += piece.line.len() + piece.end.len();
    }
}

// Builds the index of a text in a space of its own, and hands it over where it is no longer than an index may be.
pub fn build(text: &[u8], index: &mut [u32; 6000]) -> Result<usize, Refusal>
    ensures { Builds text.now index.old result index.new }
{
    let text = Text::new(text)?;
    let mut entries = Entries {
        space: [0; 6006],
        count: 0,
    };
    gather(text, &mut entries);
    entries.hand_over(index)
}

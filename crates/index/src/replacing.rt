// One line of a text replaced by another of equal length, and the index brought up to date by what the two
// lines bear: a number's next line is looked for only where the old line was its first.
ghost use Rattle.std.specs.Prelude.{◌≡◌, ◌||◌, ◌+◌, ◌≤◌, ◌<◌, length, drop, slice_range};
ghost use Rattle.std.proofs.Math.Seq.{paste};
ghost use Rattle.grammar.specs.Bytes.{byte, among};
ghost use Rattle.texts.specs.Ends.{pieces};
ghost use Rattle.texts.proofs.Rightness.{model};
ghost use Rattle.index.specs.Index.{first_from};
ghost use Rattle.index.specs.Held.{held};
ghost use Rattle.index.specs.Update.{seek, moved, entered, brought};
ghost use Rattle.index.specs.Lines.{LineAt, Fitting};
ghost use Rattle.index.specs.Space.{Replaces};

use super::lines::{Line, Text, line_of};
use super::space::{Entries, entry_at, scan};
use super::{Place, Refusal};
use reader::line_number;
use texts::Pieces;

// The first line, from the one that starts here and is line k, that bears n.
fn first_line(text: Text, from: usize, k: u32, n: u32) -> Option<Place>
    requires { (from ≤ length text.bytes.now) × (k ≤ from + 1) }
    ensures { result ≡ first_from model n k from (pieces (drop from text.entry.bytes.now)) }
{
    let mut line = k;
    let mut start = from;
    for piece in Pieces(&text.bytes[from..]) {
        if line_number(piece.line) == Some(n) {
            return Some(Place {
                line,
                start: start as u32,
            });
        }
        line += 1;
        start += piece.line.len() + piece.end.len();
    }
    None
}

// The place of n, one entry after the other.
fn seek(numbers: &[u32], n: u32) -> Option<Place>
    ensures { result ≡ seek n (held numbers.now) }
{
    match scan(numbers, n) {
        Ok(i) => Some(entry_at(numbers, i).place),
        Err(_) => None,
    }
}

// What the old line bears, put right. (The text and what is behind the line, what the two lines bear, the line's number and the
// entries: no two of them travel together any further.)
fn move_old(
    text: Text,
    next: usize,
    old: Option<u32>,
    new: Option<u32>,
    k: u32,
    entries: &mut Entries,
)
    requires { (next ≤ length text.bytes.now) × (k ≤ next) × (length entries.old < 2002) }
    ensures { entries.new ≡ moved model old new k next (pieces (drop next text.entry.bytes.now)) entries.old }
{
    let Some(o) = old else {
        return;
    };
    if new == Some(o) {
        return;
    }
    match seek(entries.held(), o) {
        Some(place) if place.line == k => entries.put(o, first_line(text, next, k + 1, o)),
        _ => {}
    }
}

// What the new line bears, put right.
fn enter_new(new: Option<u32>, k: u32, start: u32, entries: &mut Entries)
    requires { length entries.old < 2002 }
    ensures { entries.new ≡ entered new k start entries.old }
{
    let Some(n) = new else {
        return;
    };
    match seek(entries.held(), n) {
        Some(place) if place.line <= k => {}
        _ => entries.put(n, Some(Place { line: k, start })),
    }
}

// Whether a line holds a line feed or a carriage return.
fn holds_end(line: &[u8]) -> bool
    ensures { result ≡ (among (byte "\n") line.now || among (byte "\r") line.now) }
{
    line.contains(&b'\n') || line.contains(&b'\r')
}

// Line k of the text, where the new line may stand in its place.
fn fitting(text: &[u8], k: u32, line: &[u8]) -> Result<Line, Refusal>
    ensures { Fitting text.now k line.now result }
{
    let old = line_of(text, k).ok_or(Refusal::NoSuchLine)?;
    if line.len() != old.end - old.start || holds_end(line) {
        return Err(Refusal::UnfitLine);
    }
    Ok(old)
}

// The entries of a text, brought up to date for the new line in the place of an old one, line k.
fn update(text: Text, old: Line, k: u32, line: &[u8], entries: &mut Entries)
    requires { LineAt text.bytes.now k old × (length entries.old ≤ 2000) }
    ensures { entries.new ≡ brought model text.entry.bytes.now entries.old k (slice_range text.entry.bytes.now old.start old.end) line.now }
{
    let was = line_number(&text.bytes[old.start..old.end]);
    let is = line_number(line);
    move_old(text, old.next, was, is, k, entries);
    enter_new(is, k, old.start as u32, entries);
}

// The line's bytes, written into the text. One by one: as a copy of a slice they would make the library for C need memmove.
fn write_line(text: &mut [u8], at: usize, line: &[u8])
    requires { at + length line.now ≤ length text.old }
    ensures { text.new ≡ paste text.old at line.now (length line.now) }
{
    for (i, byte) in line.iter().enumerate() {
        text[at + i] = *byte;
    }
}

// Replaces line k, from 1, by another of equal length without a line end, and brings the index up to date. The
// index has `count` entries: C lends the array, and gives the count beside it.
pub fn replace(
    text: &mut [u8],
    index: &mut [u32; 6000],
    count: usize,
    k: u32,
    line: &[u8],
) -> Result<usize, Refusal>
    ensures { Replaces text.old index.old count k line.now result text.new index.new }
{
    let short = Text::new(text)?;
    let old = fitting(short.bytes, k, line)?;
    let mut entries = Entries {
        space: [0; 6006],
        count: 0,
    };
    entries.take_in(&index[..3 * count.min(2000)]);
    update(short, old, k, line, &mut entries);
    let left = entries.hand_over(index)?;
    write_line(text, old.start, line);
    Ok(left)
}

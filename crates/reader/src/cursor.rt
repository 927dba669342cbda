// The line reader: it carries the line it is reading and the place it has reached. Its functions are few
// and thin: the work is `item_at`'s, which takes the bytes and the place as they are. A reader that keeps its
// place within the line, by an invariant, is no plainer there: each answer would hand back three words for
// the one of a place, at each of 24 levels of the stack promised for rs274_line (RS274_STACK).
ghost use Rattle.std.specs.Prelude.{◌≡◌};
ghost use Rattle.reader.specs.Cursor.{reader_at};
ghost use Rattle.reader.specs.Levels.{item_at};

use super::items::{Item, item_at};

#[derive(Clone, Copy)]
pub(crate) struct Reader<'a> {
    pub(crate) line: &'a [u8],
    pub(crate) at: usize,
}

// A reader that has read nothing of the line yet.
fn open<'a>(line: &'a [u8]) -> Reader<'a>
    ensures { result ≡ reader_at line.entry 0 }
{
    Reader { line, at: 0 }
}

// The reader, handed back at another place of its line.
fn moved<'a>(reader: Reader<'a>, at: usize) -> Reader<'a>
    ensures { result ≡ reader_at reader.entry.line at }
{
    Reader {
        line: reader.line,
        at,
    }
}

// The item that stands where the reader is, or the place where its form is wrong.
fn item<'a, 't>(reader: Reader<'a>, table: &'t [i64]) -> Result<Item, usize>
    ensures { result ≡ item_at table.now reader.entry.line.now reader.entry.at }
{
    item_at(reader.line, table, reader.at)
}

// The item that a reader finds at a place of the prepared line. Text and place are plain parameters here,
// so that a loop over the line's items carries no more than the place.
pub(crate) fn item_from(text: &[u8], table: &[i64], at: usize) -> Result<Item, usize>
    ensures { result ≡ item_at table.now text.now at }
{
    item(moved(open(text), at), table)
}

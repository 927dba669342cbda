// Whole texts mended: each line anew, its end kept, into a lent space, and the list into another.
ghost use Rattle.std.specs.Prelude.{◌≡◌, true, [], ◌∷◌, ◌+◌, ◌≤◌, ◌<◌, length};
ghost use Rattle.texts.specs.Ends.{piece};
ghost use Rattle.mend.specs.Text.{Long, Fitting, laid_at, Room, lays_line, LaysLine, enters, enter as entering, standing, RoomFor, Puts, PutsAll, told, leaves_text, MendsText};

use super::line::{Mended, NoSpace, mend_line};
use texts::Pieces;

// What became of a text.
#[derive(Clone, Copy, PartialEq, Eq)]
pub struct Tally {
    // How many bytes of the space are filled.
    pub filled: usize,
    // How many lines the text has.
    pub lines: usize,
    // How many of them are listed, also those for which the list had no room.
    pub listed: usize,
}

// What is listed of a line behind its number: the first byte that differs, from 1, and the repairs as one number; both
// are 0 where the line is unmended: as the list has them, which C lends.
#[derive(Clone, Copy)]
struct Listed {
    byte: usize,
    which: usize,
}

// Where a line's mended bytes end in the space, and what is listed of it, if anything.
#[derive(Clone, Copy)]
struct Noted {
    filled: usize,
    entry: Option<Listed>,
}

// How far a text is put: bytes filled, lines put, lines listed, numbers of the list used.
#[derive(Clone, Copy)]
struct Held {
    filled: usize,
    lines: usize,
    listed: usize,
    used: usize,
}

// How many bytes a line has when it is mended.
fn mended_length(line: &[u8]) -> usize
    ensures { Long line.now result }
{
    let mut space = [0u8; 256];
    // An arm for each answer: in an arm for several the check names nothing to prove by.
    match mend_line(line, &mut space) {
        Ok(Mended::Better { length, .. }) => length,
        Ok(Mended::Already) => line.len(),
        Ok(Mended::Beyond) => line.len(),
        Err(NoSpace) => line.len(),
    }
}

// Whether a text's mended bytes are no more than so many.
fn fits(text: &[u8], room: usize) -> bool
    ensures { Fitting text.now room result }
{
    let mut left = room;
    for piece in Pieces(text) {
        let n = mended_length(piece.line);
        if left < n {
            return false;
        }
        if left - n < piece.end.len() {
            return false;
        }
        left = left - n - piece.end.len();
    }
    true
}

// Bytes or numbers laid into a space from a place on, and the place behind them. One by one: to copy from one lent slice to
// another `copy_from_slice` calls C's `memmove`, which nothing else in the library for C needs.
fn lay<T: Copy>(items: &[T], out: &mut [T], from: usize) -> usize
    requires { from + length items.now ≤ length out.old }
    ensures { (result ≡ from + length items.now) × (out.new ≡ laid_at out.old from items.now) }
{
    for i in 0..items.len() {
        out[from + i] = items[i];
    }
    from + items.len()
}

// A line's mended bytes, or the line as it is, laid from a place on, and what is listed of it.
fn lay_line(line: &[u8], out: &mut [u8], from: usize) -> Noted
    requires { Room line.now from (length out.old) }
    ensures { LaysLine line.now out.old from (lays_line result out.new) }
{
    match mend_line(line, &mut out[from..]) {
        Ok(
            Mended::Better {
                length,
                first,
                repairs,
            },
        ) => Noted {
            filled: from + length,
            entry: Some(Listed {
                byte: first,
                which: repairs.number(),
            }),
        },
        Ok(Mended::Already) => Noted {
            filled: lay(line, out, from),
            entry: None,
        },
        Ok(Mended::Beyond) => Noted {
            filled: lay(line, out, from),
            entry: Some(Listed { byte: 0, which: 0 }),
        },
        Err(NoSpace) => Noted {
            filled: from,
            entry: None,
        },
    }
}

// An entry of the list, where there is room for it, and how many numbers are used then.
fn enter(list: &mut [usize], used: usize, line: usize, entry: Listed) -> usize
    requires { used ≤ length list.old }
    ensures { enters result list.new ≡ entering list.old used (line ∷ entry.byte ∷ entry.which ∷ []) }
{
    if list.len() - used < 3 {
        return used;
    }
    lay(&[line, entry.byte, entry.which], list, used)
}

// One line more is put, with its end. The spaces stay parameters: a struct of both would be taken apart at once, since
// a line is laid into the one and its entry into the other.
fn put_next(line: &[u8], end: &[u8], held: Held, out: &mut [u8], list: &mut [usize]) -> Held
    requires { RoomFor line.now end.now held (length out.old) (length list.old) }
    ensures { Puts (piece line.now end.now) (standing held out.old list.old) (standing result out.new list.new) }
{
    let lines = held.lines + 1;
    let noted = lay_line(line, out, held.filled);
    let filled = lay(end, out, noted.filled);
    match noted.entry {
        Some(entry) => Held {
            filled,
            lines,
            listed: held.listed + 1,
            used: enter(list, held.used, lines, entry),
        },
        None => Held {
            filled,
            lines,
            listed: held.listed,
            used: held.used,
        },
    }
}

// Every line is put, into a space that has room for them.
fn put_lines(text: &[u8], out: &mut [u8], list: &mut [usize]) -> Held
    requires { Fitting text.now (length out.old) true }
    ensures { PutsAll text.now out.old list.old (standing result out.new list.new) }
{
    let mut held = Held {
        filled: 0,
        lines: 0,
        listed: 0,
        used: 0,
    };
    for piece in Pieces(text) {
        held = put_next(piece.line, piece.end, held, out, list);
    }
    held
}

// A whole text mended. Of the list as many whole entries are written as its space has room for, three numbers each: the
// line and the first byte that differs, both from 1, and which of the three repairs, added up; the byte and the
// repairs are 0 where the line is unmended.
pub fn mend(text: &[u8], out: &mut [u8], list: &mut [usize]) -> Result<Tally, NoSpace>
    ensures { MendsText text.now out.old list.old (leaves_text (told result) out.new list.new) }
{
    if !fits(text, out.len()) {
        return Err(NoSpace);
    }
    let held = put_lines(text, out, list);
    Ok(Tally {
        filled: held.filled,
        lines: held.lines,
        listed: held.listed,
    })
}

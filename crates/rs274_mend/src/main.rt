// Mends a program (crate mend), line by line: reads standard input to its end, writes the mended lines to standard
// output, and the list, in words, to standard error.
#![tactic(auto)]

ghost use Rattle.std.specs.Prelude.{◌≡◌, ◌≤◌, length, take};
ghost use Rattle.rs274_mend.specs.Held.{Held, HeldOn};

use std::fmt;
use std::io::Read;
use streams::Failure;

// What is read, up to a line's end; the mended text; and its list. A line may have 65,536 bytes with its end. Each line has a
// byte at least, and is longer by one at most when it is mended: so the space holds all of them, and the list an entry for each.
#[derive(Drop)]
struct Spaces {
    bytes: [u8; 65536],
    out: [u8; 131072],
    list: [usize; 196608],
}

// How many bytes of a line that has not ended are held, and how many lines were mended.
#[derive(Clone, Copy)]
struct Kept {
    held: usize,
    lines: u64,
}

// An entry of the list: the line, the first byte that differs, and which of the three repairs, added up; byte and repairs
// are 0 where the line is unmended.
#[derive(Clone, Copy)]
struct Entry {
    line: u64,
    byte: usize,
    repairs: usize,
}

impl fmt::Display for Entry {
    fn fmt<W: fmt::Write>(&self, f: &mut fmt::Formatter<W>) -> fmt::Result {
        let line = self.line;
        if self.byte == 0 {
            return write!(f, "line {line}: unmended");
        }
        let byte = self.byte;
        let said = repairs_in_words(self.repairs);
        write!(f, "line {line}, byte {byte}: {said}")
    }
}

fn repairs_in_words(repairs: usize) -> &'static str {
    match repairs {
        1 => "line of one % emptied",
        2 => "remark made a comment",
        4 => "nested comments made one",
        _ => "remark made a comment, and nested comments made one",
    }
}

// Says on standard error what failed. Where that cannot be written there is nobody to tell.
fn say_failed(rt: &impl Eprint, what: impl fmt::Display + Drop) {
    let _ = eprintln!(rt; "{what}");
}

// So many entries of the list, of lines that are counted on from those before. A count of lines goes no higher than it can.
fn say_list(rt: &impl Eprint, list: &[usize], listed: usize, before: u64) {
    let (entries, _) = list.as_chunks::<3>();
    for [line, byte, repairs] in entries.iter().take(listed) {
        let entry = Entry {
            line: before.saturating_add(*line as u64),
            byte: *byte,
            repairs: *repairs,
        };
        let _ = eprintln!(rt; "{entry}");
    }
}

// Mends the lines of the bytes up to a place, writes them, and then their list. How many lines are mended by then; or nothing,
// where the program stops, and has said why: at once, since the list follows also where the lines cannot be written.
fn mend_lines(
    rt: &(impl Print + Eprint),
    end: usize,
    before: u64,
    spaces: &mut Spaces,
) -> Option<u64>
    requires { end ≤ length spaces.old.bytes }
    ensures { spaces.new.bytes ≡ spaces.old.bytes }
{
    let Ok(tally) = mend::mend(&spaces.bytes[..end], &mut spaces.out, &mut spaces.list) else {
        say_failed(rt, "rs274: a mended line is too long");
        return None;
    };
    let written = rt.write_all(spaces.out.get(..tally.filled)?);
    if let Err(why) = written {
        say_failed(rt, Failure::CannotWrite(why));
    }
    say_list(rt, &spaces.list, tally.listed, before);
    written.ok()?;
    Some(before.saturating_add(tally.lines as u64))
}

// Of the bytes up to a place, the lines that have ended are mended; the rest comes to the front, also where the program stops, to
// go with what is read next. How many bytes that is, and what `mend_lines` answers.
fn mend_ended(
    rt: &(impl Print + Eprint),
    end: usize,
    lines: u64,
    spaces: &mut Spaces,
) -> (usize, Option<u64>)
    requires { end ≤ length spaces.old.bytes }
    ensures { Held (take end spaces.old.bytes) (take result.0 spaces.new.bytes) }
{
    let ended = mend::ended_lines(&spaces.bytes[..end]);
    let lines = mend_lines(rt, ended, lines, spaces);
    spaces.bytes.copy_within(ended..end, 0);
    (end - ended, lines)
}

// Reads a piece behind what is held, and mends the lines that have ended by then. At the end of the input what is held
// is a line too. A read that fails is no end of the input.
fn pass<R: Read>(
    reader: &mut R,
    rt: &(impl Print + Eprint),
    kept: Kept,
    spaces: &mut Spaces,
) -> Option<Kept>
    ensures { HeldOn (R.remaining reader.old) (R.remaining reader.new) kept.held spaces.old.bytes result spaces.new.bytes }
{
    let held = kept.held;
    if spaces.bytes.len() <= held {
        say_failed(rt, "rs274: a line is too long to be mended");
        return None;
    }
    match streams::next_piece(reader, &mut spaces.bytes[held..]) {
        Ok(0) => {
            let _ = mend_lines(rt, held, kept.lines, spaces);
            None
        }
        Ok(many) => {
            let (held, lines) = mend_ended(rt, held + many, kept.lines, spaces);
            Some(Kept {
                held,
                lines: lines?,
            })
        }
        Err(why) => {
            say_failed(rt, Failure::CannotRead(why));
            None
        }
    }
}

fn mend_input(reader: &mut impl Read, rt: &(impl Print + Eprint), spaces: &mut Spaces) {
    let mut kept = Kept { held: 0, lines: 0 };
    for _ in 0..u64::MAX {
        let Some(next) = pass(reader, rt, kept, spaces) else {
            return;
        };
        kept = next;
    }
}

fn main(rt: HostRuntime) {
    let mut spaces = Spaces {
        bytes: [0; 65536],
        out: [0; 131072],
        list: [0; 196608],
    };
    mend_input(&mut rt.stdin(), &rt, &mut spaces);
}

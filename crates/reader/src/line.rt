// The whole line: what is read is stored in lent spaces, in order.
ghost use Rattle.std.specs.Prelude.{◌≡◌, ◌≤◌, length, Err};
ghost use Rattle.grammar.specs.Derivation.{ByForm};
ghost use Rattle.grammar.proofs.Trees.{items_t, label_t, line_t};
ghost use Rattle.reader.specs.Places.{spelt_to};
ghost use Rattle.reader.specs.Gather.{checked, ended, left_after, left_by_line, tidied, as_typed};
ghost use Rattle.reader.specs.Reading.{left, form_answer, Reads};

use super::answer::{FormError, Read, Unread};
use super::cursor::item_from;
use super::items::{Item, item_end};
use super::mark::{Begun, mark_at, mark_end};
use super::numbers::digits_from;
use super::spaces::Spaces;
use text::{prepare, typed_place};

// The place past N and its one to five digits, where N stands here.
pub(crate) fn label_end(text: &[u8], at: usize) -> Result<usize, usize>
    requires { at ≤ length text.now }
    ensures { result ≡ spelt_to (label_t text.now at) }
{
    if text.len() <= at || text[at] != b'N' {
        return Ok(at);
    }
    let digits = digits_from(text, at + 1, 0);
    if digits.next == at + 1 {
        return Err(digits.next);
    }
    if at + 6 < digits.next {
        return Err(at + 6);
    }
    Ok(digits.next)
}

// Whether the form is right from an item on to the line's end, and if not, where among the prepared bytes it
// is wrong. No `for`: each step goes past a whole item.
pub(crate) fn check_from(text: &[u8], at: usize) -> Result<(), usize>
    requires { at ≤ length text.now }
    ensures { result ≡ checked (items_t text.now at) }
{
    let mut i = at;
    while i < text.len() {
        i = item_end(text, i)?;
    }
    Ok(())
}

// The answer at the end of a line of right form.
fn ended(
    deep: bool,
    stopped: Option<Unread>,
    words: usize,
    settings: usize,
    work: u64,
) -> Result<Read, Unread>
    ensures { result ≡ ended deep stopped words settings work }
{
    if deep {
        return Err(Unread::Deep);
    }
    match stopped {
        Some(why) => Err(why),
        None => Ok(Read {
            words,
            settings,
            work,
        }),
    }
}

// Reads the items from here on, after what the mark left, and stores their words and settings up to the
// first that is refused. The form of those after it, or after one that nests too deep, is read in the same
// loop, so that the compiler puts the items' code into it. No `for`: each step goes past a whole item.
fn gather(
    text: &[u8],
    table: &[i64],
    at: usize,
    begun: Begun,
    spaces: &mut Spaces,
) -> Result<Read, Unread>
    requires { (at ≤ length text.now) × (length text.now ≤ 256) × (begun.work ≤ at) }
    ensures { tidied result spaces.new ≡ left_after table.now begun spaces.old (items_t text.now at) }
{
    let mut words: usize = 0;
    let mut settings: usize = 0;
    let mut work = begun.work;
    let mut deep = begun.deep;
    let mut stopped = begun.stopped;
    let mut i = at;
    loop {
        match item_from(text, table, i) {
            Ok(Item::Word(letter, value, more, next)) => {
                i = next;
                if stopped.is_none() {
                    words = spaces.store_word(words, letter, value);
                    work += more;
                }
            }
            Ok(Item::Setting(parameter, value, more, next)) => {
                i = next;
                if stopped.is_none() {
                    settings = spaces.store_setting(settings, parameter, value);
                    work += more;
                }
            }
            Ok(Item::Comment(next)) => i = next,
            Ok(Item::Stop(why, next)) => {
                i = next;
                stopped = stopped.or(Some(Unread::Refused(why)));
            }
            Ok(Item::Deep(next)) => {
                i = next;
                deep = true;
            }
            Ok(Item::End) => return ended(deep, stopped, words, settings, work),
            Err(p) => return Err(Unread::Wrong(p)),
        }
    }
}

// A prepared line, stored likewise.
fn read_text(text: &[u8], table: &[i64], spaces: &mut Spaces) -> Result<Read, Unread>
    requires { length text.now ≤ 256 }
    ensures { tidied result spaces.new ≡ left_by_line table.now (line_t text.now) spaces.old }
{
    match mark_at(text, table) {
        Ok((begun, p)) => match label_end(text, p) {
            Ok(q) => gather(text, table, q, begun, spaces),
            Err(q) => Err(Unread::Wrong(q)),
        },
        Err(p) => Err(Unread::Wrong(p)),
    }
}

// Why a line is not read, with the place of a wrong form in the line as typed. Nothing of a line of wrong form,
// or of too deep a nesting, is left to be taken for a word or a setting.
fn unread(line: &[u8], why: Unread, spaces: &mut Spaces) -> Unread
    ensures { left (Err result) spaces.new ≡ as_typed line.now (tidied (Err why) spaces.old) }
{
    match why {
        Unread::Wrong(p) => {
            spaces.clear();
            Unread::Wrong(typed_place(line, p))
        }
        Unread::Deep => {
            spaces.clear();
            why
        }
        Unread::Refused(_) | Unread::Skipped | Unread::TooLong => why,
    }
}

// Reads a line: its words' letters and values, and its settings' parameter numbers and values, are
// stored from the front of the lent spaces, in order. Values are worked out from the table as it is.
pub fn read(line: &[u8], table: &[i64], spaces: &mut Spaces) -> Result<Read, Unread>
    ensures { Reads line.now table.now spaces.old result spaces.new }
{
    let mut text = [0u8; 256];
    let n = prepare(line, &mut text).ok_or(Unread::TooLong)?;
    match read_text(&text[..n], table, spaces) {
        Ok(read) => Ok(read),
        Err(why) => Err(unread(line, why, spaces)),
    }
}

// The form of a prepared line. Nothing is worked out, so no table is asked for.
fn check_text(text: &[u8]) -> Result<(), usize>
    ensures { result ≡ checked (line_t text.now) }
{
    let p = mark_end(text)?;
    let q = label_end(text, p)?;
    check_from(text, q)
}

// The form check. Nothing is worked out.
pub fn form(line: &[u8]) -> Result<(), FormError>
    ensures { ByForm line.now (form_answer line.now) result }
{
    let mut text = [0u8; 256];
    let n = prepare(line, &mut text).ok_or(FormError::TooLong)?;
    match check_text(&text[..n]) {
        Ok(()) => Ok(()),
        Err(p) => Err(FormError::BreaksAt(typed_place(line, p))),
    }
}

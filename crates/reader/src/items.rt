// The items of a prepared line, one at a time and by value: nothing is stored here.
ghost use Rattle.std.specs.Prelude.{◌≡◌, ◌≤◌, ◌<◌, length};
ghost use Rattle.grammar.specs.Grammar.{remark};
ghost use Rattle.grammar.proofs.Trees.{setting_t, comment_t, item_t};
ghost use Rattle.reader.specs.Places.{spelt_to, remarks_end};
ghost use Rattle.reader.specs.Levels.{amount_t, of_item, item_at, word_item, valueless, set_by, setting_item};

use super::passage::pass_value;
use super::spelling::keyword;
use super::values::{Came, NoValue, value_at};
use rules::{Refusal, Value, Worked};
use text::bytes::is_letter;

// One item, each with the place past it: a word's letter, value and work; a setting's parameter number,
// value and work; a comment; an item of right form that is refused, with number 5 to 7; or one of right
// form that nests too deep. Or the line's end.
#[derive(Clone, Copy)]
pub(crate) enum Item {
    Word(u8, Value, u64, usize),
    Setting(usize, Value, u64, usize),
    Comment(usize),
    Stop(Refusal, usize),
    Deep(usize),
    End,
}

// Whether a byte may stand inside a comment. One test of a range tells it for most.
fn is_remark(b: u8) -> bool
    ensures { result ≡ remark b }
{
    if b')' < b && b <= 126 {
        return true;
    }
    matches!(b, b'\t' | 32..=b'\'')
}

fn word_item(letter: u8, value: Came) -> Item
    ensures { result ≡ word_item letter value }
{
    match value.worked {
        Ok(v) => Item::Word(letter, v, value.work, value.next),
        Err(why) => Item::Stop(why, value.next),
    }
}

// An item whose value is not worked out: one that nests too deep, or the place where its form is wrong.
fn valueless(why: NoValue) -> Result<Item, usize>
    ensures { result ≡ valueless why }
{
    match why {
        NoValue::Deep(next) => Ok(Item::Deep(next)),
        NoValue::Wrong(p) => Err(p),
    }
}

// The parameter number is judged before the value: it was worked out first.
fn set_by(number: Worked, amount: Worked) -> Result<(usize, Value), Refusal>
    ensures { result ≡ set_by number amount }
{
    let parameter = value::parameter(number?).ok_or(Refusal::NoParameter)?;
    Ok((parameter, amount?))
}

fn setting_item(number: Worked, amount: Worked, work: u64, next: usize) -> Item
    ensures { result ≡ setting_item number amount work next }
{
    match set_by(number, amount) {
        Ok((parameter, v)) => Item::Setting(parameter, v, work, next),
        Err(why) => Item::Stop(why, next),
    }
}

// Past `=` and a setting's value.
fn amount_end(text: &[u8], at: usize) -> Result<usize, usize>
    requires { at ≤ length text.now }
    ensures { result ≡ spelt_to (amount_t text.now at) }
{
    pass_value(text, keyword(text, at, b"=")?)
}

// A setting after its `#`. That `#` is no part of what nests in its two values.
fn setting_at(text: &[u8], table: &[i64], at: usize) -> Result<Item, usize>
    requires { at ≤ length text.now }
    ensures { result ≡ of_item table.now 24 (setting_t text.now at) }
{
    match value_at(text, table, at) {
        Ok(number) => {
            let q = keyword(text, number.next, b"=")?;
            match value_at(text, table, q) {
                Ok(amount) => Ok(setting_item(
                    number.worked,
                    amount.worked,
                    number.work + amount.work,
                    amount.next,
                )),
                Err(why) => valueless(why),
            }
        }
        Err(NoValue::Deep(p)) => Ok(Item::Deep(amount_end(text, p)?)),
        Err(NoValue::Wrong(p)) => Err(p),
    }
}

// The place of the first byte that may not stand inside a comment.
fn remarks_end(text: &[u8], at: usize) -> usize
    requires { at ≤ length text.now }
    ensures { result ≡ remarks_end text.now at }
{
    for i in at..text.len() {
        if !is_remark(text[i]) {
            return i;
        }
    }
    text.len()
}

// The place past a comment, after its `(`.
fn comment_end(text: &[u8], at: usize) -> Result<usize, usize>
    requires { at ≤ length text.now }
    ensures { result ≡ spelt_to (comment_t text.now at) }
{
    keyword(text, remarks_end(text, at), b")")
}

// The item that stands at a place of the prepared line, or the place where its form is wrong.
pub(crate) fn item_at(text: &[u8], table: &[i64], at: usize) -> Result<Item, usize>
    ensures { result ≡ item_at table.now text.now at }
{
    if text.len() <= at {
        return Ok(Item::End);
    }
    let b = text[at];
    if is_letter(b) {
        return match value_at(text, table, at + 1) {
            Ok(value) => Ok(word_item(b, value)),
            Err(why) => valueless(why),
        };
    }
    match b {
        b'#' => setting_at(text, table, at + 1),
        b'(' => Ok(Item::Comment(comment_end(text, at + 1)?)),
        _ => Err(at),
    }
}

// The place past a setting, after its `#`: its form alone.
fn setting_end(text: &[u8], at: usize) -> Result<usize, usize>
    requires { at ≤ length text.now }
    ensures { result ≡ spelt_to (setting_t text.now at) }
{
    amount_end(text, pass_value(text, at)?)
}

// The place past the item at a place: its form alone.
pub(crate) fn item_end(text: &[u8], at: usize) -> Result<usize, usize>
    requires { at < length text.now }
    ensures { result ≡ spelt_to (item_t text.now at) }
{
    let b = text[at];
    if is_letter(b) {
        return pass_value(text, at + 1);
    }
    match b {
        b'#' => setting_end(text, at + 1),
        b'(' => comment_end(text, at + 1),
        _ => Err(at),
    }
}

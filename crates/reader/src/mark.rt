// The mark that may stand first on a line, `/` or `\`, and its condition. The condition is worked out
// before all else on the line, from the table as it is.
ghost use Rattle.std.specs.Prelude.{◌≡◌, drop};
ghost use Rattle.grammar.proofs.Trees.{mark_t};
ghost use Rattle.rules.specs.Meaning.{runs, condition_of};
ghost use Rattle.reader.specs.Places.{spelt_to};
ghost use Rattle.reader.specs.Marks.{stroke_of, first_of, after_stroke, goes_on, stops_with, nests_deep, begun_by, of_mark};

use super::answer::Unread;
use super::passage::pass_value;
use super::values::{NoValue, value_at};
use rules::{Value, Worked};

// What stands first: no mark, a plain one, or one with a condition, and whether that one is `/`. These are
// three cases of one rank, so no Option.
#[derive(Clone, Copy)]
enum First {
    Unmarked,
    Plain,
    Condition(bool),
}

// What the mark leaves to the reading of the items: the work of its condition, whether that nests too
// deep, and why it stops the line, where it does. Too deep a nesting stands apart: it comes before every other reason, whichever
// is met first.
#[derive(Clone, Copy)]
pub(crate) struct Begun {
    pub(crate) work: u64,
    pub(crate) deep: bool,
    pub(crate) stopped: Option<Unread>,
}

// A mark bears a condition where a bracket opens directly after it.
fn first_of(text: &[u8]) -> First
    ensures { result ≡ first_of text.now }
{
    match text {
        [b'/', b'[', ..] => First::Condition(true),
        [b'\\', b'[', ..] => First::Condition(false),
        [b'/' | b'\\', ..] => First::Plain,
        _ => First::Unmarked,
    }
}

// The line goes on, after so much work.
fn goes_on(work: u64) -> Begun
    ensures { result ≡ goes_on work }
{
    Begun {
        work,
        deep: false,
        stopped: None,
    }
}

fn stops_with(why: Unread) -> Begun
    ensures { result ≡ stops_with why }
{
    Begun {
        work: 0,
        deep: false,
        stopped: Some(why),
    }
}

fn nests_deep() -> Begun
    ensures { result ≡ nests_deep }
{
    Begun {
        work: 0,
        deep: true,
        stopped: None,
    }
}

// `/` runs the line where its condition is not zero, `\` where it is. At most 0.0001 from zero is zero.
fn runs(slash: bool, came: Value) -> bool
    ensures { result ≡ runs (stroke_of slash) came.0 }
{
    if value::size_of(came.0) <= 1 {
        return !slash;
    }
    slash
}

// A condition that says no skips the line; one that is refused has it refused.
fn condition(slash: bool, came: Worked, work: u64) -> Begun
    ensures { result ≡ begun_by (condition_of (stroke_of slash) came) work }
{
    match came {
        Ok(v) => {
            if runs(slash, v) {
                return goes_on(work);
            }
            stops_with(Unread::Skipped)
        }
        Err(why) => stops_with(Unread::Refused(why)),
    }
}

// The mark of a line and its condition: what it leaves and the place past it, or the place where its form is
// wrong. The condition is read as its bracket would be that stood for a value: that nests as deep, and is one
// value more to work out than a condition is.
pub(crate) fn mark_at(text: &[u8], table: &[i64]) -> Result<(Begun, usize), usize>
    ensures { result ≡ of_mark table.now (mark_t text.now) }
{
    match first_of(text) {
        First::Unmarked => Ok((goes_on(0), 0)),
        First::Plain => Ok((goes_on(0), 1)),
        First::Condition(slash) => match value_at(text, table, 1) {
            Ok(came) => Ok((condition(slash, came.worked, came.work - 1), came.next)),
            Err(NoValue::Deep(p)) => Ok((nests_deep(), p)),
            Err(NoValue::Wrong(p)) => Err(p),
        },
    }
}

// The place past the mark of a line, or where its form is wrong: its form alone.
pub(crate) fn mark_end(text: &[u8]) -> Result<usize, usize>
    ensures { result ≡ spelt_to (mark_t text.now) }
{
    match first_of(text) {
        First::Unmarked => Ok(0),
        First::Plain => Ok(1),
        First::Condition(_) => pass_value(text, 1),
    }
}

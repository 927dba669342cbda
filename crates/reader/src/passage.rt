// Form alone, in a loop: what stands from a place on, with nothing worked out. A value in a value is no
// call here: one number, that of the brackets still open, and whether a value is due or done say all
// that is left to come, so that the stack is the same whatever the line.
ghost use Rattle.std.specs.Prelude.{◌≡◌, true, false, ◌≤◌, ◌<◌, length};
ghost use Rattle.grammar.proofs.Trees.{value_t, rest_t};
ghost use Rattle.reader.specs.Passage.{onward, StepOf};
ghost use Rattle.reader.specs.Places.{spelt_to};

use super::numbers::{number_at, opens_number};
use super::spelling::{Following, Opening, following_at, opening_at};

// A place on the way: whether a value is due there or one is done, and how many brackets are open.
#[derive(Clone, Copy)]
pub(crate) struct Way {
    pub(crate) at: usize,
    pub(crate) due: bool,
    pub(crate) brackets: usize,
}

// The step from a place where a value is due, or the place where its form is wrong.
fn due_step(text: &[u8], at: usize, brackets: usize) -> Result<Way, usize>
    requires at_in_bounds { at ≤ length text.now }
    requires brackets_le_at { brackets ≤ at }
    ensures { StepOf text.now (record { at = at; due = true; brackets = brackets }) result }
{
    if opens_number(text, at) {
        let (_, next) = number_at(text, at)?;
        return Ok(Way {
            at: next,
            due: false,
            brackets,
        });
    }
    let (opening, next) = opening_at(text, at)?;
    match opening {
        Opening::Parameter => Ok(Way {
            at: next,
            due: true,
            brackets,
        }),
        Opening::Bracket | Opening::Function(_) => Ok(Way {
            at: next,
            due: true,
            brackets: brackets + 1,
        }),
    }
}

// The step from a place where a value is done and a bracket is open, or the place where its form is wrong.
fn done_step(text: &[u8], at: usize, brackets: usize) -> Result<Way, usize>
    requires at_in_bounds { at ≤ length text.now }
    requires brackets_le_at { brackets ≤ at }
    requires open { 0 < brackets }
    ensures { StepOf text.now (record { at = at; due = false; brackets = brackets }) result }
{
    let (following, next) = following_at(text, at)?;
    match following {
        Following::Close => Ok(Way {
            at: next,
            due: false,
            brackets: brackets - 1,
        }),
        Following::Operator(_) => Ok(Way {
            at: next,
            due: true,
            brackets,
        }),
    }
}

// The place past all that is still to come on a way, or the first wrong one. With no value due and no
// bracket open, all is passed. No `for`: each step goes past a whole value.
pub(crate) fn pass_from(text: &[u8], way: Way) -> Result<usize, usize>
    requires at_in_bounds { way.at ≤ length text.now }
    requires brackets_le_at { way.brackets ≤ way.at }
    ensures { result ≡ spelt_to (onward text.now way) }
{
    let mut now = way;
    loop {
        if now.due {
            now = due_step(text, now.at, now.brackets)?;
        } else if now.brackets == 0 {
            return Ok(now.at);
        } else {
            now = done_step(text, now.at, now.brackets)?;
        }
    }
}

// The place past a value, or where its form is wrong.
pub(crate) fn pass_value(text: &[u8], at: usize) -> Result<usize, usize>
    requires { at ≤ length text.now }
    ensures { result ≡ spelt_to (value_t text.now at) }
{
    pass_from(
        text,
        Way {
            at,
            due: true,
            brackets: 0,
        },
    )
}

// The place past the rest of an expression, its `]` too, or where its form is wrong.
pub(crate) fn pass_rest(text: &[u8], at: usize) -> Result<usize, usize>
    requires at_in_bounds { at ≤ length text.now }
    requires at_nonzero { 0 < at }
    ensures { result ≡ spelt_to (rest_t text.now at) }
{
    pass_from(
        text,
        Way {
            at,
            due: false,
            brackets: 1,
        },
    )
}

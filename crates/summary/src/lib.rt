// The summary of a line's words, in one pass: its words by letter, its codes by group, and what numbers 8 and 9 ask of them.
#![tactic(auto)]

mod filing;
mod words;

ghost use Rattle.std.specs.Prelude.{◌≡◌, length, take};
ghost use Rattle.summary.specs.Words.{said, lettered, summary_of};

use filing::Filed;
use rules::Block;
use text::bytes::is_letter;

// What numbers 8 and 9 ask is beside the block: a code is not served; something stands twice. Two answers and no
// `Result`, since the ordered list asks them one by one.
#[derive(Clone, Copy)]
pub struct Summary {
    pub block: Block,
    pub unserved: bool,
    pub doubled: bool,
}

// The first `count` places of the two slices hold the words (side by side, as the lent spaces of crate `reader` have them). A word of a letter that no line gives is passed over.
pub fn summarize(letters: &[u8], values: &[i64], count: usize) -> Summary
    ensures { result ≡ summary_of (lettered (said (take count letters.now) (take count values.now))) }
{
    let number = count.min(letters.len()).min(values.len());
    one_pass(&letters[..number], &values[..number])
}

// Each word is looked at once, and each code's group is looked up once: the first word of a key is kept.
fn one_pass(letters: &[u8], values: &[i64]) -> Summary
    requires { length letters.now ≡ length values.now }
    ensures { result ≡ summary_of (lettered (said letters.now values.now)) }
{
    let mut filed = Filed {
        mask: 0,
        held: [0; 64],
    };
    let mut number: usize = 0;
    for i in 0..letters.len() {
        if is_letter(letters[i]) {
            filed.keep(words::entry_of(letters[i], values[i]));
            number += 1;
        }
    }
    filed.summary(number)
}

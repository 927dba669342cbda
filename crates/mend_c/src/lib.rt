// What a firmware links to mend old programs: a whole text into lent spaces, and the list of what was done.
// include/rs274_mend.h declares it for C.
#![tactic(auto)]

ghost use Rattle.std.specs.Prelude.{◌≡◌};
ghost use Rattle.mend.specs.Text.{told, leaves_text, MendsText};
ghost use Rattle.mend_c.specs.Tally.{counted};

use mend::NoSpace;

// What became of a text, as C has it.
#[repr(C)]
#[derive(Clone, Copy)]
pub struct Tally {
    // 0, or 40 where the space is too small for the mended text: then nothing is written, and the rest is 0.
    pub number: u32,
    // How many bytes of the space are filled.
    pub filled: usize,
    // How many lines the text has.
    pub lines: usize,
    // How many of them are listed, also those for which the list had no room.
    pub listed: usize,
}

// The same as numbers.
fn numbers(mended: Result<mend::Tally, NoSpace>) -> Tally
    ensures { counted result ≡ told mended }
{
    match mended {
        Ok(tally) => Tally {
            number: 0,
            filled: tally.filled,
            lines: tally.lines,
            listed: tally.listed,
        },
        Err(NoSpace) => Tally {
            number: 40,
            filled: 0,
            lines: 0,
            listed: 0,
        },
    }
}

// Mends a text, as `mend::mend` does.
#[unsafe(no_mangle)]
pub extern "C" fn rs274_mend(text: &[u8], out: &mut [u8], list: &mut [usize]) -> Tally
    ensures { MendsText text.now out.old list.old (leaves_text (counted result) out.new list.new) }
{
    numbers(mend::mend(text, out, list))
}

// What is told of a line: what was read of it, or why it is not read.
use rules::Refusal;

// So many words and so many settings are stored, and so much work it was.
#[derive(Clone, Copy)]
pub struct Read {
    pub words: usize,
    pub settings: usize,
    pub work: u64,
}

// Why a line is not read.
#[derive(Clone, Copy)]
pub enum Unread {
    // Its form is right, but a value of it is refused: the first in working order, with number 5 to 7.
    Refused(Refusal),
    // Its condition says no.
    Skipped,
    // Its form is right, but some value of it nests deeper than 24; the lent spaces hold zeros.
    Deep,
    // It has no derivation. The place in the line, as typed, at which its form breaks; the lent spaces
    // hold zeros.
    Wrong(usize),
    // It has more than 256 bytes.
    TooLong,
}

// Why the form of a line is not right.
#[derive(Clone, Copy)]
pub enum FormError {
    // It has more than 256 bytes.
    TooLong,
    // It has no derivation. The place in the line, as typed, at which its form breaks.
    BreaksAt(usize),
}

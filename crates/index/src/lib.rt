// The index of N numbers (request 10): what a number's place is. The entries of an index lie in the front of an
// array, in rising order of their N numbers, three numbers each: the N number, its first line, from 1, and that line's
// first byte, from 0.
#![tactic(auto)]

mod building;
mod lines;
mod replacing;
mod space;

ghost use Rattle.std.specs.Prelude.{◌≡◌, min};
ghost use Rattle.index.specs.Held.{kept, sought};

pub use building::build;
pub use replacing::replace;
use space::{entry_at, search};

// A line, from 1, and that line's first byte, from 0. Laid out as C lays it out, so that a control can hand it on to C.
#[repr(C)]
#[derive(Clone, Copy, PartialEq, Eq)]
pub struct Place {
    pub line: u32,
    pub start: u32,
}

// An N number and the place of the first line that bears it, laid out likewise.
#[repr(C)]
#[derive(Clone, Copy, PartialEq, Eq)]
pub struct Entry {
    pub number: u32,
    pub place: Place,
}

// Why a text or a replacement is refused; text and index are then as they were.
#[derive(Clone, Copy, PartialEq, Eq)]
pub enum Refusal {
    TextTooLong,
    TooManyNumbers,
    NoSuchLine,
    // It has another length, or holds a line end.
    UnfitLine,
}

// "Asking for a number gives that place, or `none`". A search that halves, since an index rises. The index has
// `count` entries.
pub fn find(index: &[u32; 6000], count: usize, n: u32) -> Option<Place>
    ensures { result ≡ sought (kept index.now (min count 2000)) n }
{
    let numbers = &index[..3 * count.min(2000)];
    match search(numbers, n) {
        Ok(i) => Some(entry_at(numbers, i).place),
        Err(_) => None,
    }
}

// What a firmware links to find a line by its N number: the index of a program text, on plain numbers.
// include/rs274_index.h declares it for C.
#![tactic(auto)]

ghost use Rattle.std.specs.Prelude.{◌≡◌, min};
ghost use Rattle.index.specs.Index.{refusal_number};
ghost use Rattle.index.specs.Held.{kept, sought};
ghost use Rattle.lookup.specs.Plain.{answered, placed, Built, Replaced};

use index::{Place, Refusal};

// 0 and how many entries the index has now; or the number of a refusal, and 0.
#[repr(C)]
#[derive(Clone, Copy)]
pub struct Rs274Indexed {
    pub number: u32,
    pub count: u64,
}

// A number's first line, from 1, and that line's first byte, from 0; or 0 and 0 where no line bears it.
#[repr(C)]
#[derive(Clone, Copy)]
pub struct Rs274Place {
    pub line: u32,
    pub start: u32,
}

fn refusal_number(refusal: Refusal) -> u32
    ensures { result ≡ refusal_number refusal }
{
    match refusal {
        Refusal::TextTooLong => 30,
        Refusal::TooManyNumbers => 31,
        Refusal::NoSuchLine => 32,
        Refusal::UnfitLine => 33,
    }
}

impl From<Result<usize, Refusal>> for Rs274Indexed {
    ghost from_gives = { λ x y. y ≡ answered x };

    fn from(answer: Result<usize, Refusal>) -> Rs274Indexed {
        match answer {
            Ok(count) => Rs274Indexed {
                number: 0,
                count: count as u64,
            },
            Err(refusal) => Rs274Indexed {
                number: refusal_number(refusal),
                count: 0,
            },
        }
    }
}

impl From<Option<Place>> for Rs274Place {
    ghost from_gives = { λ x y. y ≡ placed x };

    fn from(found: Option<Place>) -> Rs274Place {
        match found {
            Some(Place { line, start }) => Rs274Place { line, start },
            None => Rs274Place { line: 0, start: 0 },
        }
    }
}

// Builds the index of a text.
#[unsafe(no_mangle)]
pub extern "C" fn rs274_index_build(text: &[u8], entries: &mut [u32; 6000]) -> Rs274Indexed
    ensures { Built text.now entries.old result entries.new }
{
    Rs274Indexed::from(index::build(text, entries))
}

// The place of a number, in an index of so many entries.
#[unsafe(no_mangle)]
pub extern "C" fn rs274_index_find(entries: &[u32; 6000], count: usize, n: u32) -> Rs274Place
    ensures { result ≡ placed (sought (kept entries.now (min count 2000)) n) }
{
    Rs274Place::from(index::find(entries, count, n))
}

// Replaces line k of a text, and brings its index, of so many entries, up to date.
#[unsafe(no_mangle)]
pub extern "C" fn rs274_index_replace(
    text: &mut [u8],
    entries: &mut [u32; 6000],
    count: usize,
    k: u32,
    line: &[u8],
) -> Rs274Indexed
    ensures { Replaced text.old entries.old count k line.now result text.new entries.new }
{
    Rs274Indexed::from(index::replace(text, entries, count, k, line))
}

// The numbers of an index, three an entry: asked for a number, whatever they are, and an entry put in, put right or taken out.
ghost use Rattle.std.specs.Prelude.{◌≡◌, List, ◌≤◌, ◌<◌, length, slice_set};
ghost use Rattle.std.specs.List.{insert, remove};
ghost use Rattle.index.specs.Index.{put};
ghost use Rattle.index.specs.Held.{held, kept, flat, nth, before, spot, searched, answer_of, handed};
ghost use Rattle.index.specs.declared.Entry.{Entry};

use super::{Entry, Place, Refusal};
use std::marker::Model;

// How many entries these numbers are.
#[tactic(auto, using(crate::proofs::Numbers::held_long))]
fn count_in(numbers: &[u32]) -> usize
    ensures { result ≡ length (held numbers.now) }
{
    numbers.len() / 3
}

// Entry i of these numbers, from 0.
#[tactic(auto, using(crate::proofs::Numbers::held_long))]
pub(crate) fn entry_at(numbers: &[u32], i: usize) -> Entry
    requires { i < length (held numbers.now) }
    ensures { result ≡ nth (held numbers.now) i }
{
    Entry {
        number: numbers[3 * i],
        place: Place {
            line: numbers[3 * i + 1],
            start: numbers[3 * i + 2],
        },
    }
}

// How many of the entries have a number below n, by halving, where they rise. The loop is written out, since
// `find` answers as `searched` says on any entries, and the binary search of std on those alone that are sorted.
fn first_from(numbers: &[u32], n: u32) -> usize
    ensures { result ≡ searched (held numbers.now) n }
{
    let mut low: usize = 0;
    let mut high: usize = count_in(numbers);
    while low < high {
        let middle = low + (high - low) / 2;
        if entry_at(numbers, middle).number < n {
            low = middle + 1;
        } else {
            high = middle;
        }
    }
    low
}

// How many entries come before the first whose number is not below n, one by one: the entries need not rise.
fn below(numbers: &[u32], n: u32) -> usize
    ensures { result ≡ before n (held numbers.now) }
{
    let count = count_in(numbers);
    for i in 0..count {
        if n <= entry_at(numbers, i).number {
            return i;
        }
    }
    count
}

// The entry i, where it has the number n; or that n's would be put in there.
fn spot(numbers: &[u32], i: usize, n: u32) -> Result<usize, usize>
    ensures { result ≡ spot (held numbers.now) i n }
{
    if i < count_in(numbers) && entry_at(numbers, i).number == n {
        return Ok(i);
    }
    Err(i)
}

// n's entry, or where it would be put in: by halving, where the entries rise; and one by one.
pub(crate) fn search(numbers: &[u32], n: u32) -> Result<usize, usize>
    ensures { result ≡ spot (held numbers.now) (searched (held numbers.now) n) n }
{
    spot(numbers, first_from(numbers, n), n)
}

pub(crate) fn scan(numbers: &[u32], n: u32) -> Result<usize, usize>
    ensures { result ≡ spot (held numbers.now) (before n (held numbers.now)) n }
{
    spot(numbers, below(numbers, n), n)
}

// Entries that change: those of an index, and room for the two that a replacement may bring in before it is refused.
// They lie there as in an index, three numbers each, and are moved and handed over as numbers.
// Each call writes its literal out: handed over by a function, the space would lie on the stack twice.
#[derive(Drop)]
pub(crate) struct Entries {
    pub(crate) space: [u32; 6006],
    pub(crate) count: usize,
}

impl Model for Entries {
    ghost Value = { List Entry };

    ghost view = { λ s. kept s.space s.count };

    ghost invariant = { λ s. s.count ≤ 2002 };
}

impl Entries {
    // The entries of these numbers, in the place of what there is.
    #[tactic(auto, using(crate::proofs::Numbers::held_long))]
    pub(crate) fn take_in(&mut self, numbers: &[u32])
        requires { length numbers.now ≤ 6006 }
        ensures { self.new ≡ held numbers.now }
    {
        self.space[..numbers.len()].copy_from_slice(numbers);
        self.count = count_in(numbers);
    }

    #[tactic(auto, using(crate::proofs::Numbers::kept_long))]
    pub(crate) fn len(&self) -> usize
        ensures { result ≡ length self.now }
    {
        self.count
    }

    #[tactic(auto, using(crate::proofs::Numbers::kept_long))]
    pub(crate) fn held(&self) -> &[u32]
        ensures entries { held result.now ≡ self.now }
        ensures numbers { result.now ≡ flat self.now }
    {
        &self.space[..3 * self.count]
    }

    #[tactic(auto, using(crate::proofs::Numbers::kept_long))]
    pub(crate) fn insert(&mut self, i: usize, entry: Entry)
        requires { (i ≤ length self.old) × (length self.old < 2002) }
        ensures { self.new ≡ insert self.old i entry }
    {
        self.space.copy_within(3 * i..3 * self.count, 3 * i + 3);
        self.count += 1;
        self.write(i, entry);
    }

    #[tactic(auto, using(crate::proofs::Numbers::kept_long))]
    fn remove(&mut self, i: usize)
        requires { i < length self.old }
        ensures { self.new ≡ remove self.old i }
    {
        self.space.copy_within(3 * i + 3..3 * self.count, 3 * i);
        self.count -= 1;
    }

    #[tactic(auto, using(crate::proofs::Numbers::kept_long))]
    fn write(&mut self, i: usize, entry: Entry)
        requires { i < length self.old }
        ensures { self.new ≡ slice_set self.old i entry }
    {
        let space = &mut self.space;
        space[3 * i] = entry.number;
        space[3 * i + 1] = entry.place.line;
        space[3 * i + 2] = entry.place.start;
    }

    // The place of n put right.
    pub(crate) fn put(&mut self, n: u32, place: Option<Place>)
        requires { length self.old < 2002 }
        ensures { self.new ≡ put n place self.old }
    {
        match (scan(self.held(), n), place) {
            (Ok(i), Some(place)) => self.write(i, Entry { number: n, place }),
            (Ok(i), None) => self.remove(i),
            (Err(i), Some(place)) => self.insert(i, Entry { number: n, place }),
            (Err(_), None) => {}
        }
    }

    // Puts the entries into the front of an index, and tells how many they are, unless they are more than it may have.
    #[tactic(auto, using(crate::proofs::Numbers::flat_long))]
    pub(crate) fn hand_over(&self, index: &mut [u32; 6000]) -> Result<usize, Refusal>
        ensures answer { result ≡ answer_of self.now }
        ensures index { index.new ≡ handed self.now index.old }
    {
        let count = self.len();
        if 2000 < count {
            return Err(Refusal::TooManyNumbers);
        }
        index[..3 * count].copy_from_slice(self.held());
        Ok(count)
    }
}

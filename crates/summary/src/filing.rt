// Words filed by their keys, and their summary.
ghost use Rattle.std.specs.Prelude.{◌≡◌, ◌%◌, ◌<◌, ◌≤◌, ltb, count_ones};
ghost use Rattle.summary.specs.Keys.{keep, seen, slot, code_in, CodesIn, block_by, summary_by};

use super::Summary;
use super::words::Entry;
use rules::{Block, Value};

// The keys seen are bits of a mask, and the value of each key's first word is held at the key.
#[derive(Drop)]
pub(crate) struct Filed {
    pub(crate) mask: u64,
    pub(crate) held: [i64; 64],
}

impl Filed {
    // Of two words of one key the first is kept.
    pub(crate) fn keep(&mut self, entry: Entry)
        requires { entry.key < 64 }
        ensures { self.new ≡ keep self.old entry }
    {
        if !self.has(entry.key) {
            self.held[entry.key as usize] = entry.value;
        }
        self.mask |= 1u64 << entry.key;
    }

    fn has(&self, key: u8) -> bool
        requires { key < 64 }
        ensures { result ≡ seen self.now.mask key }
    {
        (self.mask >> key) % 2 == 1
    }

    // The word of a letter.
    fn word(&self, letter: u8) -> Option<Value>
        requires { letter < 128 }
        ensures { result ≡ slot self.now (letter % 32) }
    {
        let key = letter % 32;
        if self.has(key) {
            return Some(Value(self.held[key as usize]));
        }
        None
    }

    // The code of a group, at the group's key. (`CodesIn` stays a clause, since `keep` takes any entry.)
    fn code(&self, key: u8) -> Option<u16>
        requires le_key { 32 ≤ key }
        requires key_bound { key < 64 }
        requires codes_in { CodesIn self.now }
        ensures { result ≡ code_in (slot self.now key) }
    {
        if self.has(key) {
            return Some(self.held[key as usize] as u16);
        }
        None
    }

    fn block(&self) -> Block
        requires { CodesIn self.now }
        ensures { result ≡ block_by (slot self.now) }
    {
        Block {
            axes: [self.word(b'X'), self.word(b'Y'), self.word(b'Z')],
            offsets: [self.word(b'I'), self.word(b'J'), self.word(b'K')],
            f: self.word(b'F'),
            s: self.word(b'S'),
            t: self.word(b'T'),
            l: self.word(b'L'),
            p: self.word(b'P'),
            once: self.code(32),
            motion: self.code(33),
            plane: self.code(34),
            distance: self.code(35),
            units: self.code(38),
            system: self.code(44),
            stop: self.code(52),
            change: self.code(54),
            spindle: self.code(55),
            coolant: self.code(56),
        }
    }

    // The summary of the words that were filed. Number 8: 47 and 63 are the keys of G and M codes that are not served.
    // Number 9: there are fewer keys than words, or G0 to G3 stands beside G10 or G92.
    pub(crate) fn summary(&self, words: usize) -> Summary
        requires { CodesIn self.now }
        ensures { result ≡ summary_by self.now (ltb (count_ones self.now.mask) words) }
    {
        let block = self.block();
        let fewer = (self.mask.count_ones() as usize) < words;
        Summary {
            block: block,
            unserved: self.has(47) | self.has(63),
            doubled: fewer | (checks::moving_code(block) & checks::claims_axes(block)),
        }
    }
}

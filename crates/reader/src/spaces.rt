// The lent spaces, in which the words and settings of a line are stored in order, from the front.
ghost use Rattle.std.specs.Prelude.{◌≡◌, ◌+◌, ◌<◌, set};
ghost use Rattle.reader.specs.Reading.{spaces, zeros};

use rules::Value;

// The letters and the values of words, the parameter numbers and the values of settings. Four arrays, not
// two of words and settings: so a letter takes one byte of the stack and not eight.
#[derive(Drop)]
pub struct Spaces {
    pub letters: [u8; 128],
    pub values: [i64; 128],
    pub numbers: [usize; 64],
    pub amounts: [i64; 64],
}

impl Spaces {
    pub fn new() -> Spaces
        ensures { result ≡ zeros }
    {
        Spaces {
            letters: [0; 128],
            values: [0; 128],
            numbers: [0; 64],
            amounts: [0; 64],
        }
    }

    // Stores a word in place n, and answers how many there are then.
    pub(crate) fn store_word(&mut self, n: usize, letter: u8, value: Value) -> usize
        requires { n < 128 }
        ensures { (result ≡ n + 1) × (self.new ≡ spaces (set self.old.letters n letter) (set self.old.values n value.0) self.old.numbers self.old.amounts) }
    {
        self.letters[n] = letter;
        self.values[n] = value.0;
        n + 1
    }

    // Stores a setting in place n, and answers how many there are then.
    pub(crate) fn store_setting(&mut self, n: usize, number: usize, value: Value) -> usize
        requires { n < 64 }
        ensures { (result ≡ n + 1) × (self.new ≡ spaces self.old.letters self.old.values (set self.old.numbers n number) (set self.old.amounts n value.0)) }
    {
        self.numbers[n] = number;
        self.amounts[n] = value.0;
        n + 1
    }

    // Zeros in all of them.
    pub(crate) fn clear(&mut self)
        ensures { self.new ≡ zeros }
    {
        self.letters = [0; 128];
        self.values = [0; 128];
        self.numbers = [0; 64];
        self.amounts = [0; 64];
    }
}

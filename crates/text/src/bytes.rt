// What a byte is by the grammar: the tests that more than one reader asks.
ghost use Rattle.std.specs.Prelude.{◌≡◌};
ghost use Rattle.grammar.specs.Derivation.{blank};
ghost use Rattle.grammar.specs.Grammar.{digit, letter};

// Whether a byte is a space or a tab.
pub fn is_blank(b: u8) -> bool
    ensures { result ≡ blank b }
{
    matches!(b, b' ' | b'\t')
}

// Whether a byte is one of the ten digits.
pub fn is_digit(b: u8) -> bool
    ensures { result ≡ digit b }
{
    b.is_ascii_digit()
}

// Whether a byte is the letter of a word, raised to upper case.
pub fn is_letter(b: u8) -> bool
    ensures { result ≡ letter b }
{
    matches!(b, b'F' | b'G' | b'I'..=b'M' | b'P' | b'S' | b'T' | b'X'..=b'Z')
}

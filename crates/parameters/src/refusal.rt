// Why a parameter file is refused.
ghost use Rattle.std.specs.Prelude.{◌≡◌};
ghost use Rattle.parameters.specs.Refusal.{refusal_number};

use std::fmt;

// Why a file is not read, or not written. The numbers stand in the definition too.
#[derive(Clone, Copy, PartialEq, Eq)]
pub enum FileRefusal {
    // The table has not 5,000 entries, or a field of the record is out of its range.
    Disorder = 1,
    // A line is no parameter number, blanks and a value.
    Malformed = 20,
    // A line's number is not above that of the line before it.
    NotRising = 21,
    // A number is not from 1 to 5,399.
    NumberOutOfRange = 22,
    // A value is out of range, or has more decimals than its parameter takes.
    ValueUnfit = 23,
    // The space has no room for the file.
    NoRoom = 24,
}

impl FileRefusal {
    // The number by which the request and C know it.
    pub fn number(self) -> u8
        ensures { result ≡ refusal_number self }
    {
        self as u8
    }
}

impl fmt::Display for FileRefusal {
    fn fmt<W: fmt::Write>(&self, f: &mut fmt::Formatter<W>) -> fmt::Result {
        f.write_str(match self {
            FileRefusal::Disorder => "the record or the table is out of order",
            FileRefusal::Malformed => "it is no parameter number, blanks and a value",
            FileRefusal::NotRising => {
                "its parameter number is not above that of the line before it"
            }
            FileRefusal::NumberOutOfRange => "its parameter number is not from 1 to 5399",
            FileRefusal::ValueUnfit => {
                "its value is out of range, or has more decimals than its parameter takes"
            }
            FileRefusal::NoRoom => "the space has no room for the file",
        })
    }
}

ghost use Rattle.std.specs.Prelude.{◌≡◌};
ghost use Rattle.std.specs.IoError.{error_kind};
ghost use Rattle.streams.specs.Reading.{comes_later, GivesPiece, GivesWhole};

use crate::Failure;
use std::io::{ErrorKind, Read};
use std::{io, thread};

// Whether what failed now may go well after others have had their turn.
fn comes_later(why: io::Error) -> bool
    ensures { result ≡ comes_later (error_kind why) }
{
    matches!(why.kind(), ErrorKind::WouldBlock | ErrorKind::Interrupted)
}

// Reads once; again, where the system says so, after others have had their turn. Nothing says that it
// ever says otherwise, so the turns are counted, up to a number that no run uses up. A piece of no bytes is the
// end of the input.
pub fn next_piece<R: Read>(reader: &mut R, bytes: &mut [u8]) -> io::Result<usize>
    ensures { GivesPiece (R.remaining reader.old) (R.remaining reader.new) result bytes.new }
{
    for _ in 0..u64::MAX {
        match reader.read(bytes) {
            Err(why) if comes_later(why) => thread::yield_now(),
            piece => return piece,
        }
    }
    Err(io::Error::from(ErrorKind::TimedOut))
}

// Reads to the end of the input, and answers how many bytes it has. An input that fills the space may go on behind it.
pub fn read_whole<R: Read>(reader: &mut R, bytes: &mut [u8]) -> Result<usize, Failure>
    ensures { GivesWhole (R.remaining reader.old) (R.remaining reader.new) result bytes.new }
{
    let mut filled = 0;
    // No `for`: a read gives as many bytes as it will.
    while filled < bytes.len() {
        let many = next_piece(reader, &mut bytes[filled..])?;
        if many == 0 {
            return Ok(filled);
        }
        filled += many;
    }
    Err(Failure::TooLong(bytes.len()))
}

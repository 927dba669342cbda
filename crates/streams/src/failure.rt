ghost use Rattle.std.specs.Prelude.{◌≡◌};
ghost use Rattle.streams.specs.declared.failure.Failure.TheVariants.{CannotRead};

use std::{fmt, io};

// Why a program stops before it has done all its work.
#[derive(Clone, Copy)]
pub enum Failure {
    CannotRead(io::Error),
    CannotWrite(io::Error),
    // The input fills a space of so many bytes, and may go on behind it.
    TooLong(usize),
}

impl fmt::Display for Failure {
    fn fmt<W: fmt::Write>(&self, f: &mut fmt::Formatter<W>) -> fmt::Result {
        match self {
            Failure::CannotRead(why) => write!(f, "rs274: cannot read: {why}"),
            Failure::CannotWrite(why) => write!(f, "rs274: cannot write: {why}"),
            Failure::TooLong(space) => write!(f, "rs274: the file has {space} bytes or more"),
        }
    }
}

impl From<io::Error> for Failure {
    ghost from_gives = { λ why failure. failure ≡ CannotRead why };

    fn from(why: io::Error) -> Failure {
        Failure::CannotRead(why)
    }
}

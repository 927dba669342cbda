// Reads a parameter file from standard input and writes it anew, in shortest form, to standard output; or says on
// standard error which line is refused, and why, and writes nothing.
#![tactic(auto)]

use parameters::FileRefusal;
use std::fmt;
use std::io::Read;
use streams::Failure;

// Why no file is written, or not all of it: a line is refused, or the program cannot go on.
#[derive(Clone, Copy)]
enum Unwritten {
    Refused { line: usize, why: FileRefusal },
    Stopped(Failure),
}

impl From<Failure> for Unwritten {
    fn from(why: Failure) -> Unwritten {
        Unwritten::Stopped(why)
    }
}

impl fmt::Display for Unwritten {
    fn fmt<W: fmt::Write>(&self, f: &mut fmt::Formatter<W>) -> fmt::Result {
        match self {
            Unwritten::Refused { line, why } => {
                let number = why.number();
                write!(
                    f,
                    "rs274: line {line} is refused with number {number}: {why}"
                )
            }
            Unwritten::Stopped(why) => write!(f, "{why}"),
        }
    }
}

// Writes the file of a text that is accepted.
fn rewrite(
    rt: &impl Print,
    text: &[u8],
    table: &mut [i64],
    out: &mut [u8],
) -> Result<(), Unwritten> {
    let rec = parameters::read(text, record::fresh(), table).map_err(|why| Unwritten::Refused {
        line: parameters::refused_line(text).unwrap_or(0),
        why,
    })?;
    let count = parameters::write(rec, table, out).unwrap_or(0);
    if let Some(file) = out.get(..count) {
        rt.write_all(file).map_err(Failure::CannotWrite)?;
    }
    Ok(())
}

fn work(
    reader: &mut impl Read,
    rt: &impl Print,
    bytes: &mut [u8],
    table: &mut [i64],
    out: &mut [u8],
) -> Result<(), Unwritten> {
    let many = streams::read_whole(reader, bytes)?;
    rewrite(rt, &bytes[..many], table, out)
}

// A table of zeros, and room for the longest file that is written. Where what failed cannot be said there is nobody to tell.
fn main(rt: HostRuntime) {
    let mut bytes = [0u8; 262144];
    let mut table = [0i64; 5000];
    let mut out = [0u8; 84393];
    if let Err(why) = work(&mut rt.stdin(), &rt, &mut bytes, &mut table, &mut out) {
        let _ = eprintln!(rt; "{why}");
    }
}

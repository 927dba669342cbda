// Parameter files in and out, on plain numbers.
ghost use Rattle.std.specs.Prelude.{◌≡◌};
ghost use Rattle.parameters.specs.Refusal.{refusal_number};
ghost use Rattle.embed.specs.Files.{LoadedPlain, saved_plain};

use super::{holdable, pack, unpack};
use parameters::FileRefusal;

// The refusal, 0 where the file is written, and how many bytes it has.
#[repr(C)]
#[derive(Clone, Copy)]
pub struct Rs274File {
    pub number: u32,
    pub count: u64,
}

// Why a file is not written. It has no bytes then.
fn unwritten(why: FileRefusal) -> Rs274File
    ensures { result ≡ record { number = refusal_number why; count = 0 } }
{
    Rs274File {
        number: u32::from(why.number()),
        count: 0,
    }
}

// Reads a parameter file into the record and the table, and answers with the refusal, 0 for an accepted file. One
// that is refused changes neither.
#[unsafe(no_mangle)]
pub extern "C" fn rs274_parameters_read(text: &[u8], rec: &mut [i64], table: &mut [i64]) -> u32
    ensures { LoadedPlain text.now rec.old table.old (record { number = result; rec = rec.new; table = table.new }) }
{
    if !holdable(rec) {
        return u32::from(FileRefusal::Disorder.number());
    }
    match parameters::read(text, unpack(rec), table) {
        Ok(left) => {
            pack(&left, rec);
            0
        }
        Err(why) => u32::from(why.number()),
    }
}

// Writes the parameter file of a record and a table at the beginning of the output space, and nothing where it is
// refused.
#[unsafe(no_mangle)]
pub extern "C" fn rs274_parameters_write(rec: &[i64], table: &[i64], out: &mut [u8]) -> Rs274File
    ensures { record { number = result.number; count = result.count; out = out.new } ≡ saved_plain rec.now table.now out.old }
{
    if !holdable(rec) {
        return unwritten(FileRefusal::Disorder);
    }
    match parameters::write(unpack(rec), table, out) {
        Ok(count) => Rs274File {
            number: 0,
            count: count as u64,
        },
        Err(why) => unwritten(why),
    }
}

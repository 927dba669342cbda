// A parameter file written from a record and a table.
ghost use Rattle.std.specs.Prelude.{◌≡◌, false, ◌+◌, ◌≤◌, T, nat_abs, length, drop};
ghost use Rattle.std.proofs.lemmas.List.Edits.{sets};
ghost use Rattle.rules.specs.Reach.{at};
ghost use Rattle.rules.specs.Promise.{disorder};
ghost use Rattle.parameters.specs.Writing.{held, said, line_for, file, all_in_range, saved_as, saved};

use super::numerals::{digit_count, number_size, put_number, put_whole};
use super::places::{Place, decimals, stands_for};
use super::refusal::FileRefusal;
use rules::{Length, Record, Value};

// What a file is written from.
#[derive(Clone, Copy)]
struct Session<'a> {
    rec: &'a Record,
    table: &'a [i64],
}

// A length among those of a record; 0 past their end.
fn length_at(lengths: &[Length], i: usize) -> i64
    ensures { result ≡ (at lengths.now i).0 }
{
    lengths.get(i).map_or(0, |length| length.0)
}

// Whether a number has a line: all that are not zero have one, and 5220.
fn is_said(number: usize, amount: i64) -> bool
    ensures { result ≡ said number amount }
{
    amount != 0 || number == 5220
}

// Puts the line of a number, and tells the place after it. (Text and place stay two parameters here and in what puts
// numerals: a struct that holds a lent space has to promise in every clause that it still holds the same one.)
fn put_line(number: usize, amount: i64, out: &mut [u8], at: usize) -> usize
    requires { at + length (line_for number amount) ≤ length out.old }
    ensures { (result ≡ at + length (line_for number amount)) × (out.new ≡ sets out.old at (line_for number amount)) }
{
    let space = put_whole(number as u64, out, at);
    out[space] = b' ';
    let negative = value::is_below_zero(Value(amount));
    let places = decimals(stands_for(number));
    let end = put_number(negative, value::size_of(amount), places, out, space + 1);
    out[end] = b'\n';
    end + 1
}

// How long the line of a number is, with its line feed. No line has more than 32 bytes.
fn line_size(number: usize, amount: i64) -> usize
    requires { (number ≤ 5399) × (nat_abs amount ≤ 1000000000) }
    ensures { (result ≡ length (line_for number amount)) × (result ≤ 32) }
{
    let negative = value::is_below_zero(Value(amount));
    let places = decimals(stands_for(number));
    let size = number_size(negative, value::size_of(amount), places);
    digit_count(number as u64) + 1 + size + 1
}

impl Session<'_> {
    // What is held under a number, in units of its last decimal.
    fn held(&self, number: usize) -> i64
        ensures { result ≡ held self.now.rec.now self.now.table.now number }
    {
        match stands_for(number) {
            Place::Entry(n) => self.table.get(n).copied().unwrap_or(0),
            Place::Offset(axis) => length_at(&self.rec.offset, axis),
            Place::Origin(i) => length_at(&self.rec.origins, i),
            Place::System => i64::from(codes::system_number(self.rec.system).unwrap_or(0)),
            Place::Passed => 0,
        }
    }

    // How long the file is.
    fn file_size(&self) -> usize
        requires { (disorder self.now.rec.now self.now.table.now ≡ false) × T (all_in_range (drop 1 self.now.table.now)) }
        ensures { result ≡ length (file self.now.rec.now self.now.table.now) }
    {
        let mut size = 0;
        for number in 1..5400 {
            let amount = self.held(number);
            if is_said(number, amount) {
                size += line_size(number, amount);
            }
        }
        size
    }

    // Puts the file at the beginning of a space that has room for it.
    fn put_file(&self, out: &mut [u8])
        requires { length (file self.now.rec.now self.now.table.now) ≤ length out.old }
        ensures { out.new ≡ sets out.old 0 (file self.now.rec.now self.now.table.now) }
    {
        let mut at = 0;
        for number in 1..5400 {
            let amount = self.held(number);
            if is_said(number, amount) {
                at = put_line(number, amount, out, at);
            }
        }
    }
}

// Whether every entry from 1 on is in range.
fn all_in_range(table: &[i64]) -> bool
    ensures { result ≡ all_in_range (drop 1 table.now) }
{
    table
        .iter()
        .skip(1)
        .all(|amount| value::in_range(Value(*amount)))
}

// Whether number 1 is given.
pub(crate) fn is_disordered(rec: Record, table: &[i64]) -> bool
    ensures { result ≡ disorder rec table.now }
{
    table.len() != 5000 || !record::in_order(rec)
}

// Writes the file of a record and a table at the beginning of the output space: how many bytes it has. Where it is refused
// nothing is written.
pub fn write(rec: Record, table: &[i64], out: &mut [u8]) -> Result<usize, FileRefusal>
    ensures { saved_as result out.new ≡ saved rec table.now out.old }
{
    if is_disordered(rec, table) {
        return Err(FileRefusal::Disorder);
    }
    if !all_in_range(table) {
        return Err(FileRefusal::ValueUnfit);
    }
    let session = Session { rec: &rec, table };
    let count = session.file_size();
    if out.len() < count {
        return Err(FileRefusal::NoRoom);
    }
    session.put_file(out);
    Ok(count)
}

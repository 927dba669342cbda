// What a control's firmware links: one line of a program, on plain numbers.
#![tactic(auto)]

ghost use Rattle.std.specs.Prelude.{◌≡◌, true, ◌+◌, ◌≤◌, ◌<◌, nat_abs, length};
ghost use Rattle.std.proofs.lemmas.List.Edits.{sets};
ghost use Rattle.rules.specs.Reach.{up_to};
ghost use Rattle.rules.specs.Commands.{numbers};
ghost use Rattle.embed.specs.Packing.{modes, quantities, packed, number_at, lengths_at, unpacked, all_up_to, holdable, answered, Embedded};

mod files;

pub use files::{Rs274File, rs274_parameters_read, rs274_parameters_write};
use rules::{Answer, Length, Record, Value};

// The number that the line carries (0 accepted, 100 skipped), the count of its commands, the place at
// which its form breaks, 0 unless the number is 3, and how many values and operations were worked out,
// 0 unless it was accepted.
#[repr(C)]
#[derive(Clone, Copy)]
pub struct Rs274Answer {
    pub number: u32,
    pub count: u64,
    pub place: u64,
    pub work: u64,
}

// Works one line. The record is 43 numbers, in the order that the header gives; numbers that no
// record can hold are answered with number 1.
#[unsafe(no_mangle)]
pub extern "C" fn rs274_line(
    line: &[u8],
    switch: bool,
    rec: &mut [i64],
    table: &mut [i64],
    out: &mut [i64],
) -> Rs274Answer
    ensures { Embedded line.now switch rec.old table.old out.old (record { answer = result; rec = rec.new; table = table.new; out = out.new }) }
{
    if !holdable(rec) {
        return Rs274Answer {
            number: 1,
            count: 0,
            place: 0,
            work: 0,
        };
    }
    let report = control::work(line, switch, unpack(rec), table, out);
    let outcome = report.outcome;
    let left = outcome.rec;
    let answer = outcome.answer;
    let place = report.place;
    let work = report.work;
    pack(&left, rec);
    answered(answer, place, work)
}

// The number and the count that an answer stands for, with the place and the work.
fn answered(answer: Answer, place: u64, work: u64) -> Rs274Answer
    ensures { result ≡ answered answer place work }
{
    match answer {
        Answer::Accepted(commands) => Rs274Answer {
            number: 0,
            count: commands,
            place,
            work,
        },
        Answer::Refused(why) => Rs274Answer {
            number: u32::from(why.number()),
            count: 0,
            place,
            work,
        },
        Answer::Skipped => Rs274Answer {
            number: 100,
            count: 0,
            place,
            work,
        },
    }
}

// Whether the numbers are a record's: 43 of them, each one that its field can hold.
fn holdable(rec: &[i64]) -> bool
    ensures { result ≡ holdable rec.now }
{
    if rec.len() != 43 {
        return false;
    }
    if !all_up_to(65535, &rec[33..38]) {
        return false;
    }
    all_up_to(255, &rec[40..43])
}

// Whether every number is from 0 to high.
#[tactic(auto, unfolding(crate::specs::Packing::all_up_to))]
fn all_up_to(high: u16, all: &[i64]) -> bool
    ensures { result ≡ all_up_to high all.now }
{
    all.iter().all(|number| up_to(high, *number))
}

// Whether a number is from 0 to high.
fn up_to(high: u16, number: i64) -> bool
    ensures { result ≡ up_to high number }
{
    if number < 0 {
        return false;
    }
    number <= high as i64
}

// The record that the numbers stand for. (No `From`: record and numbers are other crates' types. No `TryFrom` either, of
// a type of this crate: that would be one record more on the stack, and no plainer.)
fn unpack(rec: &[i64]) -> Record
    requires { holdable rec.now ≡ true }
    ensures { result ≡ unpacked rec.now }
{
    Record {
        position: lengths_at(rec, 0),
        origins: lengths_at(rec, 3),
        offset: lengths_at(rec, 30),
        motion: mode_at(rec, 33),
        plane: mode_at(rec, 34),
        distance: mode_at(rec, 35),
        units: mode_at(rec, 36),
        system: mode_at(rec, 37),
        feed: Length(rec[38]),
        speed: Value(rec[39]),
        tool: small_at(rec, 40),
        spindle: small_at(rec, 41),
        coolant: small_at(rec, 42),
    }
}

// The lengths from a place on.
fn lengths_at<const N: usize>(rec: &[i64], at: usize) -> [Length; N]
    requires { at + N ≤ length rec.now }
    ensures { result ≡ lengths_at rec.now at N }
{
    let mut lengths = [Length(0); N];
    for (i, amount) in lengths.iter_mut().enumerate() {
        *amount = Length(rec[at + i]);
    }
    lengths
}

// The number at a place, as a mode. The test of the numbers has shown that the cast keeps it. (One function for this and
// the next would have to be told the width that each cast is named by here.)
fn mode_at(rec: &[i64], at: usize) -> u16
    requires { (at < length rec.now) × (up_to 65535 (number_at rec.now at) ≡ true) }
    ensures { result ≡ nat_abs (number_at rec.now at) }
{
    rec[at] as u16
}

// The number at a place, as a tool, spindle or coolant; likewise.
fn small_at(rec: &[i64], at: usize) -> u8
    requires { (at < length rec.now) × (up_to 255 (number_at rec.now at) ≡ true) }
    ensures { result ≡ nat_abs (number_at rec.now at) }
{
    rec[at] as u8
}

// Puts the record as numbers, into what C lends: a slice, since C may lend any number of them.
fn pack(r: &Record, rec: &mut [i64])
    requires { length rec.old ≡ 43 }
    ensures { rec.new ≡ packed r.now }
{
    put_lengths(&r.position, rec, 0);
    put_lengths(&r.origins, rec, 3);
    put_lengths(&r.offset, rec, 30);
    put_modes(r, rec);
    put_quantities(r, rec);
}

// Puts lengths as numbers, from a place on. (That the array has so many is told here, where it is read, since the record
// says nothing of it.)
fn put_lengths<const N: usize>(lengths: &[Length; N], rec: &mut [i64], at: usize)
    requires { at + N ≤ length rec.old }
    ensures { (length lengths.now ≡ N) × (rec.new ≡ sets rec.old at (numbers lengths.now)) }
{
    for (i, amount) in lengths.iter().enumerate() {
        rec[at + i] = amount.0;
    }
}

// Puts the modes, ten times the code each.
fn put_modes(r: &Record, rec: &mut [i64])
    requires { length rec.old ≡ 43 }
    ensures { rec.new ≡ sets rec.old 33 (modes r.now) }
{
    rec[33] = r.motion as i64;
    rec[34] = r.plane as i64;
    rec[35] = r.distance as i64;
    rec[36] = r.units as i64;
    rec[37] = r.system as i64;
}

// Puts feed, speed, tool, spindle and coolant.
fn put_quantities(r: &Record, rec: &mut [i64])
    requires { length rec.old ≡ 43 }
    ensures { rec.new ≡ sets rec.old 38 (quantities r.now) }
{
    rec[38] = r.feed.0;
    rec[39] = r.speed.0;
    rec[40] = r.tool as i64;
    rec[41] = r.spindle as i64;
    rec[42] = r.coolant as i64;
}

// A parameter file read into a record and a table.
ghost use Rattle.std.specs.Prelude.{◌≡◌, true, [], ℕ, ◌≤◌, ◌<◌, length, MatchOption};
ghost use Rattle.parameters.specs.Places.{stands_for, judged, number_from};
ghost use Rattle.parameters.specs.Reading.{unsaid, renewed, table_from, length_from, system_code, loaded_as, Loads, FirstRefused};
ghost use Rattle.parameters.specs.Parse.{entries_of};
ghost use Rattle.parameters.specs.Told.{FirstLine, JudgedAs, AcceptedAs, Remains, GivenFrom};

use super::accepted::Lines;
use super::lines::read_line;
use super::refusal::FileRefusal;
use super::save::is_disordered;
use rules::{Length, Record};

// A line that is refused, counted from 1, and why.
#[derive(Clone, Copy)]
pub struct RefusedLine {
    pub line: usize,
    pub why: FileRefusal,
}

// The first line of a text, and what stands behind it; none at the text's end.
fn cut_line(text: &[u8]) -> Option<(&[u8], &[u8])>
    ensures { MatchOption result (text.now ≡ []) (λ cut. FirstLine text.now cut.0.now cut.1.now) }
{
    if text.is_empty() {
        return None;
    }
    let span = texts::line_at(text, 0);
    Some((&text[..span.end], &text[span.next..]))
}

// The first line that is refused for what it says. Nothing is changed while a file is judged.
fn first_refused(text: &[u8]) -> Option<RefusedLine>
    ensures { JudgedAs text.now result }
{
    let mut rest = text;
    let mut least = 0;
    let mut line = 0;
    while let Some((front, behind)) = cut_line(rest) {
        line += 1;
        match read_line(front, least) {
            Ok(said) => least = said.number + 1,
            Err(why) => return Some(RefusedLine { line, why }),
        }
        rest = behind;
    }
    None
}

// The first line that is refused for what it says, counted from 1.
pub fn refused_line(text: &[u8]) -> Option<usize>
    ensures { FirstRefused text.now result }
{
    first_refused(text).map(|refused| refused.line)
}

// The lines of a file, where none of them is refused.
fn accepted(text: &[u8]) -> Result<Lines, FileRefusal>
    ensures { AcceptedAs text.now result }
{
    match first_refused(text) {
        Some(refused) => Err(refused.why),
        None => Ok(Lines { rest: text }),
    }
}

// What a file means that does not say a number: 0, and system 1.
fn unsaid(number: usize) -> i64
    ensures { result ≡ unsaid number }
{
    i64::from(number == 5220)
}

impl Lines<'_> {
    // What the file gives a number. Numbers rise, so that every line is passed but once: from here on the numbers behind
    // this one can be asked for.
    fn value(&mut self, number: usize) -> i64
        requires { judged (stands_for number) ≡ true }
        ensures { GivenFrom self.old.rest.now number result self.new.rest.now }
    {
        while let Some((line, behind)) = cut_line(self.rest) {
            // No line of an accepted file is refused.
            let Ok(said) = read_line(line, 0) else {
                return unsaid(number);
            };
            if number < said.number {
                return unsaid(number);
            }
            self.rest = behind;
            if said.number == number {
                return said.value;
            }
        }
        unsaid(number)
    }

    // Sets entries 1 to 4999 of the table.
    fn fill_table(&mut self, table: &mut [i64])
        requires { length table.old ≡ 5000 }
        ensures { (table.new ≡ table_from (entries_of self.old.rest.now) table.old) × Remains self.old.rest.now self.new.rest.now 5000 }
    {
        for n in 1..5000 {
            table[n] = self.value(n);
        }
    }

    // Sets lengths by the numbers from one on: three axes to each twenty.
    fn fill_lengths(&mut self, lengths: &mut [Length], first: usize)
        requires small { (first ≤ 5221) × (length lengths.old ≤ 27) }
        requires served { (i : ℕ) → i < length lengths.old → judged (stands_for (number_from first i)) ≡ true }
        ensures set { lengths.new ≡ renewed (length_from (entries_of self.old.rest.now) (number_from first)) 0 lengths.old }
        ensures rest { (m : ℕ) → ((i : ℕ) → i < length lengths.old → number_from first i < m) → Remains self.old.rest.now self.new.rest.now m }
    {
        for (i, amount) in lengths.iter_mut().enumerate() {
            *amount = Length(self.value(first + (20 * (i / 3) + i % 3)));
        }
    }
}

// The code of a work system.
fn system_code(number: u64) -> u16
    ensures { result ≡ system_code number }
{
    [540, 550, 560, 570, 580, 590, 591, 592, 593]
        .get(number.saturating_sub(1) as usize)
        .copied()
        .unwrap_or(540)
}

// Reads a file into the record and the table: the record as the file leaves it. A file that is refused changes neither.
pub fn read(text: &[u8], rec: Record, table: &mut [i64]) -> Result<Record, FileRefusal>
    ensures { Loads text.now rec table.old (loaded_as result rec table.new) }
{
    if is_disordered(rec, table) {
        return Err(FileRefusal::Disorder);
    }
    let mut lines = accepted(text)?;
    let mut offset = rec.offset;
    let mut origins = rec.origins;
    lines.fill_table(table);
    lines.fill_lengths(&mut offset, 5211);
    let system = lines.value(5220);
    lines.fill_lengths(&mut origins, 5221);
    Ok(Record {
        offset,
        origins,
        system: system_code(value::size_of(system)),
        ..rec
    })
}

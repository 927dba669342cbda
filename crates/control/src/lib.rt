// One line at a time: the interpreter, the record lent to each line, and the same with plain parameters.
#![tactic(auto)]

ghost use Rattle.std.specs.Prelude.{◌≡◌, false, ◌≤◌, length, take, set};
ghost use Rattle.rules.specs.Promise.{Right, after, apply, unread};
ghost use Rattle.block.specs.Execution.{execution};
ghost use Rattle.control.specs.Worked.{judged_as, unchanged, wrong_at, unworked, Lends, settings_of, table_after, work_done};

use reader::{Read, Spaces, Unread};
use rules::{Answer, Outcome, Record, Refusal, Report, Value};

// Works one line. Whatever the line, the record, the table and the output space are, what is left
// is what the rules say. They stay parameters, one by one: `Right` speaks of each.
pub fn interpret(
    line: &[u8],
    switch: bool,
    rec: Record,
    table: &mut [i64],
    out: &mut [i64],
) -> Report
    ensures { Right line.now switch rec table.old out.old (after result table.new out.new) }
{
    let mut spaces = Spaces::new();
    interpret_in(line, switch, rec, table, out, &mut spaces)
}

// The same with spaces lent for the line's words and settings: whoever works many lines lays them out once.
pub fn interpret_in(
    line: &[u8],
    switch: bool,
    rec: Record,
    table: &mut [i64],
    out: &mut [i64],
    spaces: &mut Spaces,
) -> Report
    ensures { Right line.now switch rec table.old out.old (after result table.new out.new) × Lends line.now switch table.old spaces.old spaces.new }
{
    if table.len() != 5000 {
        return unchanged(Answer::Refused(Refusal::Disorder), rec);
    }
    if 256 < line.len() {
        return answered(Answer::Refused(Refusal::LongLine), rec);
    }
    if marks::unread(line, switch) {
        return answered(Answer::Skipped, rec);
    }
    sized(spaces);
    read_and_work(line, switch, rec, table, out, spaces)
}

// The lent spaces are as long as their types say. That is known where slices are made of them, and not before.
fn sized(spaces: &Spaces)
    ensures { (length spaces.now.letters ≡ 128) × (length spaces.now.values ≡ 128) × (length spaces.now.numbers ≡ 64) × (length spaces.now.amounts ≡ 64) }
{
    slices(
        &spaces.letters,
        &spaces.values,
        &spaces.numbers,
        &spaces.amounts,
    );
}

fn slices(_letters: &[u8], _values: &[i64], _numbers: &[usize], _amounts: &[i64]) {}

// An answer that changes nothing, and so reports no work.
fn unchanged(answer: Answer, rec: Record) -> Report
    ensures { result ≡ unchanged answer rec }
{
    Report {
        outcome: Outcome { answer, rec },
        work: 0,
        place: 0,
    }
}

// What answers a line that is not worked, where the record is in order. A record out of order comes before it. `block`
// judges the record of a line that is worked, so that no line has it judged twice.
fn answered(answer: Answer, rec: Record) -> Report
    ensures { result ≡ unchanged (judged_as answer rec) rec }
{
    if record::in_order(rec) {
        return unchanged(answer, rec);
    }
    unchanged(Answer::Refused(Refusal::Disorder), rec)
}

// A line of wrong form: the place at which it breaks is told, unless the record is out of order.
fn misformed(place: usize, rec: Record) -> Report
    ensures { result ≡ wrong_at place rec }
{
    if !record::in_order(rec) {
        return unchanged(Answer::Refused(Refusal::Disorder), rec);
    }
    Report {
        outcome: Outcome {
            answer: Answer::Refused(Refusal::WrongForm),
            rec,
        },
        work: 0,
        place: place as u64,
    }
}

// A line that neither its length nor the switch keeps from being read: what is read of it decides.
fn read_and_work(
    line: &[u8],
    switch: bool,
    rec: Record,
    table: &mut [i64],
    out: &mut [i64],
    spaces: &mut Spaces,
) -> Report
    requires { (length table.old ≡ 5000) × (length line.now ≤ 256) × (unread switch line.now ≡ false) × (length spaces.old.letters ≡ 128) × (length spaces.old.values ≡ 128) × (length spaces.old.numbers ≡ 64) × (length spaces.old.amounts ≡ 64) }
    ensures { Right line.now switch rec table.old out.old (after result table.new out.new) × Lends line.now switch table.old spaces.old spaces.new }
{
    match reader::read(line, table, spaces) {
        Ok(read) => finish(spaces, read, rec, table, out),
        Err(why) => unworked(why, rec),
    }
}

// What answers a line that is not read to its end. A condition that says no skips it.
fn unworked(why: Unread, rec: Record) -> Report
    ensures { result ≡ unworked why rec }
{
    match why {
        Unread::Refused(refusal) => answered(Answer::Refused(refusal), rec),
        Unread::Skipped => answered(Answer::Skipped, rec),
        Unread::Deep => answered(Answer::Refused(Refusal::TooDeep), rec),
        Unread::Wrong(place) => misformed(place, rec),
        Unread::TooLong => answered(Answer::Refused(Refusal::LongLine), rec),
    }
}

// A line that is read: its words are worked, and where it is accepted its settings are applied.
fn finish(spaces: &Spaces, read: Read, rec: Record, table: &mut [i64], out: &mut [i64]) -> Report
    ensures { (record { outcome = result.outcome; out = out.new } ≡ execution (take read.words spaces.now.letters) (take read.words spaces.now.values) rec out.old) × (result.work ≡ work_done result.outcome.answer read.work) × (result.place ≡ 0) × (table.new ≡ table_after result.outcome.answer (settings_of (take read.settings spaces.now.numbers) (take read.settings spaces.now.amounts)) table.old) }
{
    let outcome = block::execute(&spaces.letters, &spaces.values, read.words, rec, out);
    let answer = outcome.answer;
    set_entries(
        answer,
        &spaces.numbers,
        &spaces.amounts,
        read.settings,
        table,
    );
    Report {
        outcome,
        work: work_done(answer, read.work),
        place: 0,
    }
}

// The work that a line reports: none unless it is accepted.
fn work_done(answer: Answer, work: u64) -> u64
    ensures { result ≡ work_done answer work }
{
    match answer {
        Answer::Accepted(_) => work,
        Answer::Refused(_) => 0,
        Answer::Skipped => 0,
    }
}

// Applies the settings, in order, where the line is accepted.
fn set_entries(answer: Answer, numbers: &[usize], amounts: &[i64], count: usize, table: &mut [i64])
    ensures { table.new ≡ table_after answer (settings_of (take count numbers.now) (take count amounts.now)) table.old }
{
    match answer {
        Answer::Accepted(_) => set_all(numbers, amounts, count, table),
        Answer::Refused(_) => {}
        Answer::Skipped => {}
    }
}

// The settings lie as the lent spaces have them; where the count is more than there are, all that are there are set.
fn set_all(numbers: &[usize], amounts: &[i64], count: usize, table: &mut [i64])
    ensures { table.new ≡ apply (settings_of (take count numbers.now) (take count amounts.now)) table.old }
{
    for i in 0..count {
        if numbers.len() <= i {
            return;
        }
        if amounts.len() <= i {
            return;
        }
        set_entry(numbers[i], Value(amounts[i]), table);
    }
}

// A number that the table does not reach sets nothing.
fn set_entry(number: usize, amount: Value, table: &mut [i64])
    ensures { table.new ≡ set table.old number amount.0 }
{
    if table.len() <= number {
        return;
    }
    let v = amount.0;
    table[number] = v;
}

// The session's record is lent to each line.
pub fn step(
    line: &[u8],
    switch: bool,
    rec: &mut Record,
    table: &mut [i64],
    out: &mut [i64],
) -> Report
    ensures { Right line.now switch rec.old table.old out.old (after result table.new out.new) × (rec.new ≡ result.outcome.rec) }
{
    let got = interpret(line, switch, *rec, table, out);
    *rec = got.outcome.rec;
    got
}

// The same with plain parameters, over a record of its own that it lends to `step`: programs need no more.
pub fn work(
    line: &[u8],
    switch: bool,
    mut rec: Record,
    table: &mut [i64],
    out: &mut [i64],
) -> Report
    ensures { (Right line.now switch rec table.old out.old (after result table.new out.new)) }
{
    step(line, switch, &mut rec, table, out)
}

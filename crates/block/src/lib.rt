// One line's words worked against the record: numbers 8 to 15, the steps of an accepted line, and
// its commands.
#![tactic(auto)]

mod limits;
mod motion;
mod steps;
mod words;

ghost use Rattle.std.specs.Prelude.{◌≡◌, true, length, take};
ghost use Rattle.rules.specs.Reach.{in_order};
ghost use Rattle.rules.specs.Refusals.{first};
ghost use Rattle.rules.specs.Steps.{ready};
ghost use Rattle.block.specs.Bounds.{Ranged};
ghost use Rattle.block.specs.Execution.{done_by, execution, outcome_of};
ghost use Rattle.block.specs.Judged.{remaining};

use rules::{Answer, Block, Outcome, Record, Refusal};

// Works the words of a line that was read: the first `count` places of the two slices hold them. They lie side by side as the
// lent spaces have them, and a count beyond them is answered too (`execution`).
// Whatever they are, and whatever the record and the output space are, what is left is what the
// rules say.
pub fn execute(
    letters: &[u8],
    values: &[i64],
    count: usize,
    rec: Record,
    out: &mut [i64],
) -> Outcome
    ensures { record { outcome = result; out = out.new } ≡ execution (take count letters.now) (take count values.now) rec out.old }
{
    match worked(letters, values, count, rec, out) {
        Ok(outcome) => outcome,
        Err(why) => Outcome {
            answer: Answer::Refused(why),
            rec: rec,
        },
    }
}

// The outcome of a line that is accepted, or the first refusal of one that is not.
fn worked(
    letters: &[u8],
    values: &[i64],
    count: usize,
    rec: Record,
    out: &mut [i64],
) -> Result<Outcome, Refusal>
    ensures { record { outcome = outcome_of result rec; out = out.new } ≡ execution (take count letters.now) (take count values.now) rec out.old }
{
    if !record::in_order(rec) {
        return Err(Refusal::Disorder);
    }
    if !words::all_ranged(values, count) {
        return Err(Refusal::OutOfRange);
    }
    let line = summary::summarize(letters, values, count);
    if line.unserved {
        return Err(Refusal::NotServed);
    }
    if line.doubled {
        return Err(Refusal::Doubled);
    }
    work(line.block, rec, out)
}

// Numbers 10 to 15, and the work of a line that none of them refuses. Nothing is written before all
// of them are known. What is known of the line's words and of the record stays in clauses here and in the functions below:
// tests made on the way show one after the other, so types for them would be made anew at each.
fn work(b: Block, rec: Record, out: &mut [i64]) -> Result<Outcome, Refusal>
    requires ranged { Ranged b }
    requires rec_value { in_order rec ≡ true }
    ensures { record { outcome = outcome_of result rec; out = out.new } ≡ done_by (first (remaining b (ready b rec) (length out.old))) b rec out.old }
{
    checks::early(b, b.plane.unwrap_or(rec.plane), rec.motion)?;
    let m = steps::ready(b, rec);
    let t = motion::travel_of(b, m);
    limits::late(b, m, t)?;
    let moving = motion::move_command(t, m.plane);
    let orders = orders::orders_of(b, m.feed, m.speed, m.tool, moving);
    let count = orders::write(orders, out).ok_or(Refusal::NoRoom)?;
    Ok(Outcome {
        answer: Answer::Accepted(count),
        rec: steps::left(b, m, t.to.unwrap_or(m.position), t.motion),
    })
}

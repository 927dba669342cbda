// Works the lines of standard input as rs274 does, but goes on after a refusal, so that examples of
// both sides stand in one input. A percent sign, on a line of its own, starts anew, so that they do
// not disturb each other.
#![tactic(auto)]

ghost use Rattle.std.specs.Prelude.{◌≤◌, length, take};
ghost use Rattle.std.specs.Io.KnownBytes.{Consumes};

use std::io::Read;

// What a run is lent. The text holds the frames of the nine commands that a line makes at most.
#[derive(Drop)]
struct Spaces {
    line: [u8; 257],
    table: [i64; 5000],
    out: [i64; 8000],
    text: [u8; 657],
}

// Reads until the space is full or nothing more comes, and answers how many bytes that were. What was read before a
// read that fails is worked too, so that is no refusal (docs/PORT.md), and `streams::read_whole` does not serve.
fn read_full<R: Read>(reader: &mut R, bytes: &mut [u8]) -> usize
    ensures { (result ≤ length bytes.new) × Consumes (R.remaining reader.old) (R.remaining reader.new) (take result bytes.new) }
{
    let mut held = 0;
    while held < bytes.len() {
        match reader.read(&mut bytes[held..]) {
            Ok(0) | Err(_) => return held,
            Ok(many) => held += many,
        }
    }
    held
}

// Works what stands between two percent signs: a run from the start, which goes on after a refusal.
fn work_part(rt: &impl Print, part: &[u8], spaces: &mut Spaces) {
    let mut state = run::fresh();
    let mut rest = part;
    // No `for`: a call takes as many bytes as it will.
    while !rest.is_empty() {
        let fed = run::feed(
            state,
            rest,
            &mut spaces.line,
            &mut spaces.table,
            &mut spaces.out,
            &mut spaces.text,
        );
        // What cannot be written is missing in what is compared.
        let filled = fed.filled;
        let _ = rt.write_all(&spaces.text[..filled]);
        // No call that is lent spaces as large as these takes nothing.
        let taken = fed.taken;
        if taken == 0 {
            return;
        }
        rest = &rest[taken..];
        state = run::resume(fed.state);
    }
}

// Works every part, from a table that is all zero. The line feed behind a percent sign ends an empty line of the next part.
fn work_parts(rt: &impl Print, bytes: &[u8], spaces: &mut Spaces) {
    for part in bytes.split(|byte| *byte == b'%') {
        spaces.table.fill(0);
        work_part(rt, part, spaces);
    }
}

fn main(rt: HostRuntime) {
    let mut bytes = [0u8; 65536];
    let mut spaces = Spaces {
        line: [0; 257],
        table: [0; 5000],
        out: [0; 8000],
        text: [0; 657],
    };
    let held = read_full(&mut rt.stdin(), &mut bytes);
    work_parts(&rt, &bytes[..held], &mut spaces);
}

// One line mended: its three repairs in their order, and what is listed of it.
ghost use Rattle.std.specs.Prelude.{◌≡◌, false, not, List, ℕ, ◌+◌, ◌≤◌, ◌<◌, length, take};
ghost use Rattle.grammar.specs.Grammar.{Line};
ghost use Rattle.grammar.specs.Derivation.{Form};
ghost use Rattle.texts.specs.Form.{Tells, right};
ghost use Rattle.mend.specs.Repairs.{lone_percent, remarked};
ghost use Rattle.mend.specs.Mend.{same, differs};
ghost use Rattle.mend.specs.Line.{number_of, Repaired, leaves, MendsLine};

use super::repairs::{flatten, lone_percent, put_remark, remark_at};

// The space is too small for the mended text. Nothing is written.
#[derive(Clone, Copy, PartialEq, Eq)]
pub struct NoSpace;

// Which of the three repairs changed a line: that of a line of one `%`, of a remark, and of nested comments.
#[derive(Clone, Copy, PartialEq, Eq)]
pub struct Repairs {
    pub percent: bool,
    pub remark: bool,
    pub nested: bool,
}

impl Repairs {
    // As one number of the list: 1 for the `%`, 2 for the remark, 4 for nested comments, added up.
    pub(crate) fn number(self) -> usize
        ensures { result ≡ number_of self }
    {
        usize::from(self.percent) + 2 * usize::from(self.remark) + 4 * usize::from(self.nested)
    }
}

// What a line came to.
#[derive(Clone, Copy, PartialEq, Eq)]
pub enum Mended {
    // It was right. Nothing is written.
    Already,
    // Its mended text, so many bytes, stands in front of the space. The first byte that differs, from 1.
    Better {
        length: usize,
        first: usize,
        repairs: Repairs,
    },
    // It is unmended. Nothing is written.
    Beyond,
}

// How many bytes a repaired line has, and which repairs changed it.
#[derive(Clone, Copy)]
struct Repair {
    length: usize,
    repairs: Repairs,
}

// The number of the first byte in which two lines differ, from 1.
fn first_difference(a: &[u8], b: &[u8]) -> usize
    ensures { (a.now ≡ b.now → ⊥) → result ≡ differs 1 a.now b.now }
{
    let shorter = a.len().min(b.len());
    for i in 0..shorter {
        if a[i] != b[i] {
            return i + 1;
        }
    }
    shorter + 1
}

// Whether a repair changed a line.
fn changed(before: &[u8], after: &[u8]) -> bool
    ensures { result ≡ not (same before.now after.now) }
{
    before != after
}

// The line with its remark made a comment, in front of a space, and how many bytes it has then.
fn unremark(line: &[u8], space: &mut [u8]) -> usize
    requires { length line.now < length space.old }
    ensures { (result ≤ length space.new) × (length space.new ≡ length space.old) × (take result space.new ≡ remarked 0 line.now) }
{
    let n = line.len();
    match remark_at(line) {
        Some(at) => {
            put_remark(line, at, &mut space[..n + 1]);
            n + 1
        }
        None => {
            space[..n].copy_from_slice(line);
            n
        }
    }
}

// A line that is not one `%` and blanks, repaired, in front of a space.
fn repair_line(line: &[u8], space: &mut [u8]) -> Repair
    requires { (length line.now ≤ 256) × (length space.old ≡ 257) × (false ≡ lone_percent line.now) }
    ensures { Repaired line.now result space.new }
{
    let mut plain = [0u8; 257];
    let n = unremark(line, &mut plain);
    space[..n].copy_from_slice(&plain[..n]);
    flatten(&mut space[..n]);
    Repair {
        length: n,
        repairs: Repairs {
            percent: false,
            remark: changed(line, &plain[..n]),
            nested: changed(&plain[..n], &space[..n]),
        },
    }
}

// Whether a line is of right form and has at most 256 bytes.
fn is_right(line: &[u8]) -> bool
    ensures { (tree : List ℕ → Form Line) → Tells tree → result ≡ right tree line.now }
{
    reader::form(line).is_ok()
}

// One line mended into a space.
pub fn mend_line(line: &[u8], out: &mut [u8]) -> Result<Mended, NoSpace>
    ensures { MendsLine line.now out.old (leaves result out.new) }
{
    if is_right(line) {
        return Ok(Mended::Already);
    }
    if lone_percent(line) {
        return Ok(Mended::Better {
            length: 0,
            first: 1,
            repairs: Repairs {
                percent: true,
                remark: false,
                nested: false,
            },
        });
    }
    if 256 < line.len() {
        return Ok(Mended::Beyond);
    }
    let mut text = [0u8; 257];
    let repaired = repair_line(line, &mut text);
    let n = repaired.length;
    if !is_right(&text[..n]) {
        return Ok(Mended::Beyond);
    }
    if out.len() < n {
        return Err(NoSpace);
    }
    out[..n].copy_from_slice(&text[..n]);
    Ok(Mended::Better {
        length: n,
        first: first_difference(line, &text[..n]),
        repairs: repaired.repairs,
    })
}

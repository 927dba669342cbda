// The plain structs and enums that the rules of document 01 speak of. Their meaning is in specs/.
// Arrays by axis go X, Y, Z.
#![tactic(auto)]

ghost use Rattle.std.specs.Prelude.{◌≡◌};
ghost use Rattle.rules.specs.Named.{refusal_number};

// A whole number of ten-thousandths of a program unit.
#[derive(Clone, Copy)]
pub struct Value(pub i64);

// A whole number of counts of 10 nm.
#[derive(Clone, Copy)]
pub struct Length(pub i64);

// Why a line is refused. Each refusal is as long known by its number as by its name; the number is the order in which they are asked.
#[derive(Clone, Copy, PartialEq, Eq)]
pub enum Refusal {
    // The table has not 5,000 entries, or a field of the record is out of its range.
    Disorder = 1,
    // More than 256 bytes.
    LongLine = 2,
    // No derivation.
    WrongForm = 3,
    // Kept in the list; no line is refused with it.
    FineNumber = 4,
    // A value written, worked out or read from the table is out of range.
    OutOfRange = 5,
    // The divisor of `/` or MOD is zero.
    ZeroDivisor = 6,
    // A parameter number is not 1 to 4,999.
    NoParameter = 7,
    // A code is not served.
    NotServed = 8,
    // A letter or a group stands twice, or G0 to G3 beside G10 or G92.
    Doubled = 9,
    // A needed word is missing, or a word is idle.
    MissingOrIdle = 10,
    // A word has a value that it cannot have.
    WrongWord = 11,
    // The mode of motion does not allow it, or the feed is 0.
    WrongMode = 12,
    // A target, centre, origin or offset is out of reach.
    TooFar = 13,
    // An arc starts at its centre, or its radii differ too much.
    BadArc = 14,
    // The output is shorter than the commands.
    NoRoom = 15,
    // A value nests deeper than 24.
    TooDeep = 16,
}

impl Refusal {
    // The number by which the rules, the frames and C know it.
    pub fn number(self) -> u8
        ensures { result ≡ refusal_number self }
    {
        self as u8
    }
}

// What a value comes to when it is worked out: the value, or why the line is refused.
pub type Worked = Result<Value, Refusal>;

// What a session keeps from line to line. A mode is ten times its code: motion 800 is G80, system
// 591 is G59.1. Origins stand one after the other: the axes of G54, the axes of G55, and so on.
#[derive(Clone, Copy)]
pub struct Record {
    pub position: [Length; 3],
    pub origins: [Length; 27],
    pub offset: [Length; 3],
    pub motion: u16,
    pub plane: u16,
    pub distance: u16,
    pub units: u16,
    pub system: u16,
    pub feed: Length,
    pub speed: Value,
    pub tool: u8,
    pub spindle: u8,
    pub coolant: u8,
}

// A line's words by letter and its codes by group, in whatever order they were written. A code is ten
// times the code for G, the code itself for M.
#[derive(Clone, Copy)]
pub struct Block {
    pub axes: [Option<Value>; 3],
    pub offsets: [Option<Value>; 3],
    pub f: Option<Value>,
    pub s: Option<Value>,
    pub t: Option<Value>,
    pub l: Option<Value>,
    pub p: Option<Value>,
    pub once: Option<u16>,
    pub motion: Option<u16>,
    pub plane: Option<u16>,
    pub distance: Option<u16>,
    pub units: Option<u16>,
    pub system: Option<u16>,
    pub stop: Option<u16>,
    pub change: Option<u16>,
    pub spindle: Option<u16>,
    pub coolant: Option<u16>,
}

// Eight numbers: the kind and its seven fields.
#[derive(Clone, Copy)]
pub struct Command {
    pub kind: u8,
    pub fields: [i64; 7],
}

// What a line is answered with: accepted with its number of commands, refused, or skipped.
#[derive(Clone, Copy)]
pub enum Answer {
    Accepted(u64),
    Refused(Refusal),
    Skipped,
}

// The answer and the record as the line leaves it.
#[derive(Clone, Copy)]
pub struct Outcome {
    pub answer: Answer,
    pub rec: Record,
}

// All that a line reports: its outcome; how many values and operations were worked out, 0 unless it was accepted; and the place at
// which its form breaks, 0 unless it was refused with 3.
#[derive(Clone, Copy)]
pub struct Report {
    pub outcome: Outcome,
    pub work: u64,
    pub place: u64,
}

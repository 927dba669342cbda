// The text of frames (document 01, "Frames out").
#![tactic(auto)]

ghost use Rattle.std.specs.Prelude.{◌≡◌, ◌+◌, ◌-◌, ◌*◌, ◌≤◌, ◌<◌, ◌++◌, length, take, drop, Some};
ghost use Rattle.std.proofs.lemmas.List.Edits.{sets};
ghost use Rattle.grammar.specs.Bytes.{bytes};
ghost use Rattle.rules.specs.Frames.{hex, complement, fields_used, fields, frame as frameText, frames_in, refusal_frame};
ghost use Rattle.frames.specs.Text.{packed, frames_at, answer_frames, placed, laid};

use rules::Answer;

// The last eight digits of a number, a byte each, as one number: halves, quarters and digits are
// moved apart in it at once, and each digit from ten on carries into the bit above it when 6 is added.
fn packed_digits(number: u64) -> u64
    ensures { result ≡ packed 8 number }
{
    let last = number % 0x1_0000_0000;
    let low_half = last % 0x1_0000;
    let halves = low_half + (last - low_half) * 0x1_0000;
    let low_quarters = halves & 0xFF_0000_00FF;
    let quarters = low_quarters + (halves - low_quarters) * 0x100;
    let low_digits = quarters & 0xF_000F_000F_000F;
    let digits = low_digits + (quarters - low_digits) * 0x10;
    let letters = (digits + 0x606_0606_0606_0606 & 0x1010_1010_1010_1010) / 16;
    digits + 0x3030_3030_3030_3030 + letters * 7
}

// Puts the last digits of a number, at most eight, from a place on. The last digit comes first out
// of the number.
fn put_hex(number: u64, digits: usize, text: &mut [u8], at: usize)
    requires { (digits ≤ 8) × (at + digits ≤ length text.old) }
    ensures { text.new ≡ sets text.old at (hex digits number) }
{
    let mut rest = packed_digits(number);
    for left in (0..digits).rev() {
        text[at + left] = (rest % 256) as u8;
        rest /= 256;
    }
}

// Puts the ten digits of a field. The last eight come first, as one store of eight bytes.
fn put_field(number: u64, text: &mut [u8], at: usize)
    requires { at + 10 ≤ length text.old }
    ensures { text.new ≡ sets text.old at (hex 10 number) }
{
    put_hex(number, 8, text, at + 2);
    put_hex(number / 0x1_0000_0000, 2, text, at);
}

// A number in two's complement, in the forty bits of ten digits. Below zero, -1 - number has the
// complement of its bits, so that no cast here loses one.
fn forty_bits(number: i64) -> u64
    ensures { result ≡ complement number }
{
    if number < 0 {
        0xFF_FFFF_FFFF - (-1 - number) as u64 % 0x100_0000_0000
    } else {
        number as u64 % 0x100_0000_0000
    }
}

// How many fields a kind of command uses. Kinds stay numbers: they come from the lent numbers, so any is possible, and each of
// them has its fields by the definition `fields_used`.
fn fields_used(kind: u64) -> usize
    ensures { (result ≡ fields_used kind) × (result ≤ 7) }
{
    match kind {
        4 => 0,
        8 | 9 => 3,
        10 => 7,
        _ => 1,
    }
}

// Puts so many fields, which start at a place of the numbers, ten digits each. (Text and place stay two: a struct that holds a
// lent space has to promise in every clause that it still holds the same one.)
fn put_fields(out: &[i64], first: usize, many: usize, text: &mut [u8], at: usize)
    requires { (first + many ≤ length out.now) × (at + 10 * many ≤ length text.old) }
    ensures { text.new ≡ sets text.old at (fields (take many (drop first out.now))) }
{
    for j in 0..many {
        put_field(forty_bits(out[first + j]), text, at + 10 * j);
    }
}

// Puts the parts of a frame: the kind, so many fields, a line feed.
fn put_parts(kind: u64, out: &[i64], first: usize, many: usize, text: &mut [u8], at: usize)
    requires { (first + many ≤ length out.now) × (at + 3 + 10 * many ≤ length text.old) }
    ensures { text.new ≡ sets text.old at (hex 2 kind ++ fields (take many (drop first out.now)) ++ bytes "\n") }
{
    put_hex(kind, 2, text, at);
    put_fields(out, first, many, text, at + 2);
    text[at + 2 + 10 * many] = b'\n';
}

// How long the frame of the command at base is.
fn frame_size(out: &[i64], base: usize) -> usize
    requires { base + 8 ≤ length out.now }
    ensures { (result ≡ length (frameText (drop base out.now))) × (3 ≤ result) × (result ≤ 73) }
{
    3 + 10 * fields_used(forty_bits(out[base]))
}

// Puts the frame of the command at base, for which there is room, and tells the place after it.
fn put_frame(out: &[i64], base: usize, text: &mut [u8], at: usize) -> usize
    requires { (base + 8 ≤ length out.now) × (at + length (frameText (drop base out.now)) ≤ length text.old) }
    ensures { (result ≡ at + length (frameText (drop base out.now))) × (text.new ≡ sets text.old at (frameText (drop base out.now))) }
{
    let kind = forty_bits(out[base]);
    let many = fields_used(kind);
    put_parts(kind, out, base + 1, many, text, at);
    at + 3 + 10 * many
}

// How long the frames of the first commands are.
fn frames_size(out: &[i64], many: usize) -> usize
    requires { 8 * many ≤ length out.now }
    ensures { result ≡ length (frames_in many out.now) }
{
    let mut size = 0;
    for k in 0..many {
        size += frame_size(out, 8 * k);
    }
    size
}

// Puts the frames of the first commands, for which there is room.
fn put_frames(out: &[i64], many: usize, text: &mut [u8], at: usize)
    requires { (8 * many ≤ length out.now) × (at + length (frames_in many out.now) ≤ length text.old) }
    ensures { text.new ≡ sets text.old at (frames_in many out.now) }
{
    let mut to = at;
    for k in 0..many {
        to = put_frame(out, 8 * k, text, to);
    }
}

// Puts the frames of the commands of an accepted line. It tells the place after what is put; or None where nothing was put,
// since the commands are not all there or the text has no room for their frames.
fn accepted(many: usize, out: &[i64], text: &mut [u8], at: usize) -> Option<usize>
    ensures { (result ≡ placed (frames_at many out.now) text.old at) × (text.new ≡ laid (frames_at many out.now) text.old at) }
{
    if out.len() / 8 < many {
        return None;
    }
    let room = text.len().checked_sub(at)?;
    let size = frames_size(out, many);
    if room < size {
        return None;
    }
    put_frames(out, many, text, at);
    Some(at + size)
}

// Puts the frame of a refusal that has room. It is the number that is written, so it is taken as one.
fn put_refusal(number: u8, text: &mut [u8], at: usize)
    requires { at + 13 ≤ length text.old }
    ensures { text.new ≡ sets text.old at (refusal_frame number) }
{
    put_hex(0xFF, 2, text, at);
    put_field(number as u64, text, at + 2);
    text[at + 12] = b'\n';
}

// Puts the frame of a refusal.
fn refusal(number: u8, text: &mut [u8], at: usize) -> Option<usize>
    ensures { (result ≡ placed (Some (refusal_frame number)) text.old at) × (text.new ≡ laid (Some (refusal_frame number)) text.old at) }
{
    if text.len().saturating_sub(at) < 13 {
        return None;
    }
    put_refusal(number, text, at);
    Some(at + 13)
}

// Puts what is written for a line: the frames of its commands, or of its refusal, or nothing. It tells the place after it,
// or None where nothing was put for want of commands or of room.
pub fn answer_frames(answer: Answer, out: &[i64], text: &mut [u8], at: usize) -> Option<usize>
    ensures { (result ≡ placed (answer_frames answer out.now) text.old at) × (text.new ≡ laid (answer_frames answer out.now) text.old at) }
{
    match answer {
        Answer::Accepted(many) => accepted(many as usize, out, text, at),
        Answer::Refused(why) => refusal(why.number(), text, at),
        Answer::Skipped => accepted(0, out, text, at),
    }
}

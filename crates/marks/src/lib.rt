// Marks of a typed line.
#![tactic(auto)]

ghost use Rattle.std.specs.Prelude.{◌≡◌, not, ◌&&◌, drop};
ghost use Rattle.rules.specs.Promise.{unread, plain_mark, opens};
ghost use Rattle.marks.specs.Blanks.{past_blanks};

// The place of the first byte from here on that is no blank.
fn past_blanks(line: &[u8], at: usize) -> usize
    ensures { result ≡ past_blanks line.now at }
{
    for i in at..line.len() {
        if !text::bytes::is_blank(line[i]) {
            return i;
        }
    }
    line.len().max(at)
}

// Whether `[` is the first byte from here on that is no blank.
fn opens(line: &[u8], at: usize) -> bool
    ensures { result ≡ opens (drop at line.now) }
{
    let i = past_blanks(line, at);
    i < line.len() && line[i] == b'['
}

// Whether a mark stands first and bears no condition.
fn plain_mark(line: &[u8], mark: u8) -> bool
    ensures { result ≡ plain_mark mark line.now }
{
    let i = past_blanks(line, 0);
    i < line.len() && line[i] == mark && !opens(line, i + 1)
}

// A line that is skipped unread: marked `/` with the switch on, or `\` with the switch off.
pub fn unread(line: &[u8], switch: bool) -> bool
    ensures { result ≡ unread switch line.now }
{
    let mark = if switch { b'/' } else { b'\\' };
    plain_mark(line, mark)
}

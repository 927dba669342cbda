// The lines of a text that a line feed has ended.
ghost use Rattle.std.specs.Prelude.{◌≡◌};
ghost use Rattle.mend.specs.Joining.{ended_lines};

// How many bytes the lines of a text have that a line feed has ended.
pub fn ended_lines(text: &[u8]) -> usize
    ensures { result ≡ ended_lines text.now }
{
    for i in (0..text.len()).rev() {
        if text[i] == b'\n' {
            return i + 1;
        }
    }
    0
}

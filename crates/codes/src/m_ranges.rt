// The modal group of each M code.
ghost use Rattle.std.specs.Prelude.{◌≡◌};
ghost use Rattle.rules.specs.Codes.{m_group, served};

// The group of an M code, by ranges of the code, where the code is served.
pub fn m_group(code: u16) -> Option<u8>
    ensures { result ≡ served (m_group code) }
{
    match code {
        0..=2 | 30 => Some(4),
        3..=5 => Some(7),
        6 => Some(6),
        7..=9 => Some(8),
        _ => None,
    }
}

// G and M codes: the code that a value stands for, the modal group of each code, and the work system that a code selects.
#![tactic(auto)]

ghost use Rattle.std.specs.Prelude.{◌≡◌};
ghost use Rattle.rules.specs.Codes.{g_code, m_code, code_up_to, numbered, system_number};

mod g_table;
mod m_ranges;
mod modes;

pub use g_table::g_group;
pub use m_ranges::m_group;
pub use modes::modes_served;
use rules::Value;

// The code that a value after G counts as: ten times the code, at the nearest tenth. None where the table has no such entry.
#[tactic(auto, unfolding(rules::specs::Codes::g_code))]
pub fn g_code(v: Value) -> Option<u16>
    ensures { result ≡ g_code v.0 }
{
    code_up_to(999, value::tenth(v))
}

// The code that a value after M counts as, at the nearest whole number. None where the table has no such entry.
#[tactic(auto, unfolding(rules::specs::Codes::m_code))]
pub fn m_code(v: Value) -> Option<u16>
    ensures { result ≡ m_code v.0 }
{
    code_up_to(99, value::whole(v))
}

fn code_up_to(last: u16, near: Option<i64>) -> Option<u16>
    ensures { result ≡ code_up_to last near }
{
    let n = near?;
    if n < 0 || (last as i64) < n {
        return None;
    }
    Some(n as u16)
}

// The work system of a code, counted from 1: G54 is 1, G59.3 is 9. A code may be no work system.
#[tactic(auto, unfolding(rules::specs::Codes::system_number))]
pub fn system_number(code: u16) -> Option<u8>
    ensures { result ≡ numbered (system_number code) }
{
    match code {
        540 => Some(1),
        550 => Some(2),
        560 => Some(3),
        570 => Some(4),
        580 => Some(5),
        590 => Some(6),
        591 => Some(7),
        592 => Some(8),
        593 => Some(9),
        _ => None,
    }
}

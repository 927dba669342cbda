// A word of a line, as it is filed.
ghost use Rattle.std.specs.Prelude.{◌≡◌, ◌<◌, unwrap_or};
ghost use Rattle.rules.specs.Codes.{not_served};
ghost use Rattle.summary.specs.Keys.{entry_of, code_entry};

use rules::Value;

// A word by its key: the value of a word, the code of a code. Keys of letters are below 32, those of G groups from 32 and those of M groups from 48.
#[derive(Clone, Copy)]
pub(crate) struct Entry {
    pub key: u8,
    pub value: i64,
}

// The code's group is looked up here, once.
pub(crate) fn entry_of(letter: u8, value: i64) -> Entry
    ensures { result ≡ entry_of (record { letter = letter; value = value }) }
{
    match letter {
        b'G' => {
            let code = codes::g_code(Value(value));
            code_entry(32, code, code.and_then(|code| codes::g_group(code)))
        }
        b'M' => {
            let code = codes::m_code(Value(value));
            code_entry(48, code, code.and_then(|code| codes::m_group(code)))
        }
        _ => Entry {
            key: letter % 32,
            value: value,
        },
    }
}

// 15 is the key of codes that are not served.
fn code_entry(base: u8, code: Option<u16>, group: Option<u8>) -> Entry
    requires { base < 64 }
    ensures { result ≡ code_entry base (unwrap_or group not_served) code }
{
    Entry {
        key: base + group.unwrap_or(15) % 16,
        value: code.unwrap_or(0) as i64,
    }
}

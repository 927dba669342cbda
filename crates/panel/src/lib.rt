// What the panel, written in C, links: two numbers for the bytes typed, for length and form only.
// include/rs274_panel.h declares it for C.
#![tactic(auto)]

ghost use Rattle.std.specs.Prelude.{◌≡◌};
ghost use Rattle.grammar.specs.Derivation.{ByForm};
ghost use Rattle.rules.specs.Promise.{panel, panel_place};
ghost use Rattle.reader.specs.Reading.{form_number, form_place};

use reader::FormError;

// The number is 0 where the line is of right form, 2 where it has more than 256 bytes, 3 where it has no
// derivation. With 3 the place says where the form breaks: how many bytes of the line, as typed, some
// line of right form also begins with. With any other number it is 0.
#[repr(C)]
#[derive(Clone, Copy)]
pub struct Rs274FormAnswer {
    pub number: u32,
    pub place: u64,
}

// What C is told of a form check.
fn told(form: Result<(), FormError>) -> Rs274FormAnswer
    ensures { result ≡ record { number = form_number form; place = form_place form } }
{
    match form {
        Ok(()) => Rs274FormAnswer {
            number: 0,
            place: 0,
        },
        Err(FormError::TooLong) => Rs274FormAnswer {
            number: 2,
            place: 0,
        },
        Err(FormError::BreaksAt(place)) => Rs274FormAnswer {
            number: 3,
            place: place as u64,
        },
    }
}

#[unsafe(no_mangle)]
pub extern "C" fn rs274_form(line: &[u8]) -> Rs274FormAnswer
    ensures { ByForm line.now (λ f. record { number = panel line.now f; place = panel_place line.now f }) result }
{
    told(reader::form(line))
}

// Reads one line: from any bytes to the words and settings of the line's one derivation, in order and
// with their values. The line is prepared once and then read in one pass, which works the values out as
// it goes. A value that is refused does not end the pass: the form is read on, so that a wrong form,
// wherever it stands, comes before too deep a nesting, and that before the numbers 5 to 7.
#![tactic(auto)]

mod answer;
mod cursor;
mod items;
mod label;
mod line;
mod mark;
mod numbers;
mod passage;
mod spaces;
mod spelling;
mod terms;
mod values;

pub use answer::{FormError, Read, Unread};
pub use label::line_number;
pub use line::{form, read};
pub use spaces::Spaces;

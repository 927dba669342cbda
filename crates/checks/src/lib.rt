// What a line asks for and what its words lack, told from its summary and a mode or two, before the
// record is worked.
#![tactic(auto)]

mod marks;
mod mode;
mod words;

pub use marks::{arc_move, claims_axes, ends, moves, moving_code, plane_axes};
pub use mode::wrong_mode;
pub use words::early;

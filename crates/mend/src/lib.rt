// Old programs mended (request 13): a line by its three repairs in their order, and whole texts line by line.
#![tactic(auto)]

mod cutting;
mod line;
mod repairs;
mod whole;

pub use cutting::ended_lines;
pub use line::{Mended, NoSpace, Repairs, mend_line};
pub use whole::{Tally, mend};

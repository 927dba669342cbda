// Parameter files (document 02, request 8): a file of the NGC kind is read into a session's record and table, and written
// from them. What a file says is in specs/, what follows from that in proofs/.
#![tactic(auto)]

mod accepted;
mod lines;
mod load;
mod numerals;
mod places;
mod refusal;
mod save;

pub use load::{read, refused_line};
pub use refusal::FileRefusal;
pub use save::write;

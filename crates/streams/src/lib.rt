// How a program reads its input, piece by piece or as a whole, and what it says where it cannot go on.
#![tactic(auto)]

mod failure;
mod reading;

pub use failure::Failure;
pub use reading::{next_piece, read_whole};

#[cfg(test)]
mod tests;

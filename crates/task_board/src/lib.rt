//! Rows of tasks that any seat may claim.
//!
//! A `Board` is seen as its rows in the order of their numbers, the next number, and how many rows more it takes
//! without memory. A row has a number, the block that it is of, the work that was posted, and how it stands: it
//! waits, a seat holds it, or it is done with a result. No number is given twice, and no block has two rows. It
//! doesn't know what work and results are, which blocks there are, or who sits where; a seat that goes is given up by
//! `lose`, which the board doesn't do by itself. The layer above uses the contracts of `claim`, `settle`, `lose` and
//! `post`, which say the whole table.
#![tactic(auto)]

mod board;
mod slot;
mod standing;
#[cfg(test)]
mod tests;
mod tournament;

pub use board::{Board, Settled};
pub use standing::Standing;

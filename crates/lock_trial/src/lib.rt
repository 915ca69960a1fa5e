//! The least that stands behind the lock: a list of notes, and threads that write them.
//!
//! A note names the seat that wrote it. `write_note` adds one in a holding, `try_note` the same with one try,
//! and `write_beside` runs writers in threads beside the first seat, takes all seats back and closes the lock.
//! No program uses this crate. It shows that the contracts of doc_lock are enough for a caller, it carries
//! the edits that are a caller's mistakes, and its tests run the lock with real threads.
#![tactic(auto)]

mod notes;
#[cfg(test)]
mod tests;
mod threads;
mod writing;

pub use notes::{Note, Notes};
pub use threads::write_beside;
pub use writing::{try_note, write_note};

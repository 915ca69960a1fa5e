//! The live sentences of a document, by their ids.
//!
//! A `Store` keeps the line of ids with its cursor and its zone (vcs_graph), and of each id its sentence, whether its
//! verdict was told, and that verdict's text. Contracts see doc_theory's document, in which nothing is told inside of
//! delegated blocks, and the verdicts that were told. A sentence is added at the cursor by the rules of the document,
//! removed with what has to go with it, or told. What a sentence does when it is checked, what a command answers, and
//! the tasks are not here. The layer above uses the contracts of `attempt`, `remove` and `tell`.
#![tactic(auto)]

mod slots;
mod store;
#[cfg(test)]
mod tests;

pub use edit_core::{Edited, Removal};
pub use slots::Slot;
pub use store::{Store, Tried};

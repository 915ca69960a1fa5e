//! The history of a session: what it did, in order.
//!
//! A `History` is a list of entries with a spare: room for so many entries more, which go in without memory. An entry
//! keeps the request that was answered, how far that went, and its lines. Contracts see entries as the events of
//! doc_theory, by `event`, and a history as the list of them beside its spare. Which histories are legal isn't here.
//! The layer above uses `reserve` and `push_reserved`.
#![tactic(auto)]

mod entry;
mod history;

pub use entry::{Cut, Entry, Lines};
pub use history::History;

//! The document: what it answers to requests, with the history of that.
//!
//! A `Document` holds sentences in order and the history of what was asked and answered. Contracts see its history with
//! the spare, and its limit of sentences; that the history is legal and that the sentences are those which it has led to
//! stands in the invariant. The rules are doc_theory's. Add without `ontop` and `lim` and Quit are built so far, and of
//! sentences declarations and definitions, which are added unchecked; the others are answered Unsupported (specs/Answers).
//! Reading input and the loop that serves it aren't here. The layer above uses `Document::command`.
#![tactic(auto)]

mod add;
mod answer;
mod document;
mod laws;
mod reply;
mod script;

pub use document::{Document, Done, LIVE_LIMIT};
pub use laws::{histories_go_on, history_is_answered, what_is_built_is_the_theory};

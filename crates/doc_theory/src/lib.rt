//! A document of proof scripts, the table of its tasks and its histories, as definitions, and the theorem over them.
//!
//! No code runs here. specs/ has the document (entries with ids and told flags over the shape of line_theory), its
//! edits, what is asked of the check of a sentence, the answer to each request in lines of the protocol, the table
//! of tasks with the histories of commands, claims, results and losses, and what they render. The logic isn't here:
//! a sentence's check is a record of a first state, of `one` and of a few laws, and a text is cut by that record
//! too. A law is a public function of this crate with nothing in its body. The layer above cites `one_thread`,
//! `late_results` and `joined_at_the_end`.
#![tactic(auto)]

mod line;
mod marks;
mod numbers;
mod rows;
mod shape;
mod theorem;

pub use line::{line_changes_at_one_place, removal_is_an_edit};
pub use marks::{document_is_a_list, told_verdicts_stay};
pub use numbers::{histories_go_on, numbers_are_counted};
pub use rows::{answers_are_computed, histories_are_computed};
pub use shape::documents_are_lines;
pub use theorem::{joined_at_the_end, late_results, one_thread};

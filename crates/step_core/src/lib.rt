//! What a sentence does when it is checked.
//!
//! `Standing0` is what checking keeps between sentences: an environment and perhaps an open proof, whose goals are those of
//! a tree of the kernel's rules for its statement. `one` checks a sentence in it: the verdict and the next state are those
//! of script_theory's `one`. `skip` leaves what a closer leaves where its proof isn't checked. A `Verdict`, a declaration
//! and the goals have texts (`verdict_text`, `decl_text`, `goals_text`). There is no document here. The layer above uses
//! the contracts of `one`, of `skip` and of the texts.
#![tactic(auto)]

mod back;
mod check;
mod closer;
mod declare;
mod goals;
mod inner;
mod lemma;
mod proof;
mod refusal;
mod standing;
#[cfg(test)]
mod tests;
mod text;
mod verdict;

pub use back::stated_text_reads_back;
pub use check::one;
pub use goals::goals_text;
pub use standing::{Short, Standing0};
pub use text::decl_text;
pub use verdict::{Fault, Verdict, verdict_text};

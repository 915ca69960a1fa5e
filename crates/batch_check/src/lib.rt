//! Checking a text from its first sentence to its last.
//!
//! `vcheck_main` reads a text to its end, checks its sentences one after another, and writes what is declared behind
//! them, the faults, and where checking stopped, if it did. Its contract is one word, `IsBatch`, the last of
//! specs/Headline.antt. `check_text` is the check of a text that was read. Sentences are cut by vern_lex, read by
//! vern_step and checked by step_core: nothing of their rules is here. The layer above uses `vcheck_main`.
#![tactic(auto)]

mod answer;
mod checked;
mod input;
mod laws;
mod report;
mod run;
mod span;
mod status;
mod stop;
mod top;

pub use checked::{Checked, FaultLine, check_text};
pub use input::INPUT_LIMIT;
pub use laws::{good_closers_have_derivations, no_sentence_is_out_of_place};
pub use run::SENTENCE_LIMIT;
pub use status::{BAD_WORDS, CLEAN, FAULTY, NO_MEMORY, READ_FAULT, TOO_LONG, WRITE_FAULT};
pub use stop::{Stop, StopKind};
pub use top::{BatchEnd, vcheck_main};

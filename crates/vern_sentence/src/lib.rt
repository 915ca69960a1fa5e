//! The grammar of sentences as definitions, the function that reads it, and their laws.
//!
//! No code runs here. specs/ has the trees (`Sentence`, `Refinement`), the grammar as a relation on whole lists of
//! tokens with one row for each form (`IsSentence`), and a function that gives the one tree or the tokens from the
//! faulty one on (`sentence_reading`): the first token says what may follow (`following`, a `Pattern`), and parts of
//! any length (`Slot`) are read by machines that take one step for each token. Expressions and shapes are
//! vern_grammar's. vern_parse has the Rust types of trees and the code.
#![tactic(auto)]

mod faults;
mod function;
mod names;
mod trees;

pub use faults::each_sentence_has_a_tree_or_a_fault;
pub use function::the_function_reads_the_grammar;
pub use names::names_are_names_of_the_tokens;
pub use trees::each_sentence_has_one_tree;

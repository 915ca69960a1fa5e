//! The grammar of expressions and shapes as definitions, the machine that reads it, and their laws.
//!
//! No code runs here. A token is a `Lexeme`: its kind as the grammar sees it, with a name's text, and its span;
//! `lexemes` makes them of vern_lex's tokens. specs/ has the trees (`Expression`, `Shape`), the table of the
//! operators' levels, the grammar as relations on whole lists of tokens (`IsExpression`, `IsShape`), faults
//! (`IsFault`), and the machine, which takes one step for each token. A law that is a public contract stands on a function of this crate
//! with nothing in its body; the lemmas that prove them stand in proofs/ and are cited from there.
//! vern_parse has the Rust types of trees and the code; whole sentences aren't here.
#![tactic(auto)]

mod faults;
mod machine;
mod reach;
mod spans;
mod trees;

pub use faults::{each_expression_has_a_tree_or_a_fault, each_shape_has_a_tree_or_a_fault};
pub use machine::the_machine_reads_the_grammar;
pub use reach::quantifiers_reach_far;
pub use spans::spans_are_those_of_the_tokens;
pub use trees::each_has_one_tree;

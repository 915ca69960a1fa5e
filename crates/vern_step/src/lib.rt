//! What a sentence of the vernacular is and does.
//!
//! A `Sentence` holds the bytes of a sentence and its tree, which is the one that parsing gives to them, and tells
//! where it stands in a document (`Kind`). What it does isn't built yet. There is no document here, and no offset but
//! those within one sentence. The layers above use `Sentence::read` and `parsed`, its answer as a definition.
#![tactic(auto)]

mod kind;
mod sentence;
#[cfg(test)]
mod tests;

pub use kind::Kind;
pub use sentence::{Sentence, parsing_is_by_the_grammar};
pub use vern_parse::{Closer, ParseFault, Raw};

//! Printing formulas and terms as definitions, and the laws that what is printed reads back.
//!
//! No code runs here. A printed text is the spelling of a list of the grammar's own tokens. specs/ has the names that
//! bound variables are printed with (Names), formulas and terms as lists of tokens (Printing), tokens as bytes with
//! the blanks between them (Spelling), the trees of printed formulas (Trees), what it is that a text reads back
//! (Reading), which names can't be mistaken for a variable's (Apart), and what a text is typed as (Typed). The laws are
//! contracts of functions with nothing in their bodies; term_print has the code, whose text is `formula_text`, and
//! cites `printed_text_reads_back` and `printed_text_is_typed_back`.
#![tactic(auto)]

mod names;
mod sentences;
mod texts;
mod typing;

pub use names::{picked_names_are_new, printed_names_tell_their_variables};
pub use sentences::printed_sentences_read_back;
pub use texts::{printed_text_reads_back, spelled_text_has_its_tokens};
pub use typing::printed_text_is_typed_back;

//! S-expressions as definitions, and the laws that the crates above cite.
//!
//! No code runs here but that of two small enums. specs/ has values as a data type (Values); which bytes spell a
//! value, by recursion on the value (Spelling); what a whole text has first, with each bad place (Places), and its
//! items (ItemWords); the text that a value is written as (Writing); and, for the contracts of code, the same computed
//! byte by byte (Machine, Items). A law that is a public contract stands on a function of this crate with nothing in
//! its body: `reading_is_computed` and `items_are_computed` join the words of the format to what is computed, both
//! ways, and `written_values_are_read_again` is the round trip. The lemmas that prove them stand in proofs/ and are
//! cited from there. The Rust types of values and the reader are those of sexp_core. The format is told in
//! docs/PROTOCOL.md.
#![tactic(auto)]

mod input;
mod items;
mod pieces;
mod reads;
mod round_trip;

pub use input::{BadKind, InputEnd};
pub use items::items_are_computed;
pub use pieces::pieces_are_read_as_one;
pub use reads::reading_is_computed;
pub use round_trip::{
    read_values_may_be_written, texts_are_lines_of_one_value, texts_spell_their_values,
    written_values_are_read_again,
};

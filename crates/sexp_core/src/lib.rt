//! Values, and the items of an input.
//!
//! A `Sexp` is an atom, which is a list of bytes, or a list of values; contracts see the value of sexp_theory that
//! it stands for, `meaning`. A `Reader` is fed an input in any pieces and gives its items, values and bad places,
//! as sexp_theory defines them; contracts see the bytes that are in no item yet (specs/Readers.antt). Inside it a
//! `Machine` takes the bytes of an item one after another as the definition's `step` does, and `scan` goes on where
//! the last look ended. `write` puts the text of a value to an `Out`, `put_atom` that of an atom of given bytes, and
//! `read_text` reads a value's text alone back. What a value means as a command isn't known here. The layers above use
//! `Reader` to read their input, `put_atom` to write lines from borrowed parts, and `read_text` to read a line back;
//! `write` is used here alone, by `read_text`.
#![tactic(auto)]

mod item;
mod machine;
mod mode;
mod read_back;
mod reader;
mod scan;
mod sexp;
#[cfg(test)]
mod tests;
#[cfg(test)]
mod write_tests;
mod writer;

pub use item::{Finish, Item};
pub use read_back::read_text;
pub use reader::Reader;
pub use sexp::{Sexp, Sexps, values_are_of_bytes};
pub use sexp_theory::{BadKind, InputEnd};
pub use writer::{put_atom, write};

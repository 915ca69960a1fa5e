//! The items of an input, and how it ends.

use crate::sexp::Sexp;
use sexp_theory::{BadKind, InputEnd};

/// One value of the input, or a place where it is no value.
#[derive(Debug, Drop)]
pub enum Item {
    /// A value, with the offset of its first byte and of the byte behind its last, in all bytes fed.
    Value(Sexp, u64, u64),
    /// A bad place: its position, an offset in all bytes fed, and its kind (docs/PROTOCOL.md, "S-expressions").
    Bad(u64, BadKind),
}

/// What is left to say once the whole input was fed.
#[derive(Debug, Drop)]
pub struct Finish {
    /// An atom without quotes that the input ends with: it is whole only now.
    pub last: Option<Item>,
    /// Whether the input ends inside an item.
    pub ended: InputEnd,
}

//! Typing: from the trees of expressions and sentences to terms, formulas and declarations, or the first fault;
//! definitions and laws.
//!
//! No code runs here. specs/ has what a name stands for (Locals), expressions (Expressions), shapes and sentences
//! (Sentences), the faults with their spans (Faults), and the size of a typed formula told by its tree alone (Sizes).
//! Limits are not looked at: a typed formula may be too large, which is asked of it afterwards. A law is a public
//! function of this crate with nothing in its body; the layer above cites `expressions_are_typed` and
//! `sentences_are_admitted`.
#![tactic(auto)]

mod typing;

pub use typing::{expressions_are_typed, sentences_are_admitted};

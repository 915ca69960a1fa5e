//! Typing: from trees of the grammar to terms and formulas.
//!
//! An expression is gone through three times: for its first fault, for the size of what it stands for, and, where it
//! has no fault and is within the limits, to build that. Each pass meets a definition of its own in specs/, and
//! proofs/ join the three to `formula_of` and `term_of` of elab_theory. Nothing here knows proofs or normal forms. The
//! crates above use the contracts of `formula` and `term`.
#![tactic(auto)]

mod build;
mod check;
mod define;
mod fault;
mod scope;
mod sentence;
mod shape;
mod size;
mod typing;

pub use check::span_of_tree;
pub use fault::ElabFault;
pub use scope::name_of;
pub use sentence::{declaration, definition, statement};
pub use typing::{formula, term};

//! Printing of formulas and terms.
//!
//! `show` and `show_term` give the text of a formula and of a term, which is print_theory's `formula_text` and
//! `term_text`; that it reads back as the formula is proved there, over the definitions alone, and stands on these
//! calls as a clause. One pass over the formula writes its tokens one after the other (`Text`), with the names of the
//! binders that are open (`Scope`). Nothing here knows declarations or goals. The crates above use `show_with`, which
//! asks whether a name is taken, where they have an index of the names.
#![tactic(auto)]

mod operators;
mod printing;
mod scope;
#[cfg(test)]
mod tests;
mod text;

pub use printing::{show, show_term, show_with};

//! Quantifiers and premises taken off a formula, whether what is left fits a goal, and the rules that lead there.
//!
//! `Strip` is what is left of a formula behind some strips: the sorts of the variables that are open, the premises that were
//! taken off, and the rest. `fitting` finds the least number of strips behind which the normal form of the rest, with terms for
//! its open variables, is that of a goal; `equation` the least one behind which the head form of the rest is an equation.
//! `descend` makes the rules of the kernel that lead from what is left, with these terms, to the formula itself and to the
//! premises. The words are tactic_theory's. Nothing here looks a name up or knows a state. The refinements use `fitting` for
//! `apply`, `equation` for `rewrite`, and `descend` for both.
#![tactic(auto)]

mod copy;
mod draft;
mod find;
mod strip;
mod target;
mod tree;

pub use find::{equation, fitting};
pub use strip::Strip;
pub use tree::{Descent, Route, descend};

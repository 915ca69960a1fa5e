//! The refinement sentences of logic: introductions, evidence, the goal's form, cases, and what is asserted or cleared.
//!
//! Each row of tactic_theory's table is a function that answers an opening of the first focused goal, or its first fault
//! (`Answers` of tac_base). `run` finds the row of a refinement and puts what it makes into the state. Nothing here knows
//! equality: its refinements are those of tac_eq. The crate above uses the contract of `run`.
#![tactic(auto)]

mod apply;
mod assert;
mod destruct;
mod dispatch;
mod exact;
mod form;
mod intro;
mod intros;
mod named;

pub use dispatch::run;

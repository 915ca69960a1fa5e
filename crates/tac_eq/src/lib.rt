//! The refinement sentences of equality, and unfolding.
//!
//! Each row of tactic_theory's table is a function that answers an opening of the first focused goal, or its first fault
//! (`Answers` of tac_base). `run` finds the row of a refinement and puts what it makes into the state. The other
//! refinements are those of tac_core. The crate above uses the contract of `run`.
#![tactic(auto)]

mod dispatch;
mod equation;
mod exchange;
mod expand;
mod mention;
mod rewrite;
mod unfold;

pub use dispatch::run;

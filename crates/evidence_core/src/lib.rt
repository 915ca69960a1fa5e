//! Evidence as it is written, with the tree of rules that shows what it does.
//!
//! Evidence is a hypothesis or a Stated declaration, applied to terms and to other evidence; it stands in an expression
//! of the grammar. `evidence` answers what it shows in a context: an `Evidence` has that formula, the tree of the
//! kernel's rules that proves it, and the pairs of formulas that have to be the same for that; or its first fault. The
//! words are those of tactic_theory, and the tree is a function of the evidence alone (specs/Trees). Nothing here
//! decides whether two formulas are the same, or knows a goal. The layer above uses the contract of `evidence`.
#![tactic(auto)]

mod apply;
mod draft;
mod laws;
mod place;
mod read;
mod shown;
mod start;

pub use laws::evidence_has_a_tree;
pub use read::evidence;
pub use shown::{Evidence, Pair, Pairs};

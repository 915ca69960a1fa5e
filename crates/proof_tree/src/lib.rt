//! Trees of the kernel's rules, with open leaves.
//!
//! A `Tree` is the list of its rules in preorder, and stands for the theory's list of rules, by `meanings` of specs/.
//! It keeps its rules behind shared links, so that a copy is a count or two, and a part put in at the first leaf costs
//! its own rules and, where it has no leaf, those up to the next one. `goals` are the sequents of a tree's open leaves,
//! with names. Nothing here knows an environment, or whether a rule may be used. The crates above use the contracts of
//! `Tree` and `goals`.
#![tactic(auto)]

mod chain;
mod children;
pub mod formulas;
mod labels;
mod laws;
mod rule;
mod stack;
#[cfg(test)]
mod tests;
mod tree;
mod walk;

pub use children::push_children;
pub use laws::what_follows_the_rules_has_goals;
pub use rule::Rule;
pub use tree::Tree;
pub use walk::goals;

//! Checking trees of the kernel's rules.
//!
//! `check` answers whether a tree is a proof of a sequent by logic_theory's rules, whatever the tree: rules that are
//! missing or left over, formulas that are ill formed and open leaves are refused, and nothing is asked of the tree
//! beforehand. It goes through the rules with a stack of sequents, so that no call recurses on a tree's height: each
//! rule is tested at the sequent on top, and proof_tree's step puts its children there. Where it answers yes, the
//! sequent has a derivation.
#![tactic(auto)]

mod follow;
mod rules;
mod site;

pub use follow::check;

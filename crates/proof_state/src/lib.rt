//! States of open proofs: the focused goals, the bullets and braces with the goals behind them, and the tree of the
//! kernel's rules that led there.
//!
//! A `State` stands for tactic_theory's state (`state_of` of specs/) and for the rules of its tree (`rules_of`), which
//! has one open leaf for each goal. Goals and frames are shared lists, so that a copy is a few counts, and a step costs
//! what it changes. Nothing here knows what a refinement sentence does: `refine` takes the part of a tree that it made.
//! The crates above use the contracts of `State`, and `Fits`: the tree follows the kernel's rules from a goal over an
//! environment, and leaves the state's goals open.
#![tactic(auto)]

mod bullet;
mod fault;
mod frames;
mod goals;
mod sequents;
mod state;
#[cfg(test)]
mod tests;

pub use bullet::Bullet;
pub use fault::BulletFault;
pub use sequents::{Item, Sequents};
pub use state::{State, names_of};

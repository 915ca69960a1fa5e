//! Environments: declarations in order, found by name.
//!
//! An `Env` is seen as the list of its declarations, the newest first, each of which is well formed over those
//! before it; the words are those of env_theory. It keeps its declarations in layers that copies share, so that a
//! `snapshot` takes as many counts as there are layers, and `find` looks a name up once in each. Nothing here reads
//! a sentence or makes a normal form. `Tally` is what is counted of normal forms, `Sorts` the sorts that a name's
//! arguments have.
#![tactic(auto)]

mod declaration;
mod entries;
mod entry;
mod env;
mod head;
mod layer;
mod sizes;
mod sorts;
mod summary;
mod tally;
#[cfg(test)]
mod tests;
mod uses;

pub use declaration::{Decl, Parameter, Params};
pub use entry::Definition;
pub use env::Env;
pub use sorts::Sorts;
pub use tally::Tally;

//! The line of live ids with its cursor, its zone and its blocks.
//!
//! The items stand in one vector, each with a vector of its own for what is inside, so that a zone changes one item and moves nothing
//! else; a map leads from each id to its place, which never changes while the id is in the line.
#![tactic(auto)]

mod cut;
mod ending;
mod forget;
mod graph;
mod list;
mod place;
mod segment;
mod site;
mod sizes;
mod table;

pub use graph::{Block, Branch, Graph};
pub use site::Site;

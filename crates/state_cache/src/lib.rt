//! The states that are kept by id, so that what was checked isn't checked again.
//!
//! A `StateCache` is seen as the list of its ids with their states, the id that was kept or found last at the
//! front, and its capacity. What stands at the end of a full list goes when another id is kept. It doesn't know
//! what a state is, nor which ids are live: whoever keeps a state drops its id when it is no longer true. The layer
//! above uses the contracts of `keep`, `find` and `drop_id`, which say the whole list.
#![tactic(auto)]

mod cache;
#[cfg(test)]
mod tests;

pub use cache::StateCache;

//! What is left of a formula behind some strips.
use term_core::{Formula, Names};

/// Formulas in order.
pub type Formulas = Vec<Formula>;

/// What is left of a formula behind some strips. The variables of `premises` and of `rest` are the open ones, the newest
/// first, as many as `sorts`, and then those of the context.
#[derive(Drop)]
pub struct Strip {
    /// The sorts of the open variables, the oldest first.
    pub sorts: Names,
    /// The premises that were taken off, in order.
    pub premises: Formulas,
    /// What is left.
    pub rest: Formula,
}

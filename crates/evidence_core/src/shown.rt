//! What evidence comes to.
use proof_tree::Tree;
use term_core::Formula;

/// Two formulas that have to be the same: the premise of an implication, and what is shown for it.
#[derive(Drop)]
pub struct Pair {
    pub premise: Formula,
    pub given: Formula,
}

/// Pairs in the order of the arguments, those within an argument before its own.
pub type Pairs = Vec<Pair>;

/// What evidence shows: a formula, under the variables of the context; the tree of rules that shows it where the
/// formulas of each pair are the same; and, where the evidence is a hypothesis alone, the number of that hypothesis,
/// counted from the oldest, from 0.
#[derive(Drop)]
pub struct Evidence {
    pub formula: Formula,
    pub tree: Tree,
    pub must: Pairs,
    pub hypothesis: Option<u64>,
}

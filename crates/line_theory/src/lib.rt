//! The line of a document: ids in order, in blocks, with a cursor among them, as definitions and laws.
//!
//! No code runs here. specs/ has the shape, over any type of entry and of closer (items, each a lone entry or a
//! closed block, and a focus behind them: the end, perhaps with a block that is still open, or a zone inside of a
//! closed block); over ids the flat list, each change of it, and where an id stands; and the edit at an id, the
//! removal of one, and Cancel. What an entry says, and whether it was told, stands in the document's theory, over
//! the same shape. A law is a public function of this crate with nothing in its body.
//! The layer above cites `each_change_is_at_one_place` and `edits_and_removals_cut`.
#![tactic(auto)]

mod changes;
mod edits;

pub use changes::{
    a_line_is_two_lists, each_change_is_at_one_place, folding_keeps_the_line, ids_stay_distinct,
};
pub use edits::{a_removal_is_the_edit_before, edits_and_removals_cut};

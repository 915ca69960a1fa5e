//! Edits and Cancel on the graph of states, at a cost that goes with what they remove and not with the line.
//!
//! A graph is seen as a line: ids in order, in blocks, with a cursor among them. An edit cuts the line behind an id, or opens a zone
//! there; a Cancel removes ids one after the other; and a step adds one id at the cursor, or closes the zone. What each makes of the
//! line, and how it is told, is the line's own theory. Sentences, verdicts and told flags are not here.
//! The layer above uses the contracts of `edit_at`, `remove`, `cancel`, `add_at_cursor` and `close_zone`.
#![tactic(auto)]

mod add;
mod edit;
mod removal;

pub use add::{Step, add_at_cursor, close_zone};
pub use edit::{Edited, Edits, edit_at};
pub use removal::{Cancelled, Removal, cancel, remove};

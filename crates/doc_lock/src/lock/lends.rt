//! The state of a holding, lent.
ghost use Rattle.std.specs.Prelude.{◌≡◌, [], ◌∷◌};
ghost use Rattle.std.specs.Borrow.{Lends, sem};
ghost use Rattle.doc_lock.specs.Told.{with_state};
ghost use mir.Syntax.{named};
ghost use Rattle.doc_lock.specs.contracts.lock.Held.{the_row};

use super::Held;
use crate::guarded::Guarded;

// The holder: it reads and changes the state.

impl<S: Guarded> Held<'_, S> {
    /// The state, to read and to change. What is written through it is what `give_back` gives.
    pub fn state(&mut self) -> &mut S
        ensures* writes_back { sem 𝓛 (Lends (the_row (record { mir = named 1; lft = [] }) S.row S.Entry.row S.Origin.row S.Guarded) S.row
            self.entry result (with_state self.old)) }
        ensures value { result.now ≡ self.old.state }
    {
        &mut self.state
    }
}

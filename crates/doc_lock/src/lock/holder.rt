//! What the seat does that holds the state.
ghost use Rattle.std.specs.Prelude.{◌≡◌, ◌⊎◌, ℕ, true, false, [], ◌∷◌, Some, None};
ghost use Rattle.doc_lock.specs.Lists.{Adds};
ghost use Rattle.doc_lock.specs.Told.{IsBeside, IsWith, given_back};

use super::{FLAG, Held, LENGTH, PlaceOf, STATE, Seat, SharedOf};
use crate::guarded::Guarded;
use crate::plays::{Free, Publish};

// The state goes into the slot, its length is published, and the flag is freed. What a seat has seen by then is
// read off the slot, so the state goes in first.
pub(super) fn put_home<S: Guarded>(shared: &SharedOf<S>, place: &mut PlaceOf<S>, state: S)
    requires table { (place.old.table_id ≡ shared.now.table_id) × (shared.now.table_id.words ≡ 2) × (shared.now.table_id.slots ≡ 1) }
    requires holds { (place.old.me.0.live ≡ true) × (place.old.me.0.holds ≡ true) × (place.old.me.1 ≡ (0, None) ∷ []) }
    requires grown { Adds S.author place.old.me.0.number place.old.me.0.seen (S.list state) }
    requires origin { (place.old.me.0.origin ≡ Some (S.origin state)) ⊎ (place.old.me.0.origin ≡ None) }
    ensures table { place.new.table_id ≡ place.old.table_id }
    ensures home { place.new.me ≡ (given_back S.list S.author S.origin place.old.me.0 state, []) }
{
    let length = state.entries();
    let empty = shared.exchange(place, STATE, Some(state));
    let None = empty else { unreachable!() };
    shared.store::<Publish<S>>(place, LENGTH, length);
    shared.store::<Free<S>>(place, FLAG, 0);
}

// The holder, with the seat that holds: it gives the state back.

impl<S: Guarded> Held<'_, S> {
    /// Gives the state back, and wakes those who wait for the lock or for another length. It takes no memory.
    /// The list may have grown by entries of this seat, and the origin is as it was. The seat has then seen the
    /// list as it is given back.
    pub fn give_back(self, seat: &mut Seat<S>)
        requires lock { IsWith self seat.old }
        requires holds { seat.old.view.holds ≡ true }
        requires grown { Adds S.author seat.old.view.number seat.old.view.seen (S.list self.state) }
        requires origin { seat.old.view.origin ≡ Some (S.origin self.state) }
        ensures lock { IsBeside seat.old seat.new }
        ensures seen { seat.new.view ≡ given_back S.list S.author S.origin seat.old.view self.entry.state }
    {
        let Held {
            lock,
            state,
            mark: _,
        } = self;
        put_home(&lock.table.shared, &mut seat.place, state);
        lock.table.shared.wake_one(FLAG);
        lock.table.shared.wake_all(LENGTH);
    }
}

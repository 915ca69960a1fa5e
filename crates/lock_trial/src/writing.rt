//! One note, in one holding.
ghost use Rattle.std.specs.Prelude.{◌≡◌, ◌≢◌, ◌+◌, ◌<◌, [], ◌∷◌, ◌++◌, true, false, MatchResult, MatchOption};
ghost use Rattle.doc_lock.specs.Told.{IsOf, IsBeside};
ghost use Rattle.base_core.specs.Lists.{Begins};
ghost use Rattle.lock_trial.specs.Noting.{Keeps, note};

use crate::notes::Notes;
use base_core::NoMemory;
use doc_lock::{DocLock, Seat, Tried};
use std::sync::Wait;

/// Waits for the lock and adds one note of this seat, or none where memory is wanting.
pub fn write_note<R: Wait>(
    rt: &R,
    lock: &DocLock<Notes>,
    seat: &mut Seat<Notes>,
    what: u64,
) -> Result<(), NoMemory>
    requires lock { IsOf lock.now seat.old }
    requires free { seat.old.view.holds ≡ false }
    ensures lock { IsBeside seat.old seat.new }
    ensures same { Keeps seat.old.view seat.new.view }
    ensures held { (seat.old.view.tries < seat.new.view.tries) × (seat.new.view.found ≡ 0) }
    ensures mine { MatchResult result (λ _. seat.new.view.mine ≡ seat.old.view.mine ++ note seat.old.view.number what ∷ [])
        (λ _. seat.new.view.mine ≡ seat.old.view.mine) }
    ensures seen { Begins seat.old.view.seen seat.new.view.seen }
{
    let number = seat.number();
    let mut held = lock.hold(rt, seat);
    let added = held.state().add(number, what);
    held.give_back(seat);
    added
}

/// The same with one try, which never waits. None exactly where the try read another word than 0; then there is
/// no note more.
pub fn try_note(
    lock: &DocLock<Notes>,
    seat: &mut Seat<Notes>,
    what: u64,
) -> Option<Result<(), NoMemory>>
    requires lock { IsOf lock.now seat.old }
    requires free { seat.old.view.holds ≡ false }
    ensures lock { IsBeside seat.old seat.new }
    ensures same { Keeps seat.old.view seat.new.view }
    ensures tried { seat.new.view.tries ≡ seat.old.view.tries + 1 }
    ensures busy { MatchOption result (seat.new.view.found ≢ 0) (λ _. seat.new.view.found ≡ 0) }
    ensures mine { MatchOption result (seat.new.view.mine ≡ seat.old.view.mine)
        (λ r. MatchResult r (λ _. seat.new.view.mine ≡ seat.old.view.mine ++ note seat.old.view.number what ∷ [])
        (λ _. seat.new.view.mine ≡ seat.old.view.mine)) }
    ensures seen { Begins seat.old.view.seen seat.new.view.seen }
{
    let number = seat.number();
    match lock.try_hold(seat) {
        Tried::Busy => None,
        Tried::Held(mut held) => {
            let added = held.state().add(number, what);
            held.give_back(seat);
            Some(added)
        }
    }
}

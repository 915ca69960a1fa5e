//! What any seat does, whatever its number.
ghost use Rattle.std.specs.Prelude.{◌≡◌, ℕ, ◌+◌, ◌<◌, ◌≢◌, true, false, [], ◌∷◌, length, Some, None};
ghost use Rattle.doc_lock.specs.Told.{MatchTried, IsOf, IsBeside, IsHeldOf, Gets, GetsAtLast, Misses, Rests};

use super::{DocLock, FLAG, Held, LENGTH, STATE, Seat, SeatOf, Tried};
use crate::guarded::Guarded;
use crate::plays::{Look, Try};
use std::marker::PhantomData;
use std::sync::Wait;

// Any seat: its number.

impl<S, E, O> SeatOf<S, E, O> {
    /// The seat's number.
    pub fn number(&self) -> u32
        ensures number { result ≡ self.now.view.number }
    {
        self.number
    }
}

// Any seat: it tries and holds where it holds nothing yet, and it rests.

impl<S: Guarded> DocLock<S> {
    /// Makes one try, never waits and takes no memory. `Busy` exactly where the try read a word other than 0;
    /// nothing is then told of the state.
    pub fn try_hold<'a>(&'a self, seat: &mut Seat<S>) -> Tried<'a, S>
        requires lock { IsOf self.now seat.old }
        requires free { seat.old.view.holds ≡ false }
        ensures lock { IsBeside seat.old seat.new }
        ensures tried { MatchTried result (λ h. (IsHeldOf self.now h)
            × Gets S.list S.author S.origin seat.old.view seat.new.view h.state) (Misses seat.old.view seat.new.view) }
    {
        let flag = u64::from(seat.number) + 1;
        let shared = &self.table.shared;
        let found = shared.compare_exchange::<Try<S>>(&mut seat.place, FLAG, 0, flag);
        if found != 0 {
            return Tried::Busy;
        }
        let state = shared.exchange(&mut seat.place, STATE, None).unwrap();
        Tried::Held(Held {
            lock: self,
            state,
            mark: PhantomData,
        })
    }

    /// Tries until it has the lock, and sleeps between two tries.
    pub fn hold<'a, R: Wait>(&'a self, rt: &R, seat: &mut Seat<S>) -> Held<'a, S>
        requires lock { IsOf self.now seat.old }
        requires free { seat.old.view.holds ≡ false }
        ensures lock { (IsBeside seat.old seat.new) × (IsHeldOf self.now result) }
        ensures held { GetsAtLast S.list S.author S.origin seat.old.view seat.new.view result.state }
    {
        // No wake-up is lost, though no clause can say it. The flag is below 2^32, so `park` compares the whole
        // of it: it sleeps only if the flag still is what `peek` read, else it returns and the next try follows.
        // Whoever has the lock while we sleep frees the flag before it wakes one sleeper of word 0, and only
        // `hold` sleeps there: the one that is woken tries again, and gets the lock, or another has got it, who
        // will wake one in turn.
        for _ in rt.forever() {
            match self.try_hold(seat) {
                Tried::Held(held) => return held,
                Tried::Busy => {
                    let flag = self.table.shared.peek(FLAG);
                    if flag != 0 {
                        self.table
                            .shared
                            .park(rt, FLAG, (flag & 0xffff_ffff) as u32);
                    }
                }
            }
        }
        unreachable!()
    }

    /// Waits until the list has another length than this, and answers it: the length that the last look read,
    /// which was made in this call. It is never less than the length of what the seat has seen. A caller that
    /// rests on the length of what it saw last is woken by the next entry.
    pub fn rest<R: Wait>(&self, rt: &R, seat: &mut Seat<S>, length: u64) -> u64
        requires lock { IsOf self.now seat.old }
        ensures lock { IsBeside seat.old seat.new }
        ensures told { Rests seat.old.view length seat.new.view result }
    {
        // No wake-up is lost: each length is published before all sleepers of word 1 are woken, and `park`
        // sleeps only if the length still is the one that was looked at. It compares the low 32 bits, so it
        // would miss a list that grew by exactly 2^32 entries between the look and the sleep.
        for _ in rt.forever() {
            let found = self.table.shared.load::<Look>(&mut seat.place, LENGTH);
            if found != length {
                return found;
            }
            self.table
                .shared
                .park(rt, LENGTH, (length & 0xffff_ffff) as u32);
        }
        unreachable!()
    }
}

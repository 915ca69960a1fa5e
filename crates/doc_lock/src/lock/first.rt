//! What the seat number 0 does: it begins and ends the lock, and other seats come from it and go back to it.
ghost use Rattle.std.specs.Prelude.{◌≡◌, ◌≢◌, ℕ, ◌<◌, true, false, [], MatchResult};
ghost use Rattle.doc_lock.specs.Views.{splitting, split_off, joining};
ghost use Rattle.doc_lock.specs.Told.{Covers, Ends, IsBeside, IsOf, starting};

use super::holder::put_home;
use super::{DocLock, FLAG, STATE, Seat, SeatOf};
use crate::guarded::Guarded;
use crate::plays::{Cut, Glue, Take};
use atomic_table::Table;
use std::alloc::Global;

// Whoever makes the lock, by whom seat 0 comes.

impl<S: Guarded> DocLock<S> {
    /// A lock over a state with no entries, for so many seats in all, and its first seat. The state comes back
    /// where memory is wanting.
    pub fn new(alloc: Global, state: S, seats: u32) -> Result<(DocLock<S>, Seat<S>), S>
        requires seats { 0 < seats }
        requires empty { S.list state ≡ [] }
        ensures made { MatchResult result (λ t. (t.0.seats ≡ seats) × (IsOf t.0 t.1)
            × (t.1.view ≡ starting S.origin state)) (λ s. s ≡ state) }
    {
        // The table begins with an empty slot and with the flag of seat 0, which takes the slot and puts the
        // state home.
        let Ok((table, mut place)) = Table::vacant(alloc, &[1, 0], 1, &()) else {
            return Err(state);
        };
        table.shared.store::<Take>(&mut place, FLAG, 1);
        put_home(&table.shared, &mut place, state);
        Ok((
            DocLock { table, seats },
            SeatOf {
                number: 0,
                made: 1,
                place,
            },
        ))
    }
}

// Seat 0: it splits off seats, and closes the lock. Any seat may take in another that isn't number 0.

impl<S: Guarded> DocLock<S> {
    /// A seat with the next number, which has seen as much. It takes no memory.
    pub fn split(&self, seat: &mut Seat<S>) -> Seat<S>
        requires lock { IsOf self.now seat.old }
        requires first { (seat.old.view.number ≡ 0) × (seat.old.view.holds ≡ false) }
        requires room { seat.old.view.made < self.now.seats }
        ensures lock { (IsBeside seat.old seat.new) × (IsBeside seat.old result) }
        ensures first { seat.new.view ≡ splitting seat.old.view }
        ensures new { result.view ≡ split_off seat.old.view }
    {
        let number = seat.made;
        let place = self.table.shared.split_seat::<Cut>(&mut seat.place);
        seat.made = number + 1;
        SeatOf {
            number,
            made: 0,
            place,
        }
    }

    /// Takes in another seat. The longer of the two lists is then the one that the seat has seen. How the
    /// entries of both stand in the list, the next holding tells, or `close`.
    pub fn join_back(&self, seat: &mut Seat<S>, other: Seat<S>)
        requires lock { (IsOf self.now seat.old) × (IsOf self.now other) }
        requires free { (seat.old.view.holds ≡ false) × (other.view.holds ≡ false) }
        requires other { other.view.number ≢ 0 }
        ensures lock { IsBeside seat.old seat.new }
        ensures joined { seat.new.view ≡ joining seat.old.view other.view }
    {
        let SeatOf {
            number: _,
            made: _,
            place,
        } = other;
        self.table.shared.join_seat::<Glue>(&mut seat.place, place);
    }

    /// The state, once all other seats were joined into this one, by themselves or in others. Its list begins
    /// with all that any seat had seen, and has of each number just the entries of that seat, each once.
    pub fn close(self, seat: Seat<S>) -> S
        requires lock { IsOf self seat }
        requires last { (seat.view.number ≡ 0) × (seat.view.holds ≡ false) }
        requires all { Covers seat.view }
        ensures ends { Ends S.list S.author S.origin seat.view result }
    {
        let DocLock { table, seats: _ } = self;
        let SeatOf {
            number: _,
            made: _,
            place,
        } = seat;
        let mut closed = table.close_with(place);
        let slot = closed.take(STATE);
        closed.free();
        let Some(state) = slot else { unreachable!() };
        state
    }
}

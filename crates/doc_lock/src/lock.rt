//! The lock, its seats and its holdings.
use crate::guarded::Guarded;
use crate::plays::Rule;
use crate::view::View;
use atomic_table::{Shared, Table};
use std::alloc::Global;
use std::marker::{Model, PhantomData};

mod crossing;
mod first;
mod holder;
mod lends;
mod seated;

pub use crossing::lock_and_seats_cross_threads;

/// The words of the table: the flag, 0 or one more than the number of the seat that has the lock,
const FLAG: usize = 0;

/// and the length of the list.
const LENGTH: usize = 1;

/// The one slot, where the state is at home.
const STATE: usize = 0;

pub(crate) type TableOf<S> = Table<
    Option<S>,
    View<<S as Guarded>::Entry, <S as Guarded>::Origin>,
    (),
    Rule<S>,
    Global,
>;

pub(crate) type SharedOf<S> = Shared<
    Option<S>,
    View<<S as Guarded>::Entry, <S as Guarded>::Origin>,
    (),
    Rule<S>,
>;

pub(crate) type PlaceOf<S> = atomic_table::Seat<
    Option<S>,
    View<<S as Guarded>::Entry, <S as Guarded>::Origin>,
>;

/// A lock over one state. Threads share it by a `&`, where the state may be sent.
pub struct DocLock<S: Guarded> {
    table: TableOf<S>,
    seats: u32,
}

impl<S: Guarded> Model for DocLock<S> {
    ghost use Rattle.doc_lock.specs.Parties.{Lock, IsLock};

    ghost Value = { Lock };

    ghost view = { λ l. record { id = l.table.shared.table_id; seats = l.seats } };

    ghost invariant = { λ l. IsLock l.table.shared.table_id l.seats };
}

/// A seat at the lock of a state `S` with entries `E` and an origin `O`. It can't be let go: it is joined into
/// another seat, or closes the lock.
pub struct SeatOf<S, E, O> {
    number: u32,
    made: u32,
    place: atomic_table::Seat<Option<S>, View<E, O>>,
}

impl<S, E, O> Model for SeatOf<S, E, O> {
    ghost use Rattle.doc_lock.specs.Parties.{Sitting, IsSeat};

    ghost Value = { Sitting E O };

    ghost view = { λ s. record { lock = s.place.table_id; view = s.place.me.0 } };

    ghost invariant = { λ s. IsSeat s.number s.made s.place.me };
}

/// A seat at the lock of a state.
pub type Seat<S> = SeatOf<S, <S as Guarded>::Entry, <S as Guarded>::Origin>;

/// A holding: the state, out of the lock. It can't be let go: it is given back.
pub struct Held<'a, S: Guarded> {
    lock: &'a DocLock<S>,
    state: S,
    // Without a `&mut` among the types of the fields the clause of `state` gets no proof.
    mark: PhantomData<&'a mut u8>,
}

impl<'a, S: Guarded> Model for Held<'a, S> {
    ghost use Rattle.doc_lock.specs.Parties.{Holding};

    ghost Value = { Holding S };

    ghost view = { λ h. record { lock = h.lock.now.id; state = h.state } };
}

/// What one try of the flag comes to.
pub enum Tried<'a, S: Guarded> {
    /// The seat has the state.
    Held(Held<'a, S>),
    /// Another seat had the lock.
    Busy,
}

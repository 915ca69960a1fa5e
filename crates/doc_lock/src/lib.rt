//! A lock that threads share, round one state whose list of entries only grows.
//!
//! The state stands behind the lock and is any type that is `Guarded`: it has a list of entries, each of which
//! names its author by a number, and an origin, which stays as it was. Who works with the lock has a `Seat` with
//! a number of its own. A seat knows what it has seen of the list and which entries are its own; a holding
//! shows a list that begins with the one and has of the seat just the other, each entry once. There is no
//! document here and no rule on what an entry says, and nothing is said of how long a call waits, of fairness
//! or of deadlock. The layer above uses the contracts of `try_hold`, `hold`, `give_back` and `close`.
#![tactic(auto)]

mod guarded;
mod lock;
mod plays;
#[cfg(test)]
mod tests;
mod view;

pub use guarded::Guarded;
pub use lock::{DocLock, Held, Seat, SeatOf, Tried, lock_and_seats_cross_threads};
pub use view::{Folded, View};

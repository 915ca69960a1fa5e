//! What a seat knows. No value of these types is made: they stand in contracts alone, which see a
//! `LinkedList` as a list.

use std::collections::LinkedList;

/// What is kept of a seat that was joined into another.
pub struct Folded<E> {
    pub number: u64,
    /// The list that it had seen.
    pub seen: LinkedList<E>,
    /// Its own entries.
    pub mine: LinkedList<E>,
}

/// What a seat knows.
pub struct View<E, O> {
    /// Its number, which no other seat of the lock has.
    pub number: u64,
    /// Whether the seat is still there. One that was joined into another isn't.
    pub live: bool,
    /// Whether it has the state.
    pub holds: bool,
    /// The origin of the state. Only the first seat has none, until the state stands behind the lock.
    pub origin: Option<O>,
    /// The list that it has seen.
    pub seen: LinkedList<E>,
    /// The entries that it made, in order.
    pub mine: LinkedList<E>,
    /// The seats that were joined into it.
    pub joined: LinkedList<Folded<E>>,
    /// How often it tried the flag.
    pub tries: u64,
    /// The word that its last try read, and 0 before the first. A try gets the lock exactly where it reads 0.
    pub found: u64,
    /// How often it looked at the length, in `rest`.
    pub looks: u64,
    /// The length that its last look read, and 0 before the first.
    pub told: u64,
    /// Of the seat number 0, how many numbers were made: its own and one for each seat that it split off. Of any
    /// other seat 0.
    pub made: u64,
}

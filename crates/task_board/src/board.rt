//! The board and its calls.
ghost use Rattle.std.specs.Prelude.{◌≡◌, ◌^◌, ◌<◌, ◌≤◌, max, [], false, option_copied, if◌then◌else◌, IfOk, OnOk, OnErr, IsOk};
ghost use Rattle.task_board.specs.Rows.{has_row, is_held, least_waiting, least_left, all_done, work_of, result_of, IsTable};
ghost use Rattle.task_board.specs.Rows.{with_rows, with_spare, claimed, moved, posted, without_block};

use crate::slot::{
    Slot, close_up, held_place, place_of, room_in, row_count, stand_at, tournaments, vacate_at,
};
use crate::standing::Standing;
use crate::tournament::Tournament;
use base_core::NoMemory;
use std::alloc::Global;
use std::collections::HashMap;
use std::marker::Model;

/// What became of a result.
#[derive(Clone, Copy, Debug, PartialEq, Eq)]
pub enum Settled {
    /// The row was held by that seat, and is done.
    Kept,
    /// It wasn't, and nothing has changed.
    Dropped,
}

/// Rows of tasks. Contracts see the rows in the order of their numbers, the next number, and the spare: for how
/// many rows more there is room.
///
/// The rows stand in slots in the order of their numbers, so a number is found by halving. A map leads from a block
/// to the number of its row. Two tournaments over the slots know the least number that waits and the least that
/// isn't done. Where a row is gone its slot is empty, until the slots are full and are made anew without those.
#[derive(Drop)]
pub struct Board<T, R> {
    slots: Vec<Slot<T, R>>,
    waiting: Tournament,
    left: Tournament,
    blocks: HashMap<u64, u64>,
    next: u64,
    spare: u64,
    alloc: Global,
}

/// More rows than any memory holds.
const MOST_ROWS: u64 = 1 << 48;

impl<T, R> Model for Board<T, R> {
    ghost use Rattle.std.specs.Prelude.{vec_capacity};
    ghost use Rattle.task_board.specs.Rows.{Table};

    ghost Value = { Table T R };

    ghost use Rattle.task_board.specs.Slots.{rows_of, IsKept};

    ghost view = { λ b. record { rows = rows_of b.slots.items; next = b.next; spare = b.spare } };

    ghost invariant = { λ b. IsKept b.slots.items (vec_capacity b.slots) b.waiting b.left b.blocks b.next b.spare };
}

impl<T: Drop, R: Drop> Board<T, R> {
    /// No rows, and no memory.
    pub fn new(alloc: Global) -> Board<T, R>
        ensures { result ≡ record { rows = []; next = 0; spare = 0 } }
    {
        Board {
            slots: Vec::new(alloc),
            waiting: Tournament::empty(alloc),
            left: Tournament::empty(alloc),
            blocks: HashMap::new(alloc),
            next: 0,
            spare: 0,
            alloc,
        }
    }

    /// How many rows were posted so far, which is the next number.
    pub fn posted(&self) -> u64
        ensures posted { result ≡ self.now.next }
        ensures valid { IsTable self.now }
    {
        self.next
    }

    /// The least number that waits.
    pub fn least_waiting(&self) -> Option<u64>
        ensures { result ≡ least_waiting self.now.rows }
    {
        self.waiting.least_number()
    }

    /// Whether every row is done.
    pub fn all_done(&self) -> bool
        ensures { result ≡ all_done self.now.rows }
    {
        self.left.least_number().is_none()
    }

    /// The least number that isn't done, with the seat that holds it.
    pub fn least_left(&self) -> Option<(u64, Option<u32>)>
        ensures { result ≡ least_left self.now.rows }
    {
        let Some(number) = self.left.least_number() else {
            return None;
        };
        let Some(place) = place_of(&self.slots, number) else {
            return None;
        };
        Some((number, self.slots[place].holder()))
    }

    /// Whether a block has a row.
    pub fn has_row(&self, block: u64) -> bool
        ensures { result ≡ has_row block self.now.rows }
    {
        self.blocks.contains_key(&block)
    }

    /// The work that was posted for the row with a number.
    pub fn work(&self, number: u64) -> Option<&T>
        ensures { option_copied result ≡ work_of number self.now.rows }
    {
        let Some(place) = place_of(&self.slots, number) else {
            return None;
        };
        self.slots[place].work.as_ref()
    }

    /// The least number that waits, which this seat holds from now on.
    pub fn claim(&mut self, seat: u32) -> Option<u64>
        ensures least { result ≡ least_waiting self.old.rows }
        ensures held { self.new ≡ claimed seat self.old }
    {
        let Some(number) = self.waiting.least_number() else {
            return None;
        };
        let Some(place) = place_of(&self.slots, number) else {
            return None;
        };
        stand_at(
            &mut self.slots,
            &mut self.waiting,
            &mut self.left,
            place,
            Standing::Held(seat),
        );
        Some(number)
    }

    /// Keeps the result of a row that the seat holds: the row is done. Else the result is dropped, and nothing has
    /// changed.
    pub fn settle(&mut self, seat: u32, number: u64, outcome: R) -> Settled
        ensures answer { result ≡ (if is_held seat number self.old.rows then Settled.Kept else Settled.Dropped) }
        ensures done { self.new ≡ moved seat number (Standing.Done outcome) self.old }
    {
        let Some(place) = held_place(&self.slots, seat, number) else {
            return Settled::Dropped;
        };
        stand_at(
            &mut self.slots,
            &mut self.waiting,
            &mut self.left,
            place,
            Standing::Done(outcome),
        );
        Settled::Kept
    }

    /// A row that the seat holds waits again. Else nothing changes.
    pub fn lose(&mut self, seat: u32, number: u64)
        ensures { self.new ≡ moved seat number Standing.Waiting self.old }
    {
        let Some(place) = held_place(&self.slots, seat, number) else {
            return;
        };
        stand_at(
            &mut self.slots,
            &mut self.waiting,
            &mut self.left,
            place,
            Standing::Waiting,
        );
    }

    /// The result of the row of a block, if there is one and it is done.
    pub fn result(&self, block: u64) -> Option<&R>
        ensures { option_copied result ≡ result_of block self.now.rows }
    {
        let Some(number) = self.blocks.get(&block) else {
            return None;
        };
        let Some(place) = place_of(&self.slots, *number) else {
            return None;
        };
        self.slots[place].outcome()
    }

    /// Takes the row of a block away, if there is one, as it stands.
    pub fn withdraw(&mut self, block: u64)
        ensures { self.new ≡ with_rows (without_block block self.old.rows) self.old }
    {
        let Some(number) = self.blocks.get(&block) else {
            return;
        };
        let Some(place) = place_of(&self.slots, *number) else {
            return;
        };
        self.blocks.remove(&block);
        vacate_at(&mut self.slots, &mut self.waiting, &mut self.left, place);
    }

    /// Takes all rows away.
    pub fn close(&mut self)
        ensures { self.new ≡ with_rows [] self.old }
    {
        self.slots.clear();
        self.waiting.clear();
        self.left.clear();
        self.blocks.clear();
    }

    /// Makes the spare at least so many. `Err` leaves everything as it was.
    pub fn reserve(&mut self, rows: u64) -> Result<(), NoMemory>
        ensures ok { OnOk result (self.new ≡ with_spare (max rows self.old.spare) self.old) }
        ensures err { OnErr result (self.new ≡ self.old) }
        ensures succeeds { rows ≤ self.old.spare → IsOk result }
    {
        if rows <= self.spare {
            return Ok(());
        }
        if rows <= room_in(&self.slots, &self.waiting, &self.left, &self.blocks) as u64 {
            self.spare = rows;
            return Ok(());
        }
        self.make_room(rows)
    }

    /// Makes the slots and the tournaments anew for the rows that are there and as many more as are asked for, or
    /// as there are.
    fn make_room(&mut self, rows: u64) -> Result<(), NoMemory>
        ensures ok { OnOk result (self.new ≡ with_spare rows self.old) }
        ensures err { OnErr result (self.new ≡ self.old) }
    {
        let kept = row_count(&self.slots);
        if rows > MOST_ROWS || kept as u64 > MOST_ROWS {
            return Err(NoMemory);
        }
        let more = (rows as usize).max(kept);
        let places = kept + more;
        self.blocks.reserve(more)?;
        self.slots.reserve(places.saturating_sub(self.slots.len()))?;
        let (waiting, left) = tournaments(self.alloc, &self.slots, places)?;
        close_up(&mut self.slots);
        self.waiting = waiting;
        self.left = left;
        self.spare = rows;
        Ok(())
    }

    /// A row more for a block that has none, which waits, and its number. It takes one of the spare, and where
    /// there is none, memory. `Err` leaves everything as it was.
    pub fn post(&mut self, block: u64, work: T) -> Result<u64, NoMemory>
        requires fresh { has_row block self.old.rows ≡ false }
        requires few { self.old.next < 2 ^ 63 }
        ensures number { IfOk result (λ number. number ≡ self.old.next) }
        ensures ok { OnOk result (self.new ≡ posted block work self.old) }
        ensures err { OnErr result (self.new ≡ self.old) }
        ensures succeeds { 0 < self.old.spare → IsOk result }
    {
        self.reserve(1)?;
        Ok(self.add(block, work))
    }

    /// The same, where there is a spare.
    fn add(&mut self, block: u64, work: T) -> u64
        requires fresh { has_row block self.old.rows ≡ false }
        requires few { self.old.next < 2 ^ 63 }
        requires room { 0 < self.old.spare }
        ensures number { result ≡ self.old.next }
        ensures added { self.new ≡ posted block work self.old }
    {
        let number = self.next;
        let place = self.slots.len();
        self.slots.push_reserved(Slot {
            number,
            block,
            work: Some(work),
            standing: Standing::Waiting,
        });
        let inserted: Result<_, _> = self.blocks.insert(block, number);
        inserted.unwrap();
        self.waiting.set(place, number);
        self.left.set(place, number);
        self.next += 1;
        self.spare -= 1;
        number
    }
}

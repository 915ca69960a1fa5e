//! Where rows are kept: slots in the order of their numbers.
ghost use Rattle.std.specs.Prelude.{◌≡◌, ◌+◌, ◌^◌, ◌<◌, ◌≤◌, ◌==◌, true, false, None, find, option_copied, IfSome, IfNone, IfOk};
ghost use Rattle.std.specs.Prelude.{length, slice_get, slice_set, vec_len, vec_capacity};
ghost use Rattle.std.specs.HashMap.{spare};
ghost use Rattle.task_board.specs.Rows.{is_held, is_held_by, holder, outcome_of, is_waiting, is_left};
ghost use Rattle.task_board.specs.Slots.{Rising, Parts, IsAt, Changes, Marks, full, rows_of, restood, emptied, key};

use crate::standing::Standing;
use crate::tournament::{NOTHING, Tournament};
use base_core::NoMemory;
use std::alloc::Global;
use std::collections::HashMap;

/// A row with its work, or without work the place of a row that is gone.
#[derive(Drop)]
pub(crate) struct Slot<T, R> {
    pub(crate) number: u64,
    pub(crate) block: u64,
    pub(crate) work: Option<T>,
    pub(crate) standing: Standing<R>,
}

impl<T, R> Slot<T, R> {
    fn is_held_by(&self, seat: u32) -> bool
        ensures { result ≡ is_held_by seat self.now.standing }
    {
        match self.standing {
            Standing::Held(holder) => seat == holder,
            _ => false,
        }
    }

    /// The seat that holds the row.
    pub(crate) fn holder(&self) -> Option<u32>
        ensures { result ≡ holder self.now.standing }
    {
        match self.standing {
            Standing::Held(seat) => Some(seat),
            _ => None,
        }
    }

    /// The result of the row, where it is done.
    pub(crate) fn outcome(&self) -> Option<&R>
        ensures { option_copied result ≡ outcome_of self.now.standing }
    {
        match &self.standing {
            Standing::Done(outcome) => Some(outcome),
            _ => None,
        }
    }
}

/// The first place whose number isn't below another.
fn first_from<T, R>(slots: &[Slot<T, R>], number: u64) -> usize
    requires { Rising 0 slots.now }
    ensures { Parts slots.now result number }
{
    slots.partition_point(|slot| slot.number < number)
}

/// The place of the row with a number.
pub(crate) fn place_of<T, R>(slots: &[Slot<T, R>], number: u64) -> Option<usize>
    requires { Rising 0 slots.now }
    ensures found { IfSome result (λ place. IsAt slots.now place number) }
    ensures within { IfSome result (λ place. place < length slots.now) }
    ensures none { IfNone result (find (λ r. number == r.number) (rows_of slots.now) ≡ None) }
{
    let place = first_from(slots, number);
    if place >= slots.len() {
        return None;
    }
    let slot = &slots[place];
    if slot.number != number {
        return None;
    }
    if slot.work.is_none() {
        return None;
    }
    Some(place)
}

/// The place of the row with a number, if this seat holds it.
pub(crate) fn held_place<T, R>(slots: &[Slot<T, R>], seat: u32, number: u64) -> Option<usize>
    requires { Rising 0 slots.now }
    ensures found { IfSome result (λ place. IsAt slots.now place number) }
    ensures within { IfSome result (λ place. place < length slots.now) }
    ensures held { IfSome result (λ _. is_held seat number (rows_of slots.now) ≡ true) }
    ensures none { IfNone result (is_held seat number (rows_of slots.now) ≡ false) }
{
    let Some(place) = place_of(slots, number) else {
        return None;
    };
    if !slots[place].is_held_by(seat) {
        return None;
    }
    Some(place)
}

/// Gives the slot at a place another standing.
fn restand<T, R: Drop>(slots: &mut Vec<Slot<T, R>>, place: usize, standing: Standing<R>)
    requires { place < vec_len slots.old }
    ensures items { IfSome (slice_get slots.old.items place) (λ s. slots.new.items ≡ slice_set slots.old.items place (restood standing s)) }
    ensures capacity { vec_capacity slots.new ≡ vec_capacity slots.old }
{
    slots[place].standing = standing;
}

/// Takes the row out of the slot at a place.
fn vacate<T: Drop, R: Drop>(slots: &mut Vec<Slot<T, R>>, place: usize)
    requires { place < vec_len slots.old }
    ensures items { IfSome (slice_get slots.old.items place) (λ s. slots.new.items ≡ slice_set slots.old.items place (emptied s)) }
    ensures capacity { vec_capacity slots.new ≡ vec_capacity slots.old }
{
    let slot = &mut slots[place];
    slot.work = None;
    slot.standing = Standing::Waiting;
}

/// What a slot says among the numbers that wait.
fn waiting_key<T, R>(slot: &Slot<T, R>) -> u64
    ensures { result ≡ key is_waiting slot.now }
{
    match (&slot.work, &slot.standing) {
        (Some(_), Standing::Waiting) => slot.number,
        _ => NOTHING,
    }
}

/// What a slot says among the numbers that aren't done.
fn left_key<T, R>(slot: &Slot<T, R>) -> u64
    ensures { result ≡ key is_left slot.now }
{
    match (&slot.work, &slot.standing) {
        (None, _) | (_, Standing::Done(_)) => NOTHING,
        _ => slot.number,
    }
}

/// Gives the row at a place another standing, and tells it to the tournaments.
pub(crate) fn stand_at<T, R: Drop>(
    slots: &mut Vec<Slot<T, R>>,
    waiting: &mut Tournament,
    left: &mut Tournament,
    place: usize,
    standing: Standing<R>,
)
    requires within { place < vec_len slots.old }
    requires waiting { place < length waiting.old }
    requires left { place < length left.old }
    ensures changes { Changes place (restood standing) slots.old.items slots.new.items waiting.old waiting.new left.old left.new }
    ensures capacity { vec_capacity slots.new ≡ vec_capacity slots.old }
{
    restand(slots, place, standing);
    let slot = &slots[place];
    waiting.set(place, waiting_key(slot));
    left.set(place, left_key(slot));
}

/// Takes the row at a place away, and tells it to the tournaments.
pub(crate) fn vacate_at<T: Drop, R: Drop>(
    slots: &mut Vec<Slot<T, R>>,
    waiting: &mut Tournament,
    left: &mut Tournament,
    place: usize,
)
    requires within { place < vec_len slots.old }
    requires waiting { place < length waiting.old }
    requires left { place < length left.old }
    ensures changes { Changes place emptied slots.old.items slots.new.items waiting.old waiting.new left.old left.new }
    ensures capacity { vec_capacity slots.new ≡ vec_capacity slots.old }
{
    vacate(slots, place);
    let slot = &slots[place];
    waiting.set(place, waiting_key(slot));
    left.set(place, left_key(slot));
}

/// How many slots have a row.
pub(crate) fn row_count<T, R>(slots: &[Slot<T, R>]) -> usize
    ensures { result ≡ length (full slots.now) }
{
    let mut rows = 0;
    for slot in slots {
        if slot.work.is_some() {
            rows += 1;
        }
    }
    rows
}

/// Tournaments of so many places over the slots that have a row: the numbers that wait, and those that aren't done.
pub(crate) fn tournaments<T, R>(
    alloc: Global,
    slots: &[Slot<T, R>],
    places: usize,
) -> Result<(Tournament, Tournament), NoMemory>
    requires few { places < 2 ^ 62 }
    requires enough { length (full slots.now) ≤ places }
    ensures waiting { IfOk result (λ t. Marks is_waiting (full slots.now) t.0) }
    ensures left { IfOk result (λ t. Marks is_left (full slots.now) t.1) }
    ensures waiting_places { IfOk result (λ t. length t.0 ≡ places) }
    ensures left_places { IfOk result (λ t. length t.1 ≡ places) }
{
    let mut waiting = Tournament::new(alloc, places)?;
    let mut left = Tournament::new(alloc, places)?;
    let mut place = 0;
    for slot in slots {
        if slot.work.is_some() {
            waiting.set(place, waiting_key(slot));
            left.set(place, left_key(slot));
            place += 1;
        }
    }
    Ok((waiting, left))
}

/// Takes the slots without a row away.
pub(crate) fn close_up<T: Drop, R: Drop>(slots: &mut Vec<Slot<T, R>>)
    ensures items { slots.new.items ≡ full slots.old.items }
    ensures capacity { vec_capacity slots.new ≡ vec_capacity slots.old }
{
    slots.retain(|slot| slot.work.is_some());
}

/// For how many rows more there is room.
pub(crate) fn room_in<T, R>(
    slots: &Vec<Slot<T, R>>,
    waiting: &Tournament,
    left: &Tournament,
    blocks: &HashMap<u64, u64>,
) -> usize
    requires waiting { vec_len slots.now ≤ length waiting.now }
    requires left { vec_len slots.now ≤ length left.now }
    ensures slots { vec_len slots.now + result ≤ vec_capacity slots.now }
    ensures waiting { vec_len slots.now + result ≤ length waiting.now }
    ensures left { vec_len slots.now + result ≤ length left.now }
    ensures blocks { result ≤ spare blocks.now }
{
    let used = slots.len();
    let in_slots = slots.capacity() - used;
    let in_trees = (waiting.len() - used).min(left.len() - used);
    let in_blocks = blocks.capacity() - blocks.len();
    in_slots.min(in_trees).min(in_blocks)
}

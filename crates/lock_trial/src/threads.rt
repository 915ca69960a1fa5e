//! Writers in threads, beside the first seat.
ghost use Rattle.std.specs.Prelude.{◌≡◌, ℕ, ◌+◌, ◌<◌, ◌≤◌, [], ◌++◌, false, vec_len, vec_capacity, IfOk, MatchResult};
ghost use Rattle.std.specs.Thread.{IsSync};
ghost use Rattle.doc_lock.specs.Lists.{Each};
ghost use Rattle.doc_lock.specs.Told.{Covers};
ghost use Rattle.lock_trial.specs.Noting.{EachWriter, HasWritten, IsDone, IsFresh, IsIdle, IsReady, Keeps, notes_by, of_seat};

use crate::notes::Notes;
use crate::writing::write_note;
use base_core::NoMemory;
use doc_lock::{DocLock, Seat};
use std::alloc::Global;
use std::sync::Wait;
use std::thread;
use std::thread::{Threads, join_mut};

// A writer's seat, and whether it wrote all its notes.
struct Writer {
    seat: Seat<Notes>,
    wrote: Result<(), NoMemory>,
}

// Writes so many notes, numbered from 0 on, up to the first for which memory is wanting.
fn write_notes<R: Wait>(
    rt: &R,
    lock: &DocLock<Notes>,
    seat: &mut Seat<Notes>,
    notes: u64,
) -> Result<(), NoMemory>
    requires idle { IsIdle lock.now seat.old.view.number seat.old }
    requires none { seat.old.view.mine ≡ [] }
    ensures idle { IsIdle lock.now seat.old.view.number seat.new }
    ensures same { Keeps seat.old.view seat.new.view }
    ensures written { HasWritten notes result seat.new.view }
{
    for what in 0..notes {
        write_note(rt, lock, seat, what)?;
    }
    Ok(())
}

// Lends each seat to a thread that writes.
fn lend<R: Threads + Wait + Sync>(rt: &R, lock: &DocLock<Notes>, writers: &mut [Writer], notes: u64)
    requires ready { EachWriter (IsReady lock.now) writers.old }
    ensures done { EachWriter (IsDone notes lock.now) writers.new }
{
    let threads = writers.len().max(1);
    thread::for_each_mut(
        rt,
        writers,
        threads,
        &|i, writer: &mut Writer|
            requires { IsReady lock.now (i + 1) writer.old }
            ensures { IsDone notes lock.entry.now (i + 1) writer.new }
        { writer.wrote = write_notes(rt, lock, &mut writer.seat, notes) },
    );
}

// The first seat writes, and the others beside it.
fn write_all<'a, 'b, R: Threads + Wait + Sync>(
    rt: &'a R,
    lock: &'a DocLock<Notes>,
    seat: &'b mut Seat<Notes>,
    writers: &'b mut [Writer],
    notes: u64,
) -> Result<(), NoMemory>
    requires first { IsIdle lock.now 0 seat.old × (seat.old.view.mine ≡ []) }
    requires others { EachWriter (IsReady lock.now) writers.old }
    ensures first { IsIdle lock.now 0 seat.new }
    ensures same { Keeps seat.old.view seat.new.view }
    ensures written { HasWritten notes result seat.new.view }
    ensures others { EachWriter (IsDone notes lock.now) writers.new }
{
    let (wrote, ()) = join_mut(
        rt,
        &mut || write_notes(rt, lock, seat, notes),
        &mut ||
            requires after_bounds { IsSync R.row }
            requires ready { EachWriter (IsReady lock.now) writers.now }
            ensures done { EachWriter (IsDone notes lock.entry.now) writers.exit.now }
        { lend(rt, lock, writers, notes) },
    );
    wrote
}

// Splits a seat off for each writer.
fn deal(lock: &DocLock<Notes>, seat: &mut Seat<Notes>, writers: &mut Vec<Writer>, count: u32)
    requires first { IsIdle lock.now 0 seat.old × IsFresh seat.old.view }
    requires none { (seat.old.view.made ≡ 1) × (vec_len writers.old ≡ 0) }
    requires room { (count < lock.now.seats) × (count ≤ vec_capacity writers.old) }
    ensures first { IsIdle lock.now 0 seat.new × IsFresh seat.new.view }
    ensures made { seat.new.view.made ≡ count + 1 }
    ensures origin { seat.new.view.origin ≡ seat.old.view.origin }
    ensures others { (vec_len writers.new ≡ count) × EachWriter (IsReady lock.now) writers.new.items }
{
    for _ in 0..count {
        let next = lock.split(seat);
        writers.push_reserved(Writer {
            seat: next,
            wrote: Ok(()),
        });
    }
}

// Takes all seats back, and says whether each writer wrote all its notes.
fn gather(
    lock: &DocLock<Notes>,
    seat: &mut Seat<Notes>,
    writers: &mut Vec<Writer>,
) -> Result<(), NoMemory>
    requires first { IsIdle lock.now 0 seat.old × (seat.old.view.joined ≡ []) }
    requires made { seat.old.view.made ≡ vec_len writers.old + 1 }
    requires others { (n : ℕ) × EachWriter (IsDone n lock.now) writers.old.items }
    ensures first { IsIdle lock.now 0 seat.new }
    ensures all { Covers seat.new.view }
    ensures none { vec_len writers.new ≡ 0 }
    ensures same { (seat.new.view.made ≡ seat.old.view.made) × (seat.new.view.origin ≡ seat.old.view.origin)
        × (seat.new.view.mine ≡ seat.old.view.mine) }
    ensures written { IfOk result (λ _. (n : ℕ) → EachWriter (IsDone n lock.now) writers.old.items
        → Each (λ p. p.mine ≡ notes_by p.number n) seat.new.view.joined) }
{
    let mut all = Ok(());
    while let Some(writer) = writers.pop() {
        let Writer { seat: other, wrote } = writer;
        lock.join_back(seat, other);
        all = all.and(wrote);
    }
    all
}

/// The notes of so many writers in threads and of the first seat beside them, each of whom writes so many. Where
/// memory is wanting for one note, the others are dropped.
pub fn write_beside<R: Threads + Wait + Sync>(
    rt: &R,
    alloc: Global,
    day: u32,
    writers: u32,
    notes: u64,
) -> Result<Notes, NoMemory>
    requires seats { writers < 4294967295 }
    ensures day { IfOk result (λ n. n.day ≡ day) }
    ensures writers { IfOk result (λ n. Each (λ e. e.by < writers + 1) n.notes.items) }
    ensures written { IfOk result (λ n. (by : ℕ) → by < writers + 1 → of_seat by n.notes.items ≡ notes_by by notes) }
{
    let mut others = Vec::with_capacity(alloc, writers as usize)?;
    let Ok((lock, mut seat)) = DocLock::new(alloc, Notes::new(alloc, day), writers + 1) else {
        others.destroy_empty();
        return Err(NoMemory);
    };
    deal(&lock, &mut seat, &mut others, writers);
    let first_wrote = write_all(rt, &lock, &mut seat, others.as_mut_slice(), notes);
    let others_wrote = gather(&lock, &mut seat, &mut others);
    others.destroy_empty();
    let written = lock.close(seat);
    first_wrote?;
    others_wrote?;
    Ok(written)
}

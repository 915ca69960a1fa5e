//! Real threads, and one thread at two seats.
ghost use Rattle.std.specs.Prelude.{◌≡◌, ℕ, ◌+◌, ◌*◌, ◌<◌, ◌≤◌, [], false};
ghost use Rattle.std.specs.Thread.{IsSync};
ghost use Rattle.doc_lock.specs.Told.{Covers};
ghost use Rattle.lock_trial.specs.Noting.{IsIdle, Keeps};

use crate::{Notes, try_note, write_beside, write_note};
use doc_lock::{DocLock, Seat};
use std::sync::Wait;
use std::test::Fail;
use std::thread::{Threads, join_mut};

#[test]
fn each_note_of_five_threads_and_seat_0_is_there_once(rt: HostRuntime) -> Result<(), Fail> {
    let notes = write_beside(&rt, rt.alloc(), 12, 5, 200)?;
    assert_eq!(rt; notes.day, 12);
    assert_eq!(rt; notes.notes.len(), 1200);
    // the next note of each seat
    let mut next = [0u64; 6];
    for note in &notes.notes {
        assert!(rt; note.by < 6);
        let seat = note.by as usize;
        assert_eq!(rt; note.what, next[seat]);
        next[seat] = next[seat].wrapping_add(1);
    }
    assert_eq!(rt; next, [200; 6]);
    Ok(())
}

#[test]
fn one_thread_at_two_seats_finds_the_notes_of_both(rt: HostRuntime) -> Result<(), Fail> {
    let Ok((lock, mut first)) = DocLock::new(rt.alloc(), Notes::new(rt.alloc(), 3), 2) else {
        panic!(rt; "there was no memory");
    };
    let mut second = lock.split(&mut first);
    assert!(rt; write_note(&rt, &lock, &mut first, 10).is_ok());
    assert!(rt; matches!(try_note(&lock, &mut second, 20), Some(Ok(()))));
    assert!(rt; write_note(&rt, &lock, &mut second, 21).is_ok());
    assert_eq!(rt; lock.rest(&rt, &mut first, 1), 3);
    lock.join_back(&mut first, second);
    let notes = lock.close(first);
    let found: [(u32, u64); 3] = [(0, 10), (1, 20), (1, 21)];
    assert_eq!(rt; notes.notes.len(), 3);
    for (note, (by, what)) in notes.notes.iter().zip(found) {
        assert_eq!(rt; note.by, by);
        assert_eq!(rt; note.what, what);
    }
    Ok(())
}

// The two seats write in turn: each rests until the other has written.
fn rally<R: Wait>(rt: &R, lock: &DocLock<Notes>, seat: &mut Seat<Notes>, second: bool)
    requires { IsIdle lock.now seat.old.view.number seat.old }
    ensures idle { IsIdle lock.now seat.old.view.number seat.new }
    ensures same { Keeps seat.old.view seat.new.view }
{
    for round in 0..200u64 {
        if second {
            lock.rest(rt, seat, 2 * round);
        }
        if write_note(rt, lock, seat, round).is_err() {
            break;
        }
        if !second {
            lock.rest(rt, seat, 2 * round + 1);
        }
    }
}

fn rally_beside<'a, 'b, R: Threads + Wait + Sync>(
    rt: &'a R,
    lock: &'a DocLock<Notes>,
    first: &'b mut Seat<Notes>,
    second: &'b mut Seat<Notes>,
)
    requires first { IsIdle lock.now 0 first.old }
    requires second { IsIdle lock.now 1 second.old }
    ensures first { (IsIdle lock.now 0 first.new) × Keeps first.old.view first.new.view }
    ensures second { (IsIdle lock.now 1 second.new) × Keeps second.old.view second.new.view }
{
    join_mut(
        rt,
        &mut || rally(rt, lock, second, true),
        &mut || rally(rt, lock, first, false),
    );
}

#[test]
fn a_seat_that_rests_is_woken_by_each_note(rt: HostRuntime) -> Result<(), Fail> {
    let Ok((lock, mut first)) = DocLock::new(rt.alloc(), Notes::new(rt.alloc(), 4), 2) else {
        panic!(rt; "there was no memory");
    };
    let mut second = lock.split(&mut first);
    rally_beside(&rt, &lock, &mut first, &mut second);
    lock.join_back(&mut first, second);
    let notes = lock.close(first);
    assert_eq!(rt; notes.notes.len(), 400);
    for (note, by) in notes.notes.iter().zip([0, 1].iter().cycle()) {
        assert_eq!(rt; note.by, *by);
    }
    Ok(())
}

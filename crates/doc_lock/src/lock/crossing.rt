//! That the lock and its seats are fit for threads.
ghost use Rattle.std.specs.Thread.{IsSend, IsSync};
ghost use Rattle.doc_lock.specs.contracts.lock.DocLock.{the_row as lock_row};
ghost use Rattle.doc_lock.specs.contracts.lock.SeatOf.{the_row as seat_row};

use super::{DocLock, Seat};
use crate::guarded::Guarded;

fn moves<T: Send>()
    ensures moved { IsSend T.row }
{}

fn is_shared<T: Sync>()
    ensures shared { IsSync T.row }
{}

/// Does nothing. The lock may be moved to a thread and shared by threads, and a seat moved to one, wherever the
/// state may be sent.
pub fn lock_and_seats_cross_threads<S: Guarded + Send>()
    ensures moved { IsSend (lock_row S.row S.Entry.row S.Origin.row S.Guarded) }
    ensures shared { IsSync (lock_row S.row S.Entry.row S.Origin.row S.Guarded) }
    ensures seats { IsSend (seat_row S.row S.Entry.row S.Origin.row) }
{
    moves::<DocLock<S>>();
    is_shared::<DocLock<S>>();
    moves::<Seat<S>>();
}

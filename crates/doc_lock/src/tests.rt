//! One thread at two seats.
ghost use Rattle.std.specs.Prelude.{◌≡◌, [], ◌∷◌, false};

use crate::{DocLock, Guarded, Tried, lock_and_seats_cross_threads};
use std::test::Fail;

/// Each mark is the number of the seat that made it.
#[derive(Drop)]
struct Marks {
    limit: u32,
    marks: Vec<u32>,
}

impl Guarded for Marks {
    type Entry = u32;

    type Origin = u32;

    ghost list = { λ m. m.marks.items };

    ghost author = { λ e. e };

    ghost origin = { λ m. m.limit };

    fn entries(&self) -> u64 {
        self.marks.len() as u64
    }
}

#[test]
fn a_seat_gets_the_lock_once_the_other_has_given_it_back(rt: HostRuntime) -> Result<(), Fail> {
    let state = Marks {
        limit: 7,
        marks: Vec::new(rt.alloc()),
    };
    let Ok((lock, mut first)) = DocLock::new(rt.alloc(), state, 2) else {
        panic!(rt; "there was no memory");
    };
    let mut second = lock.split(&mut first);
    assert_eq!(rt; first.number(), 0);
    assert_eq!(rt; second.number(), 1);
    let held = lock.hold(&rt, &mut first);
    let busy = match lock.try_hold(&mut second) {
        Tried::Busy => true,
        Tried::Held(other) => {
            other.give_back(&mut second);
            false
        }
    };
    assert!(rt; busy);
    held.give_back(&mut first);
    let limit = match lock.try_hold(&mut second) {
        Tried::Busy => 0,
        Tried::Held(mut held) => {
            let limit = held.state().limit;
            held.give_back(&mut second);
            limit
        }
    };
    assert_eq!(rt; limit, 7);
    assert_eq!(rt; lock.rest(&rt, &mut second, 1), 0);
    lock.join_back(&mut first, second);
    let state = lock.close(first);
    assert_eq!(rt; state.limit, 7);
    assert!(rt; state.marks.is_empty());
    lock_and_seats_cross_threads::<Marks>();
    Ok(())
}

//! The answers of a cache of capacity 2, and its states after them.
use super::*;
use base_core::NoMemory;
use std::alloc::AllocGlobal;
use std::process::Abort;
use std::test::Fail;

/// What is kept for each of the ids 1 to 4, told in an order that leaves the list as it was: what isn't there
/// first, then what is at the end, then what is at the front.
fn assert_found(
    rt: &(impl Abort + AllocGlobal),
    states: &mut StateCache<u8>,
    expected: &[(u64, Option<u8>)],
) {
    for (id, state) in expected {
        assert_eq!(rt; states.find(*id).copied(), *state, "at {id}");
    }
}

#[test]
fn the_last_one_goes(rt: HostRuntime) -> Result<(), Fail> {
    let mut states = StateCache::new(rt.alloc(), 2)?;
    assert_found(&rt, &mut states, &[(2, None)]);
    assert_eq!(rt; states.keep(2, 20), Ok(()));
    assert_eq!(rt; states.keep(3, 30), Ok(()));
    assert_found(&rt, &mut states, &[(2, Some(20))]);
    assert_eq!(rt; states.keep(4, 40), Ok(()));
    assert_found(&rt, &mut states, &[(3, None), (2, Some(20)), (4, Some(40))]);
    assert_eq!(rt; states.keep(2, 21), Ok(()));
    assert_eq!(rt; states.keep(5, 50), Ok(()));
    assert_found(&rt, &mut states, &[(4, None), (2, Some(21)), (5, Some(50))]);
    states.drop_id(2);
    states.drop_id(2);
    assert_found(&rt, &mut states, &[(2, None), (5, Some(50))]);
    assert_eq!(rt; states.keep(1, 10), Ok(()));
    assert_found(&rt, &mut states, &[(5, Some(50)), (1, Some(10))]);
    Ok(())
}

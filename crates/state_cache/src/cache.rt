//! The cache and its calls.
ghost use Rattle.std.specs.Prelude.{◌≡◌, ◌<◌, [], OnOk, OnErr, IfOk, IfErr, IsOk, IsSome, option_copied};
ghost use Rattle.std.specs.Borrow.{sem};
ghost use Rattle.state_cache.specs.States.{states, state_of, without, with_first, found_first, IsCache};

use base_core::NoMemory;
use lru::LruCache;
use std::alloc::Global;
use std::marker::Model;
use std::num::NonZeroUsize;

/// States by id, at most as many as the capacity.
#[derive(Drop)]
pub struct StateCache<T> {
    cache: LruCache<u64, T>,
}

impl<T> Model for StateCache<T> {
    ghost use Rattle.state_cache.specs.States.{States, states, states_code, IsCache};

    ghost Value = { States T };

    ghost coded = { states_code T.code };

    ghost view = { λ c. states c.cache.entries c.cache.cap };

    ghost invariant = { λ c. IsCache (states c.cache.entries c.cache.cap) };
}

impl<T: Drop> StateCache<T> {
    ghost use Rattle.state_cache.specs.Ends.{ends_as};

    /// A cache with no states in it, for at most so many.
    pub fn new(alloc: Global, capacity: u64) -> Result<StateCache<T>, NoMemory>
        requires { 0 < capacity }
        ensures { IfOk result (λ c. c ≡ states [] capacity) }
    {
        let capacity = NonZeroUsize::new(capacity as usize).unwrap();
        Ok(StateCache {
            cache: LruCache::sparse(alloc, capacity)?,
        })
    }

    /// Keeps a state for an id, in the place of the one that was kept for it. The id comes to the front, and a new
    /// one takes the place of the last where the cache is full. `Err` hands the state back and leaves the cache as
    /// it was.
    pub fn keep(&mut self, id: u64, state: T) -> Result<(), T>
        ensures ok { OnOk result (self.new ≡ with_first id state self.old) }
        ensures err { OnErr result (self.new ≡ self.old) }
        ensures handed_back { IfErr result (λ s. s ≡ state) }
        ensures succeeds { IsSome (state_of id self.old) → IsOk result }
        ensures valid { IsCache self.new }
    {
        match self.cache.put(id, state) {
            Ok(_) => Ok(()),
            Err(refused) => Err(refused.value.1),
        }
    }

    /// The state that is kept for an id, if there is one; the id comes to the front.
    pub fn find(&mut self, id: u64) -> Option<&T>
        ensures* to_front { sem 𝓛 (ends_as T.row self.entry (found_first id self.old)) }
        ensures value { option_copied result ≡ state_of id self.old }
        ensures valid { IsCache (found_first id self.old) }
    {
        self.cache.get(&id)
    }

    /// Drops an id and its state, if there is one.
    pub fn drop_id(&mut self, id: u64)
        ensures without { self.new ≡ without id self.old }
        ensures valid { IsCache self.new }
    {
        self.cache.pop(&id);
    }
}

//! A list with room.
ghost use Rattle.std.specs.Prelude.{◌≡◌, ◌<◌, ◌≤◌, ◌+◌, ◌++◌, [], ◌∷◌, length, OnOk};

use crate::NoMemory;
use std::alloc::Global;
use std::marker::Model;

/// Values in order, on the heap. Contracts see the list of them and, beside it, the spare: how many more go in
/// without memory.
#[derive(Debug, Drop)]
pub struct SparedSequence<T> {
    items: Vec<T>,
}

impl<T> Model for SparedSequence<T> {
    ghost use Rattle.std.specs.Prelude.{◌-◌, vec_len, vec_capacity};
    ghost use Rattle.base_core.specs.Lists.{Spared};

    ghost Value = { Spared T };

    ghost view = { λ s. record { items = s.items.items; spare = vec_capacity s.items - vec_len s.items } };
}

impl<T> SparedSequence<T> {
    /// No values, and maybe no spare.
    pub fn new(alloc: Global) -> SparedSequence<T>
        ensures { result.items ≡ [] }
    {
        SparedSequence {
            items: Vec::new(alloc),
        }
    }

    /// The same values in the same memory.
    pub fn from_vec(items: Vec<T>) -> SparedSequence<T>
        ensures { result.items ≡ items.items }
    {
        SparedSequence { items }
    }

    /// Gives the values back without taking memory.
    pub fn into_vec(self) -> Vec<T>
        ensures { result.items ≡ self.items }
    {
        self.items
    }

    /// The values, in order.
    pub fn as_slice(&self) -> &[T]
        ensures { result.now ≡ self.now.items }
    {
        self.items.as_slice()
    }

    /// How many values there are.
    pub fn len(&self) -> usize
        ensures { result ≡ length self.now.items }
    {
        self.items.len()
    }
}

impl<T: Drop> SparedSequence<T> {
    /// Makes room for so many values more. With `Err` the spare is at least what it was.
    pub fn reserve(&mut self, more: usize) -> Result<(), NoMemory>
        ensures items { self.new.items ≡ self.old.items }
        ensures spare { OnOk result (more ≤ self.new.spare) }
        ensures kept { self.old.spare ≤ self.new.spare }
    {
        self.items.reserve(more)?;
        Ok(())
    }

    /// Adds a value at the end, without memory.
    pub fn push_reserved(&mut self, value: T)
        requires { 0 < self.old.spare }
        ensures items { self.new.items ≡ self.old.items ++ value ∷ [] }
        ensures spare { self.old.spare ≤ self.new.spare + 1 }
    {
        self.items.push_reserved(value);
    }
}

#[cfg(test)]
mod tests {
    use super::*;
    use std::test::Fail;

    #[test]
    fn a_reserved_list_takes_values(rt: HostRuntime) -> Result<(), Fail> {
        let mut names: SparedSequence<u64> = SparedSequence::new(rt.alloc());
        names.reserve(2)?;
        names.push_reserved(3);
        names.push_reserved(4);
        assert_eq!(rt; names.len(), 2);
        let same = SparedSequence::from_vec(names.into_vec());
        assert_eq!(rt; same.as_slice(), [3, 4].as_slice());
        Ok(())
    }
}

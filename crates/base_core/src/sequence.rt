//! A list of values.
ghost use Rattle.std.specs.Prelude.{◌≡◌, ◌↔◌, [], ◌∷◌, ◌++◌, length, IfOk, IsTrue, OnOk, OnErr};

use crate::NoMemory;
use std::alloc::Global;
use std::marker::Model;

/// Values in order, on the heap. Contracts see the list of them.
#[derive(Debug, Drop)]
pub struct Sequence<T> {
    items: Vec<T>,
}

/// Bytes on the heap: any bytes, text or not.
pub type Bytes = Sequence<u8>;

/// Ids of sentences, in the order in which they were given.
pub type Ids = Sequence<u64>;

impl<T> Model for Sequence<T> {
    ghost use Rattle.std.specs.Prelude.{List};
    ghost use Rattle.std.specs.Coded.{coded_list};

    ghost Value = { List T };

    ghost coded = { coded_list T.code };

    ghost view = { λ s. s.items.items };
}

impl<T> Sequence<T> {
    /// No values.
    pub fn new(alloc: Global) -> Sequence<T>
        ensures { result ≡ [] }
    {
        Sequence {
            items: Vec::new(alloc),
        }
    }

    /// The same values in the same memory.
    pub fn from_vec(items: Vec<T>) -> Sequence<T>
        ensures { result ≡ items.items }
    {
        Sequence { items }
    }

    /// Gives the values back without taking memory.
    pub fn into_vec(self) -> Vec<T>
        ensures { result.items ≡ self }
    {
        self.items
    }

    /// The values, in order.
    pub fn as_slice(&self) -> &[T]
        ensures { result.now ≡ self.now }
    {
        self.items.as_slice()
    }

    /// How many values there are.
    pub fn len(&self) -> usize
        ensures { result ≡ length self.now }
    {
        self.items.len()
    }

    /// Whether there is none.
    pub fn is_empty(&self) -> bool
        ensures { IsTrue result ↔ (length self.now ≡ 0) }
    {
        self.items.is_empty()
    }
}

impl<T: Drop> Sequence<T> {
    /// One value more at the end; with `Err` the values are as before, and the new one is given up.
    pub fn push(&mut self, value: T) -> Result<(), NoMemory>
        ensures ok { OnOk result (self.new ≡ self.old ++ value ∷ []) }
        ensures err { OnErr result (self.new ≡ self.old) }
    {
        self.items.push(value)?;
        Ok(())
    }
}

impl Sequence<u8> {
    /// A copy of a slice.
    pub fn from_slice(alloc: Global, bytes: &[u8]) -> Result<Bytes, NoMemory>
        ensures { IfOk result (λ copy. copy ≡ bytes.now) }
    {
        Ok(Sequence {
            items: bytes.to_vec(alloc)?,
        })
    }
}

#[cfg(test)]
mod tests {
    use super::*;
    use std::test::Fail;

    #[test]
    fn values_are_kept_in_order(rt: HostRuntime) -> Result<(), Fail> {
        let mut ids = Ids::new(rt.alloc());
        assert!(rt; ids.is_empty());
        ids.push(7)?;
        ids.push(u64::MAX)?;
        ids.push(7)?;
        assert_eq!(rt; ids.len(), 3);
        let same = Ids::from_vec(ids.into_vec());
        assert_eq!(rt; same.as_slice(), [7, u64::MAX, 7].as_slice());
        for text in [b"".as_slice(), b"A : Prop", &[0, 10, 255]] {
            assert_eq!(rt; Bytes::from_slice(rt.alloc(), text)?.as_slice(), text);
        }
        Ok(())
    }
}

//! Bytes that several holders share.
ghost use Rattle.std.specs.Prelude.{◌≡◌, ◌↔◌, length, IfOk, IsTrue};

use crate::NoMemory;
use std::alloc::Global;
use std::marker::Model;
use std::sync::ArcSlice;

/// Bytes on the heap that any number of holders share: any bytes, text or not. Contracts see the list of them. A
/// further holder takes no memory and a constant time.
#[derive(Debug, Drop)]
pub struct SharedBytes {
    bytes: ArcSlice<u8>,
}

impl Model for SharedBytes {
    ghost use Rattle.std.specs.Prelude.{List, ℕ};
    ghost use Rattle.std.specs.Arc.{arc_slice_items};

    ghost Value = { List ℕ };

    ghost view = { λ s. arc_slice_items s.bytes };
}

impl SharedBytes {
    /// A copy of a slice, with one holder.
    pub fn from_slice(alloc: Global, bytes: &[u8]) -> Result<SharedBytes, NoMemory>
        ensures { IfOk result (λ copy. copy ≡ bytes.now) }
    {
        Ok(SharedBytes {
            bytes: ArcSlice::from_slice(alloc, bytes)?,
        })
    }

    /// These bytes, which aren't copied, with one holder; memory is taken for the counts alone.
    pub fn from_vec(bytes: Vec<u8>) -> Result<SharedBytes, NoMemory>
        ensures { IfOk result (λ same. same ≡ bytes.items) }
    {
        Ok(SharedBytes {
            bytes: ArcSlice::from_vec(bytes)?,
        })
    }

    /// The same bytes for a further holder. `NoMemory` comes only where 2^63 - 1 holders are there: it takes no
    /// memory.
    pub fn share(&self) -> Result<SharedBytes, NoMemory>
        ensures { IfOk result (λ same. same ≡ self.now) }
    {
        Ok(SharedBytes {
            bytes: self.bytes.clone()?,
        })
    }

    /// The bytes.
    pub fn as_slice(&self) -> &[u8]
        ensures { result.now ≡ self.now }
    {
        self.bytes.as_slice()
    }

    /// How many bytes there are.
    pub fn len(&self) -> usize
        ensures { result ≡ length self.now }
    {
        self.bytes.as_slice().len()
    }

    /// Whether there is none.
    pub fn is_empty(&self) -> bool
        ensures { IsTrue result ↔ (length self.now ≡ 0) }
    {
        self.bytes.as_slice().is_empty()
    }
}

#[cfg(test)]
mod tests {
    use super::*;
    use std::test::Fail;

    #[test]
    fn holders_have_the_same_bytes(rt: HostRuntime) -> Result<(), Fail> {
        for text in [b"".as_slice(), b"A : Prop", &[0, 10, 255]] {
            let first = SharedBytes::from_slice(rt.alloc(), text)?;
            let second = first.share()?;
            drop(first);
            let third = SharedBytes::from_vec(text.to_vec(rt.alloc())?)?;
            assert_eq!(rt; third.as_slice(), text);
            assert_eq!(rt; second.as_slice(), text);
            assert_eq!(rt; second.len(), text.len());
            assert_eq!(rt; second.is_empty(), text.is_empty());
        }
        Ok(())
    }
}

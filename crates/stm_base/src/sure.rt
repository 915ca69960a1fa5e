//! A source and a sink that never fail.
ghost use Rattle.std.specs.Prelude.{◌≡◌, Some, None};

use crate::{Failed, Sink, Source};

/// Gives the bytes of a slice. Its count of faults is 0 for ever.
#[derive(Drop)]
pub struct SureSource<'a> {
    rest: &'a [u8],
}

impl<'a> SureSource<'a> {
    ghost use Rattle.std.specs.Prelude.{◌≡◌};

    pub fn new(bytes: &'a [u8]) -> SureSource<'a>
        ensures { result.rest.now ≡ bytes.now }
    {
        SureSource { rest: bytes }
    }
}

impl<'a> Source for SureSource<'a> {
    ghost left = { λ s. Some s.rest.now };

    ghost faults = { λ _. 0 };

    fn read(&mut self, buf: &mut [u8]) -> Result<usize, Failed> {
        let n = buf.len().min(self.rest.len());
        let (front, rest) = self.rest.split_at(n);
        buf[..n].copy_from_slice(front);
        self.rest = rest;
        Ok(n)
    }
}

/// Takes all bytes, keeps none and tells none. Its count of faults is 0 for ever.
#[derive(Clone, Copy, Debug)]
pub struct SureSink;

impl Sink for SureSink {
    ghost written = { λ _. None };

    ghost faults = { λ _. 0 };

    fn write(&mut self, bytes: &[u8]) -> Result<usize, Failed> {
        Ok(bytes.len())
    }
}

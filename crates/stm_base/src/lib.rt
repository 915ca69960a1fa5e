//! What the program reads from and writes to.
//!
//! A `Source` gives bytes and a `Sink` takes them; each may fail, and then its count of faults has risen. Where
//! they can, they tell their bytes to contracts: those left in a source, those written to a sink. `MemSource`
//! and `MemSink` tell them, `StdSource` and `StdSink` are standard input and output and tell none, and
//! `SureSource` and `SureSink` never fail. `Out` writes whole pieces to a sink until the sink first fails. There
//! is nothing here of what the bytes mean, but that a byte 10 ends a line of output. The crates above use the
//! clauses of the two traits, and that `put` leaves the Out with the piece put, `IsPut`.
#![tactic(auto)]

mod memory;
mod output;
mod standard;
mod sure;
#[cfg(test)]
mod tests;

ghost use Rattle.std.specs.Prelude.{◌<◌, List, Option, ℕ, length, IfOk};
ghost use Rattle.std.specs.Io.{ReadsAtMost, WritesAtMost};
ghost use Rattle.std.specs.Io.KnownBytes.{ReadConsumes, WriteAppends};
ghost use Rattle.stm_base.specs.Counts.{HasCause};

pub use base_core::{Bytes, NoMemory, Steps};
pub use memory::{MemSink, MemSource};
pub use output::{Out, puts_join};
pub use standard::{StdSink, StdSource};
pub use sure::{SureSink, SureSource};
use thiserror::Error;

/// A read or a write failed. It comes only where the count of faults rose.
#[derive(Clone, Copy, Debug, PartialEq, Eq, Error)]
#[error("reading or writing failed")]
pub struct Failed;

/// What bytes are read from.
///
/// That the count of faults rises at a `Failed` and nowhere else is asked of each source. So a theorem on every source
/// speaks of none that tries a failed read again by itself and counts it, nor of one whose faults others count too.
pub trait Source {
    /// The bytes that are left, where the source tells them.
    ghost left: { Self → Option (List ℕ) };

    /// How many faults there were so far. It rises at each `Failed` and only there; a count at 2^64 - 1, its last
    /// value, counts as risen.
    ghost faults: { Self → ℕ };

    /// Moves bytes to the front of `buf` and answers how many. 0 for a `buf` that isn't empty is the end of
    /// the input. After `Failed` no byte was taken.
    fn read(&mut self, buf: &mut [u8]) -> Result<usize, Failed>
        ensures bound { ReadsAtMost result buf.new }
        ensures bytes { ReadConsumes (left self.old) (left self.new) result buf.new }
        ensures cause { HasCause (faults self.old) (faults self.new) result };
}

/// What bytes are written to.
///
/// As of a source, it is asked of each sink that its count of faults rises at a `Failed` and nowhere else: a theorem on
/// every sink speaks of no other.
pub trait Sink {
    /// The bytes that were written, where the sink tells them.
    ghost written: { Self → Option (List ℕ) };

    /// How many faults there were so far. It rises at each `Failed` and only there; a count at 2^64 - 1, its last
    /// value, counts as risen.
    ghost faults: { Self → ℕ };

    /// Writes bytes from the front of `bytes` and answers how many: at least 1, where there are some. After
    /// `Failed` no byte was written.
    fn write(&mut self, bytes: &[u8]) -> Result<usize, Failed>
        ensures bound { WritesAtMost result bytes.now }
        ensures some { IfOk result (λ n. 0 < length bytes.now → 0 < n) }
        ensures bytes { WriteAppends (written self.old) (written self.new) result bytes.now }
        ensures cause { HasCause (faults self.old) (faults self.new) result };
}

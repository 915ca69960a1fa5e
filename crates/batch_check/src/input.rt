//! The whole input.
ghost use Rattle.std.specs.Prelude.{◌≡◌, ◌≤◌, ◌<◌, length, take, IfOk, OnErr};
ghost use Rattle.std.specs.Io.KnownBytes.{Consumes, IsAtEnd, Keeps};
ghost use Rattle.stm_base.specs.Counts.{HasCause};
ghost use Rattle.batch_check.specs.Ends.{IsRead, between};

use std::alloc::Global;
use stm_base::{Failed, Source};

/// The most bytes of input that are taken.
pub const INPUT_LIMIT: u64 = 4_294_967_296;

/// How many bytes are asked for at a time.
const PIECE: usize = 4096;

/// Why no more was read.
#[derive(Clone, Copy, Debug, PartialEq, Eq)]
pub(crate) enum InputEnd {
    /// The input ended.
    Met,
    /// A read failed.
    Fault,
    /// So many bytes were taken as are taken at most.
    Limit,
    /// Memory was wanting for what was taken.
    NoMemory,
}

/// What was read of a source.
#[derive(Drop)]
pub(crate) struct Input {
    /// The bytes that were taken, where the input ended.
    pub(crate) text: Vec<u8>,
    pub(crate) taken: u64,
    pub(crate) end: InputEnd,
}

/// Reads a source to its end, a fault or `INPUT_LIMIT`. A failed read isn't tried again.
pub(crate) fn read_input<S: Source>(alloc: Global, source: &mut S) -> Input
    ensures { IsRead (between (S.left source.old) (S.left source.new) (S.faults source.old) (S.faults source.new)) result }
{
    let mut text = Vec::new(alloc);
    let mut taken = 0u64;
    let mut piece = [0u8; PIECE];
    'pieces: while taken < INPUT_LIMIT {
        let most = (INPUT_LIMIT - taken).min(PIECE as u64) as usize;
        let Ok(n) = read_front(source, &mut piece, most) else {
            return ended(text, taken, InputEnd::Fault);
        };
        if n == 0 {
            return ended(text, taken, InputEnd::Met);
        }
        taken += n as u64;
        if text.extend_from_slice(&piece[..n]).is_err() {
            return ended(text, taken, InputEnd::NoMemory);
        }
    }
    ended(text, taken, InputEnd::Limit)
}

/// What was read up to an end.
fn ended(text: Vec<u8>, taken: u64, end: InputEnd) -> Input
    ensures { result ≡ record { text = text; taken = taken; end = end } }
{
    Input { text, taken, end }
}

/// Reads at most so many bytes to the front of a buffer.
fn read_front<S: Source>(source: &mut S, buf: &mut [u8], most: usize) -> Result<usize, Failed>
    requires some { 0 < most }
    requires room { most ≤ length buf.old }
    ensures bound { IfOk result (λ n. n ≤ most) }
    ensures bytes { IfOk result (λ n. Consumes (S.left source.old) (S.left source.new) (take n buf.new)) }
    ensures end { IfOk result (λ n. n ≡ 0 → IsAtEnd (S.left source.new)) }
    ensures err { OnErr result (Keeps (S.left source.old) (S.left source.new)) }
    ensures cause { HasCause (S.faults source.old) (S.faults source.new) result }
{
    source.read(&mut buf[..most])
}

//! A source and a sink in memory, which fail the calls that they are told to.
ghost use Rattle.std.specs.Prelude.{◌≡◌, ◌<◌, ◌≤◌, ◌++◌, ◌+◌, ◌-◌, ◌^◌, ◌⊎◌, min, [], Some, length, take, drop, true, is_err, IfOk, IsErr};
ghost use Rattle.std.specs.Io.{ReadsAtMost, WritesAtMost};
ghost use Rattle.std.specs.Io.KnownBytes.{ReadConsumes, WriteAppends};
ghost use Rattle.stm_base.specs.Counts.{HasCause};
ghost use Rattle.stm_base.specs.Memory.{is_listed};

use crate::{Failed, Sink, Source};
use std::marker::Model;

/// Gives its bytes in pieces, and fails the calls whose numbers, counted from 0, are listed.
#[derive(Debug, Drop)]
pub struct MemSource {
    bytes: Vec<u8>,
    at: usize,
    cuts: Vec<usize>,
    pieces: usize,
    failing: Vec<u64>,
    calls: u64,
    faults: u64,
}

impl Model for MemSource {
    ghost use Rattle.std.specs.Prelude.{drop};
    ghost use Rattle.stm_base.specs.Memory.{MemInput};

    ghost Value = { MemInput };

    ghost view = { λ s. record { left = drop s.at s.bytes.items; failing = s.failing.items; calls = s.calls; faults = s.faults } };
}

impl MemSource {
    /// The call that gives the piece with number n gives at most `cuts[n]` bytes, a 0 read as 1; behind the
    /// last cut a call gives all that fits. A call that fails gives no piece.
    pub fn new(bytes: Vec<u8>, cuts: Vec<usize>, failing: Vec<u64>) -> MemSource
        ensures { result ≡ record { left = bytes.items; failing = failing.items; calls = 0; faults = 0 } }
    {
        MemSource {
            bytes,
            at: 0,
            cuts,
            pieces: 0,
            failing,
            calls: 0,
            faults: 0,
        }
    }
}

impl Source for MemSource {
    ghost left = { λ s. Some s.left };

    ghost faults = { λ s. s.faults };

    fn read(&mut self, buf: &mut [u8]) -> Result<usize, Failed>
        ensures bound { ReadsAtMost result buf.new }
        ensures bytes { ReadConsumes (Some self.old.left) (Some self.new.left) result buf.new }
        ensures cause { HasCause self.old.faults self.new.faults result }
        // It fails exactly the calls that are listed.
        ensures listed { is_err result ≡ is_listed self.old.failing self.old.calls }
        ensures same_list { self.new.failing ≡ self.old.failing }
        ensures next { self.new.calls ≡ min (self.old.calls + 1) (2 ^ 64 - 1) }
    {
        let call = self.calls;
        self.calls = call.saturating_add(1);
        if self.failing.contains(&call) {
            self.faults = self.faults.saturating_add(1);
            return Err(Failed);
        }
        let most = most_at(&self.cuts, self.pieces);
        self.pieces = self.pieces.saturating_add(1);
        let n = give(&self.bytes, self.at, buf.len().min(most), buf);
        self.at += n;
        Ok(n)
    }
}

/// The most bytes that a piece has: at least 1.
fn most_at(cuts: &[usize], piece: usize) -> usize
    ensures { 0 < result }
{
    match cuts.get(piece) {
        Some(most) => (*most).max(1),
        None => usize::MAX,
    }
}

/// Copies bytes from an offset to the front of a buffer: at most `most`, and as many as there are.
fn give(bytes: &[u8], at: usize, most: usize, buf: &mut [u8]) -> usize
    requires { most ≤ length buf.old }
    ensures bound { result ≤ most }
    ensures front { drop at bytes.now ≡ take result buf.new ++ drop (at + result) bytes.now }
    ensures end { result ≡ 0 → 0 < most → drop (at + result) bytes.now ≡ [] }
    ensures within { at + result ≤ length bytes.now ⊎ (result ≡ 0) }
{
    if at >= bytes.len() {
        return 0;
    }
    let (_, rest) = bytes.split_at(at);
    let n = most.min(rest.len());
    let (front, _) = rest.split_at(n);
    buf[..n].copy_from_slice(front);
    n
}

/// Keeps what is written, and fails the calls whose numbers, counted from 0, are listed. A call for which
/// memory is wanting fails too.
#[derive(Debug, Drop)]
pub struct MemSink {
    bytes: Vec<u8>,
    most: usize,
    failing: Vec<u64>,
    calls: u64,
    faults: u64,
}

impl Model for MemSink {
    ghost use Rattle.stm_base.specs.Memory.{MemOutput};

    ghost Value = { MemOutput };

    ghost view = { λ s. record { written = s.bytes.items; failing = s.failing.items; calls = s.calls; faults = s.faults } };
}

impl MemSink {
    /// Writes behind `bytes`. One call takes at most `most` bytes, a 0 read as 1.
    pub fn new(bytes: Vec<u8>, most: usize, failing: Vec<u64>) -> MemSink
        ensures { result ≡ record { written = bytes.items; failing = failing.items; calls = 0; faults = 0 } }
    {
        MemSink {
            bytes,
            most,
            failing,
            calls: 0,
            faults: 0,
        }
    }

    /// What was written.
    pub fn bytes(&self) -> &[u8]
        ensures { result.now ≡ self.now.written }
    {
        self.bytes.as_slice()
    }
}

impl Sink for MemSink {
    ghost written = { λ s. Some s.written };

    ghost faults = { λ s. s.faults };

    fn write(&mut self, bytes: &[u8]) -> Result<usize, Failed>
        ensures bound { WritesAtMost result bytes.now }
        ensures some { IfOk result (λ n. 0 < length bytes.now → 0 < n) }
        ensures bytes { WriteAppends (Some self.old.written) (Some self.new.written) result bytes.now }
        ensures cause { HasCause self.old.faults self.new.faults result }
        // It fails each call that is listed.
        ensures listed { is_listed self.old.failing self.old.calls ≡ true → IsErr result }
        ensures same_list { self.new.failing ≡ self.old.failing }
        ensures next { self.new.calls ≡ min (self.old.calls + 1) (2 ^ 64 - 1) }
    {
        let call = self.calls;
        self.calls = call.saturating_add(1);
        let n = bytes.len().min(self.most.max(1));
        if self.failing.contains(&call) || self.bytes.extend_from_slice(&bytes[..n]).is_err() {
            self.faults = self.faults.saturating_add(1);
            return Err(Failed);
        }
        Ok(n)
    }
}
